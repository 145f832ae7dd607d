// Which refusal a table of records meets first.
ghost use Rattle.std.specs.Prelude.{◌≡◌, ◌<◌, ◌≤◌, length};
ghost use Rattle.layout.specs.Shapes.{sorts};
ghost use Rattle.layout.specs.Files.{answer};
ghost use Rattle.layout.specs.Judged.{limits, judged};

use crate::faults::{any_ill_linked, any_outside, any_stranded, any_stray_bits, any_unknown_kind};
use crate::levels::is_too_deep;
use crate::refusal::Refusal;
use fields::family::Family;
use packed::record::NodeRecord;

// Refuses a table by the first refusal that it meets; each is tried on all nodes before the next.
pub(crate) fn judge<F: Family>(
    family: &F,
    nodes: &[NodeRecord],
    constants: usize,
) -> Result<(), Refusal>
    requires some { 0 < length nodes.now }
    requires few { length nodes.now ≤ 200 }
    ensures { result ≡ answer (judged limits (sorts (F.Family.means family.now)) constants nodes.now) }
{
    if any_stray_bits(nodes) {
        return Err(Refusal::Bits);
    }
    if any_ill_linked(nodes) {
        return Err(Refusal::Links);
    }
    if any_stranded(nodes) {
        return Err(Refusal::Stranded);
    }
    if any_unknown_kind(family, nodes) {
        return Err(Refusal::Kind);
    }
    if any_outside(constants, nodes) {
        return Err(Refusal::Range);
    }
    if is_too_deep(nodes) {
        return Err(Refusal::Depth);
    }
    Ok(())
}
