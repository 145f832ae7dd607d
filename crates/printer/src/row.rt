// A report printed: the bytes of its row.
ghost use Rattle.std.specs.Prelude.{◌≡◌};
ghost use Rattle.report.specs.Reports.{print as print_of};
ghost use Rattle.store.specs.Stored.{report_of};
ghost use Rattle.printer.specs.Puts.{put};

use crate::length::printed_length;
use crate::parts::write_parts;
use fields::family::Family;
use layout::table::Layout;
use rows::refusal::Refusal;
use store::memory::Report;

// Prints a report at a buffer's beginning, and says how many bytes that took. A buffer without room is refused before anything is written.
pub fn print<F: Family>(
    layout: &Layout,
    family: &F,
    report: &Report,
    out: &mut [u8],
) -> Result<usize, Refusal>
    ensures { (result, out.new) ≡ put (print_of (F.means family.now) layout.now.nodes.items (report_of report.now)) out.old }
{
    if out.len() < printed_length(layout, family, report) {
        return Err(Refusal::BufferTooShort);
    }
    write_parts(layout, family, report, out).ok_or(Refusal::BufferTooShort)
}
