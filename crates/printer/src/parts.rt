// The parts of a report in a buffer, one behind the other.
ghost use Rattle.report.specs.Reports.{print as print_of};
ghost use Rattle.store.specs.Stored.{report_of};
ghost use Rattle.printer.specs.Puts.{PutsFirst};

use crate::part::Part;
use fields::family::Family;
use layout::table::Layout;
use store::memory::Report;

// Writes the parts of a report's lines, each from where the last stopped, and says how many bytes that took; none where they have no room.
pub(crate) fn write_parts<F: Family>(
    layout: &Layout,
    family: &F,
    report: &Report,
    out: &mut [u8],
) -> Option<usize>
    ensures { PutsFirst (print_of (F.means family.now) layout.now.nodes.items (report_of report.now)) out.old result out.new }
{
    let mut at: usize = 0;
    let mut text = report.text.as_slice();
    for line in &report.lines {
        let (part, rest) = Part::of_line(layout, family, line, text);
        at = part.write_at(family, out, at)?;
        text = rest;
    }
    Some(at)
}
