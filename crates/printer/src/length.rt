// How long a report is when it is printed.
ghost use Rattle.std.specs.Prelude.{◌≡◌, length};
ghost use Rattle.report.specs.Reports.{print as print_of};
ghost use Rattle.rows.specs.Frames.{measured};
ghost use Rattle.store.specs.Stored.{report_of};

use crate::part::Part;
use fields::family::Family;
use layout::table::Layout;
use store::memory::Report;

// The length of a printed report; one above the greatest number of 64 bits is told as the greatest.
pub fn printed_length<F: Family>(layout: &Layout, family: &F, report: &Report) -> usize
    ensures { result ≡ measured (length (print_of (F.means family.now) layout.now.nodes.items (report_of report.now))) }
{
    let mut total: usize = 0;
    let mut text = report.text.as_slice();
    for line in &report.lines {
        let (part, rest) = Part::of_line(layout, family, line, text);
        total = total.saturating_add(part.length(family));
        text = rest;
    }
    total
}
