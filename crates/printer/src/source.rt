// Where the bytes of a report's lines come from.
ghost use Rattle.std.specs.Prelude.{◌≡◌};
ghost use Rattle.report.specs.Printing.{field_source as source_of_field, shape_source as source_of_shape, source_of as source_of_line, share as share_of};
ghost use Rattle.printer.specs.Parts.{told};

use fields::cause::Sort;
use fields::family::{Family, Kind};
use layout::node::Shape;
use layout::table::Layout;
use report::line::Line;
use report::outcome::Outcome;

// Where the bytes of a line come from.
#[derive(Clone, Copy)]
pub(crate) enum Source {
    // It has none.
    Nothing,
    // A mark gives its byte.
    Byte(u8),
    // A number is spelled.
    Spelling(Kind),
    // The next of the kept text, as many as the line is long.
    KeptText,
}

impl Source {
    // How many bytes of the kept text a line of this length takes.
    pub(crate) fn share(self, length: usize) -> usize
        ensures { result ≡ share_of (told self) length }
    {
        match self {
            Source::KeptText => length,
            Source::Nothing | Source::Byte(_) | Source::Spelling(_) => 0,
        }
    }
}

// The source of a field that was read.
fn field_source(sort: Sort, kind: Kind) -> Source
    ensures { told result ≡ source_of_field sort kind.code kind.parameter }
{
    match sort {
        Sort::Unknown => Source::Nothing,
        Sort::Numeric => Source::Spelling(kind),
        Sort::Kept => Source::KeptText,
    }
}

// The source of a node that was read.
fn shape_source<F: Family>(family: &F, shape: Shape) -> Source
    ensures { told result ≡ source_of_shape (F.means family.now) shape }
{
    match shape {
        Shape::Field { kind, .. } => field_source(family.sort(kind), kind),
        Shape::Mark { byte } => Source::Byte(byte),
        Shape::Sequence { .. }
        | Shape::Choice { .. }
        | Shape::Optional { .. }
        | Shape::Check { .. } => Source::Nothing,
    }
}

// The source of a line.
pub(crate) fn source_of<F: Family>(layout: &Layout, family: &F, line: &Line) -> Source
    ensures { told result ≡ source_of_line (F.means family.now) layout.now.nodes.items line.now }
{
    match line.outcome {
        Outcome::Good => shape_source(family, layout.node(line.node).shape),
        Outcome::Scrap => Source::KeptText,
        Outcome::SyntaxFault
        | Outcome::CheckFault
        | Outcome::Absent
        | Outcome::Skipped
        | Outcome::FaultBelow => Source::Nothing,
    }
}
