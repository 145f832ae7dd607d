// What is read: a row, under a layout and a family; and what stands at a place in it.
ghost use Rattle.std.specs.Prelude.{◌≡◌, ◌+◌, ◌<◌, ◌≤◌, ℕ, ℤ, List, false, Ok, Some, IfSome, length, drop as from_place, vec_items};
ghost use Rattle.fields.specs.Laws.{Bytes};
ghost use Rattle.layout.specs.Trees.{operand_of, node_at};
ghost use Rattle.report.specs.Values.{value_of, values as values_of, latest};
ghost use Rattle.report.specs.Checks.{checked};
ghost use Rattle.report.specs.Leaves.{mark_reads, first_from};
ghost use Rattle.report.specs.declared.line.Line.{Line};
ghost use Rattle.report.specs.declared.outcome.Outcome.TheVariants.{Good};
ghost use Rattle.report.specs.Lines.{line};
ghost use Rattle.report.specs.Printing.{share_of};

use crate::open::Open;
use fields::cause::{Cause, Reading};
use fields::cursor::Cursor;
use fields::family::{Family, Kind};
use layout::node::{Node, Relation, Shape, Side};
use layout::table::Layout;
use memchr::memchr;
use report::check::compared;
use report::line::Line;
use report::outcome::Outcome;

#[derive(Clone, Copy)]
pub(crate) struct Source<'a, F: Family> {
    pub(crate) layout: &'a Layout,
    pub(crate) family: &'a F,
    pub(crate) row: &'a [u8],
}

// A field or a mark at a place in the row: what is read there, whether its bytes are kept if it is read, and the part behind it.
#[derive(Clone, Copy)]
pub(crate) struct Leaf {
    pub(crate) reading: Reading,
    pub(crate) keeps: bool,
    pub(crate) next: Option<u16>,
}

impl<F: Family> Source<'_, F> {
    ghost use Rattle.reader.specs.Turns.{Pending, begin, leaf_begun, moved};
    ghost use Rattle.reader.specs.Models.{nodes_of, node_in, part_in, later_in};

    // What the family reads at a place.
    #[inline(always)]
    pub(crate) fn read_field(&self, kind: Kind, place: usize) -> Reading
        requires within { place ≤ length self.now.row.now }
        requires bytes { Bytes self.now.row.now }
        ensures value { result ≡ (F.Family.means self.now.family.now kind.code kind.parameter).reads (from_place place self.now.row.now) }
        ensures within { (x : ℕ × ℤ) → result ≡ Ok x → place + x.0 ≤ length self.now.row.now }
    {
        let mut cursor = Cursor {
            bytes: self.row,
            place,
        };
        self.family.read(kind, &mut cursor)
    }

    // Whether a byte stands at a place.
    pub(crate) fn read_mark(&self, byte: u8, place: usize) -> Reading
        requires { place ≤ length self.now.row.now }
        ensures value { result ≡ mark_reads byte (from_place place self.now.row.now) }
        ensures within { (x : ℕ × ℤ) → result ≡ Ok x → place + x.0 ≤ length self.now.row.now }
    {
        match self.row.get(place) {
            None => Err(Cause::Short),
            Some(&stands) if stands == byte => Ok((1, 0)),
            Some(_) => Err(Cause::Form),
        }
    }

    // A part at a place, if it is a field or a mark.
    #[inline(always)]
    pub(crate) fn leaf(&self, part: u16, place: usize) -> Option<Leaf>
        requires within { place ≤ length self.now.row.now }
        requires bytes { Bytes self.now.row.now }
        ensures begun { IfSome result (λ x. (fs : List Pending) (ls : List Line) (r : ℕ) → begin (F.Family.means self.now.family.now) (nodes_of self.now) self.now.row.now false (part_in self.now part) fs ls place r ≡ leaf_begun part fs ls place r x.reading) }
        ensures within { IfSome result (λ x. (y : ℕ × ℤ) → x.reading ≡ Ok y → place + y.0 ≤ length self.now.row.now) }
        ensures textless { IfSome result (λ x. x.keeps ≡ false → (n : ℕ) (z : ℤ) → share_of (F.Family.means self.now.family.now) (nodes_of self.now) (line part Good place n z) ≡ 0) }
        ensures next { IfSome result (λ x. x.next ≡ (node_at (nodes_of self.now) part).next) }
    {
        let Node { shape, next } = self.layout.node(part);
        let (reading, keeps) = match shape {
            Shape::Field { kind, .. } => (self.read_field(kind, place), self.keeps(kind)),
            Shape::Mark { byte } => (self.read_mark(byte, place), false),
            Shape::Sequence { .. }
            | Shape::Choice { .. }
            | Shape::Optional { .. }
            | Shape::Check { .. } => return None,
        };
        Some(Leaf {
            reading,
            keeps,
            next,
        })
    }

    // The first place of a byte from a place on.
    pub(crate) fn find(&self, byte: u8, place: usize) -> Option<usize>
        requires { place ≤ length self.now.row.now }
        ensures value { result ≡ first_from self.now.row.now byte place }
        ensures inside { IfSome result (λ j. j < length self.now.row.now) }
    {
        let at = memchr(byte, &self.row[place..])?;
        Some(place + at)
    }

    // The number that a line puts into a column, if it puts one there.
    fn number_in(&self, column: u8, line: Line) -> Option<i64>
        ensures { result ≡ latest column (value_of (vec_items self.now.layout.now.nodes) line) }
    {
        match self.layout.node(line.node).shape {
            Shape::Field {
                column: Some(c),
                ..
            } if c == column && line.outcome == Outcome::Good => { Some(line.number) }
            _ => None,
        }
    }

    // The value of a column: the number of its latest good line that stands; none exactly where there is no such line.
    pub(crate) fn value(&self, column: u8, lines: &[Line]) -> Option<i64>
        ensures { result ≡ latest column (values_of (vec_items self.now.layout.now.nodes) lines.now) }
    {
        let mut value = None;
        for line in lines {
            value = self.number_in(column, *line).or(value);
        }
        value
    }

    // The outcome of a check behind these lines.
    pub(crate) fn check(&self, relation: Relation, left: u8, right: Side, lines: &[Line]) -> Outcome
        ensures { result ≡ checked relation left (operand_of (vec_items self.now.layout.now.constants) right) (values_of (vec_items self.now.layout.now.nodes) lines.now) }
    {
        let right = match right {
            Side::Column(column) => self.value(column, lines),
            Side::Constant(number) => self
                .layout
                .constants()
                .get(usize::from(number))
                .copied()
                .or(Some(0)),
        };
        compared(relation, self.value(left, lines), right)
    }

    // An open node, once its next part is begun or passed over.
    pub(crate) fn behind(&self, f: Open, part: u16, branch: u16) -> Open
        requires next { f.rest ≡ Some part }
        requires count { branch ≤ f.branch + 1 }
        ensures { node_in self.now result ≡ moved (node_in self.now f) (part_in self.now part) (later_in self.now part) branch }
    {
        f.moved(part, self.layout.node(part).next, branch)
    }
}
