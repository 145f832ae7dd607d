// The line of a node: its number and what it is, indented by its depth.
ghost use Rattle.std.specs.Prelude.{Some};
ghost use Rattle.outlines.specs.Lines.{line_text};
ghost use Rattle.outlines.specs.Words.{shape_words};

use crate::words::{ColumnWords, Hex, SideWords, Spaces, relation_words};
use cli::families::FamilyWords;
use layout::node::{Entry, Shape};
use std::fmt;

// A node with its place in the tree, and what its line also tells: the names of the family's kinds and the layout's constants.
#[derive(Clone, Copy)]
pub struct NodeLine<'t> {
    pub entry: Entry,
    pub shape: Shape,
    pub family: FamilyWords,
    pub constants: &'t [i64],
}

impl fmt::Display for NodeLine<'_> {
    ghost output = { λ line. Some (line_text line) };

    fn fmt<W: fmt::Write>(&self, f: &mut fmt::Formatter<W>) -> fmt::Result {
        let indent = Spaces(2 * usize::from(self.entry.depth).saturating_sub(1));
        let number = self.entry.number;
        let what = ShapeWords {
            shape: self.shape,
            family: self.family,
            constants: self.constants,
        };
        write!(f, "{indent}node {number}: {what}")
    }
}

// What a node is, in words.
#[derive(Clone, Copy)]
pub struct ShapeWords<'t> {
    pub shape: Shape,
    pub family: FamilyWords,
    pub constants: &'t [i64],
}

impl fmt::Display for ShapeWords<'_> {
    ghost output = { λ words. Some (shape_words words.family words.constants.now words.shape) };

    fn fmt<W: fmt::Write>(&self, f: &mut fmt::Formatter<W>) -> fmt::Result {
        match self.shape {
            Shape::Field { kind, column } => {
                let name = self.family.kind_name(kind.code);
                let (code, parameter) = (kind.code, kind.parameter);
                let column = ColumnWords(column);
                write!(f, "{name}, kind {code}, parameter {parameter}, {column}")
            }
            Shape::Mark { byte } => {
                let byte = Hex(byte);
                write!(f, "mark, byte {byte}")
            }
            Shape::Sequence { .. } => f.write_str("sequence"),
            Shape::Choice { .. } => f.write_str("choice"),
            Shape::Optional { .. } => f.write_str("option"),
            Shape::Check {
                relation,
                left,
                right,
            } => {
                let relation = relation_words(relation);
                let right = SideWords {
                    side: right,
                    constants: self.constants,
                };
                write!(f, "check, column {left} {relation} {right}")
            }
        }
    }
}
