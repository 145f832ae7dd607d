// The parts of a node's line: its indent, its byte, its column, and the relation and the right side of a check.
ghost use Rattle.std.specs.Prelude.{◌≡◌, replicate, Some};
ghost use Rattle.outlines.specs.Words.{column_words, hex, relation_words, side_words};

use layout::node::{Relation, Side};
use std::fmt;

// So many spaces.
#[derive(Clone, Copy)]
pub(crate) struct Spaces(pub usize);

impl fmt::Display for Spaces {
    ghost output = { λ spaces. Some (replicate spaces.0 32) };

    fn fmt<W: fmt::Write>(&self, f: &mut fmt::Formatter<W>) -> fmt::Result {
        for _i in 0..self.0 {
            write!(f, " ")?;
        }
        Ok(())
    }
}

// A byte as two hexadecimal digits.
#[derive(Clone, Copy)]
pub struct Hex(pub u8);

impl fmt::Display for Hex {
    ghost output = { λ byte. Some (hex byte.0) };

    #[tactic(auto, using(std::proofs::lemmas::Fmt::hex_byte))]
    fn fmt<W: fmt::Write>(&self, f: &mut fmt::Formatter<W>) -> fmt::Result {
        let byte = self.0;
        write!(f, "{byte:02X}")
    }
}

// The column that a field's number goes to, if there is one.
#[derive(Clone, Copy)]
pub(crate) struct ColumnWords(pub Option<u8>);

impl fmt::Display for ColumnWords {
    ghost output = { λ words. Some (column_words words.0) };

    fn fmt<W: fmt::Write>(&self, f: &mut fmt::Formatter<W>) -> fmt::Result {
        match self.0 {
            Some(column) => write!(f, "column {column}"),
            None => f.write_str("no column"),
        }
    }
}

// How the left side of a check has to stand to the right side.
pub(crate) fn relation_words(relation: Relation) -> &'static str
    ensures { result.now ≡ relation_words relation }
{
    match relation {
        Relation::Equal => "is equal to",
        Relation::Unequal => "is unequal to",
        Relation::Less => "is less than",
        Relation::AtMost => "is at most",
    }
}

// The right side of a check, a constant with its value. (A constant that a layout has not, which no table names, is told as 0.)
#[derive(Clone, Copy)]
pub(crate) struct SideWords<'t> {
    pub side: Side,
    pub constants: &'t [i64],
}

impl fmt::Display for SideWords<'_> {
    ghost output = { λ words. Some (side_words words.constants.now words.side) };

    fn fmt<W: fmt::Write>(&self, f: &mut fmt::Formatter<W>) -> fmt::Result {
        match self.side {
            Side::Column(column) => write!(f, "column {column}"),
            Side::Constant(number) => {
                let value = self
                    .constants
                    .get(usize::from(number))
                    .copied()
                    .unwrap_or(0);
                write!(f, "constant {number}, which is {value}")
            }
        }
    }
}
