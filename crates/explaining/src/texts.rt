// The lines of an explanation, and how they are written.
ghost use Rattle.std.specs.Prelude.{Some};
ghost use Rattle.explaining.specs.Lines.{fate_words, line_text};

use crate::faults::{FaultWords, PartName};
use crate::row::Row;
use crate::shown::Shown;
use cli::families::FamilyWords;
use cli::texts::Plural;
use import::refusal::Refusal;
use layout::node::Shape;
use outlines::line::ShapeWords;
use std::fmt;

// Why a row is set aside.
#[derive(Clone, Copy, PartialEq, Eq, Debug)]
pub enum Fate {
    // so many of its report's lines are faults
    Faulty(usize),
    // its read is refused
    NotRead(Refusal),
}

impl fmt::Display for Fate {
    ghost output = { λ fate. Some (fate_words fate) };

    fn fmt<W: fmt::Write>(&self, f: &mut fmt::Formatter<W>) -> fmt::Result {
        match *self {
            Fate::Faulty(count) => {
                let faults = Plural {
                    count,
                    noun: "fault",
                };
                write!(f, "{faults}")
            }
            Fate::NotRead(refusal) => {
                let number = refusal.number();
                write!(f, "not read, number {number}: {refusal}")
            }
        }
    }
}

// A fault of a part of the layout: its shape and its node, where in the row it is, and the number of its line; and what the names of kinds and constants are had from.
#[derive(Clone, Copy)]
pub struct PartFault<'t> {
    pub family: FamilyWords,
    pub constants: &'t [i64],
    pub shape: Shape,
    pub node: u16,
    pub at: usize,
    pub number: i64,
}

impl fmt::Display for PartFault<'_> {
    ghost use Rattle.explaining.specs.Lines.{fault_words_of};

    ghost output = { λ fault. Some (fault_words_of fault) };

    fn fmt<W: fmt::Write>(&self, f: &mut fmt::Formatter<W>) -> fmt::Result {
        let name = PartName(ShapeWords {
            shape: self.shape,
            family: self.family,
            constants: self.constants,
        });
        let (node, at) = (self.node, self.at);
        let why = FaultWords {
            shape: self.shape,
            number: self.number,
        };
        write!(f, "{name} (node {node}), at {at}: {why}")
    }
}

// One line. Places in a row count its bytes from 0.
#[derive(Clone, Copy)]
pub enum ExplainedLine<'t> {
    // a row that is set aside
    Aside(Row, Fate),
    // a fault of a part of the layout
    Fault(PartFault<'t>),
    // bytes are left where the layout ends
    BytesLeft {
        at: usize,
    },
    // bytes that no part took
    Scrap {
        at: usize,
        bytes: &'t [u8],
    },
    // so many parts were skipped
    Skipped {
        parts: usize,
    },
    // how many rows were opened, kept and set aside
    Counts {
        opened: usize,
        kept: usize,
        set_aside: usize,
    },
}

impl fmt::Display for ExplainedLine<'_> {
    ghost output = { λ line. Some (line_text line) };

    fn fmt<W: fmt::Write>(&self, f: &mut fmt::Formatter<W>) -> fmt::Result {
        match *self {
            ExplainedLine::Aside(row, fate) => {
                let row = row.listed();
                write!(f, "{row}: {fate}, set aside")
            }
            ExplainedLine::Fault(fault) => write!(f, "  {fault}"),
            ExplainedLine::BytesLeft { at } => write!(
                f,
                "  the row, at {at}: the layout ends here, and bytes are left"
            ),
            ExplainedLine::Scrap { at, bytes } => {
                let count = Plural {
                    count: bytes.len(),
                    noun: "byte",
                };
                let bytes = Shown(bytes);
                write!(f, "  scrap, at {at}, {count}: {bytes}")
            }
            ExplainedLine::Skipped { parts } => {
                let parts = Plural {
                    count: parts,
                    noun: "part",
                };
                write!(f, "  {parts} skipped")
            }
            ExplainedLine::Counts {
                opened,
                kept,
                set_aside,
            } => {
                let rows = Plural {
                    count: opened,
                    noun: "row",
                };
                write!(f, "{rows} opened: {kept} kept, {set_aside} set aside")
            }
        }
    }
}
