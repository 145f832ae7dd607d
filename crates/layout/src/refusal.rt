// Why a layout file is refused.
ghost use Rattle.std.specs.Prelude.{◌≡◌, Some};
ghost use Rattle.layout.specs.Refusals.{number_of, text_of};

use std::error::Error;
use std::fmt;

// Each is known by its number.
#[derive(Clone, Copy, PartialEq, Eq, Debug)]
pub enum Refusal {
    // the file's length or its counts are wrong
    Size = 1,
    // an unknown shape, or a bit that is not zero and should be
    Bits = 2,
    // a child or a next that leads nowhere or back, a child missing, or a next where none may be
    Links = 3,
    // a node past the root that is not child or next of exactly one
    Stranded = 4,
    // a kind that the family does not know
    Kind = 5,
    // a column, a relation or a right side out of range
    Range = 6,
    // a node that lies too deep
    Depth = 7,
}

impl Refusal {
    // The number by which a refusal is known. (One line, alike in other crates: a trait for it would be no plainer.)
    pub fn number(self) -> u8
        ensures { result ≡ number_of self }
    {
        self as u8
    }
}

// (Written out: a derive would not state the bytes.)
impl fmt::Display for Refusal {
    ghost output = { λ refusal. Some (text_of refusal) };

    fn fmt<W: fmt::Write>(&self, f: &mut fmt::Formatter<W>) -> fmt::Result {
        f.write_str(match self {
            Refusal::Size => "the length or the counts are wrong",
            Refusal::Bits => "a shape is unknown, or a bit is set that should not be",
            Refusal::Links =>
                "a child or a next leads nowhere or back, is missing, or should not be there",
            Refusal::Stranded => "a node is not child or next of exactly one",
            Refusal::Kind => "a kind is unknown to the family",
            Refusal::Range => "a column, a relation or a right side is out of range",
            Refusal::Depth => "a node lies too deep",
        })
    }
}

impl Error for Refusal {}
