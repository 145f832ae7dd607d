// Why a row is not read.
ghost use Rattle.std.specs.Prelude.{◌≡◌, Some};
ghost use Rattle.reader.specs.Refusals.{number_of, text_of};

use std::error::Error;
use std::fmt;

// Each is known by its number.
#[derive(Clone, Copy, PartialEq, Eq, Debug)]
pub enum Refusal {
    // the row has more than 4,096 bytes
    RowTooLong = 9,
    // more than 512 lines would have to stand at one time
    TooManyLines = 10,
}

impl Refusal {
    // The number by which a refusal is known. (One line, alike in other crates: a trait for it would be no plainer.)
    pub fn number(self) -> u8
        ensures { result ≡ number_of self }
    {
        self as u8
    }
}

// (Written out: a derive would not state the bytes.)
impl fmt::Display for Refusal {
    ghost output = { λ refusal. Some (text_of refusal) };

    fn fmt<W: fmt::Write>(&self, f: &mut fmt::Formatter<W>) -> fmt::Result {
        f.write_str(match self {
            Refusal::RowTooLong => "a row has more than 4096 bytes",
            Refusal::TooManyLines => "a report would have more than 512 lines at one time",
        })
    }
}

impl Error for Refusal {}
