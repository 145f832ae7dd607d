// Why a call on a row rule is refused.
ghost use Rattle.std.specs.Prelude.{◌≡◌};
ghost use Rattle.rows.specs.Refusals.{number_of, reason};

use std::error::Error;
use std::fmt;

// Each refusal is known by its number.
#[derive(Clone, Copy, PartialEq, Eq, Debug)]
pub enum Refusal {
    // a file of more than 16,777,216 bytes
    FileTooLong = 8,
    // a width or a sample out of range, when the rule is made
    OutOfRange = 11,
    // a buffer that is too short for what goes into it
    BufferTooShort = 15,
}

impl Refusal {
    // The number by which a refusal is known. (One line, alike in other crates: a trait for it would be no plainer.)
    pub fn number(self) -> u8
        ensures { result ≡ number_of self }
    {
        self as u8
    }

    // What a refusal means.
    pub fn reason(self) -> &'static str
        ensures { result.now ≡ reason self }
    {
        match self {
            Refusal::FileTooLong => "a file has more than 16777216 bytes",
            Refusal::OutOfRange => "a width is not 1 to 4096, or a sample is not 0 to 16777216",
            Refusal::BufferTooShort => "a buffer is too short",
        }
    }
}

// (Written out: a derive would not state the bytes.)
impl fmt::Display for Refusal {
    ghost use Rattle.std.specs.Prelude.{Some};

    ghost output = { λ e. Some (reason e) };

    fn fmt<W: fmt::Write>(&self, f: &mut fmt::Formatter<W>) -> fmt::Result {
        f.write_str(self.reason())
    }
}

impl Error for Refusal {}
