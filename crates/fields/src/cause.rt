// Why a field cannot be read, and what sort of kind it has.
ghost use Rattle.std.specs.Prelude.{◌≡◌, Some};
ghost use Rattle.fields.specs.Causes.{number_of, reason};

use std::error::Error;
use std::fmt;

// Why a field cannot be read, with its number in reports.
#[derive(Clone, Copy, PartialEq, Eq, Debug)]
pub enum Cause {
    // The bytes end too soon.
    Short = 1,
    // The bytes have another form.
    Form = 2,
    // The number is too large, or there is no such date.
    Range = 3,
    // The number has another spelling, which is the only one that is read.
    SecondSpelling = 4,
}

// What reading a field gives: its length and its number, or the cause.
pub type Reading = Result<(usize, i64), Cause>;

// What a kind with its parameter is. Not to know it is one of the answers, as a family's table gives them, and so no `None`.
#[derive(Clone, Copy, PartialEq, Eq, Debug)]
pub enum Sort {
    // The family does not know it.
    Unknown,
    // It is read as a number, which is spelled again with the bytes read.
    Numeric,
    // Its bytes are kept, and its number is their count.
    Kept,
}

impl Cause {
    // The number of a cause in reports. (One line, alike in other crates: a trait for it would be no plainer.)
    pub fn number(self) -> u8
        ensures { result ≡ number_of self }
    {
        self as u8
    }

    // A cause in words.
    pub fn reason(self) -> &'static str
        ensures { result.now ≡ reason self }
    {
        match self {
            Cause::Short => "the bytes end too soon",
            Cause::Form => "the bytes have another form",
            Cause::Range => "too large, or no such date",
            Cause::SecondSpelling => "a second spelling of the number",
        }
    }
}

// (Written out: a derive would not state the bytes.)
impl fmt::Display for Cause {
    ghost output = { λ c. Some (reason c) };

    fn fmt<W: fmt::Write>(&self, f: &mut fmt::Formatter<W>) -> fmt::Result {
        f.write_str(self.reason())
    }
}

impl Error for Cause {}
