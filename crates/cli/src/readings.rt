// What reading a field gives, in words.
ghost use Rattle.std.specs.Prelude.{Some};
ghost use Rattle.cli.specs.Readings.{reading_line};

use fields::cause::Cause;
use std::fmt;

// What reading some text as a field gave; `name` is what the kind is called, and `length` of the text's `size` bytes were taken.
#[derive(Clone, Copy)]
pub enum Reading<'a> {
    // a numeric field
    Number {
        name: &'a str,
        number: i64,
        length: usize,
        size: usize,
    },
    // a kept field
    Kept {
        name: &'a str,
        length: usize,
        size: usize,
    },
    // a field that cannot be read
    Fault {
        name: &'a str,
        cause: Cause,
    },
}

// The line that tells a reading.
impl fmt::Display for Reading<'_> {
    ghost output = { λ r. Some (reading_line r) };

    fn fmt<W: fmt::Write>(&self, f: &mut fmt::Formatter<W>) -> fmt::Result {
        match *self {
            Reading::Number {
                name,
                number,
                length,
                size,
            } => write!(f, "{name} {number}, {length} of {size} bytes read"),
            Reading::Kept { name, length, size } => {
                write!(f, "{name}, {length} of {size} bytes kept")
            }
            Reading::Fault { name, cause } => {
                let number = cause.number();
                write!(f, "{name}: cause {number}, {cause}")
            }
        }
    }
}
