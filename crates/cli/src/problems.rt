// What stops a command, and the line that says so.
ghost use Rattle.std.specs.Prelude.{Some};
ghost use Rattle.cli.specs.Problems.{problem_line, unread_words};

use layout::refusal::Refusal as LayoutRefusal;
use reader::refusal::Refusal as RowRefusal;
use rows::refusal::Refusal;
use std::fmt;

// Each case holds the user's own words that the line repeats, or the system's reason.
#[derive(Clone, Copy)]
pub enum Problem<'a> {
    BadWords(&'a str),
    NoCommand(&'a str),
    // the form that the command should have
    WrongWords(&'a str),
    NoRule(&'a str),
    NoFamily(&'a str),
    NoNumber(&'a str),
    UnknownKind(&'a str),
    // what was refused
    Refused(Refusal, &'a str),
    // why a layout file was refused, and its name
    RefusedLayout(LayoutRefusal, &'a str),
    // the number of a row that is not read, why, and its file's name
    Unread(usize, RowRefusal, &'a str),
    // a file's name, and the reason
    Unreadable(&'a str, &'a str),
}

// The line that tells a problem.
impl fmt::Display for Problem<'_> {
    ghost output = { λ p. Some (problem_line p) };

    fn fmt<W: fmt::Write>(&self, f: &mut fmt::Formatter<W>) -> fmt::Result {
        match *self {
            Problem::BadWords(reason) => write!(
                f,
                "neskvaru: cannot read the words of the command: {reason}"
            ),
            Problem::NoCommand(word) => write!(
                f,
                "neskvaru: there is no command '{word}'; neskvaru alone tells how it is used"
            ),
            Problem::WrongWords(form) => write!(
                f,
                "neskvaru: too few or too many words; write: neskvaru {form}"
            ),
            Problem::NoRule(words) => write!(
                f,
                "neskvaru: '{words}' is no row rule; write newline, fixed:W or sample:N:RULE"
            ),
            Problem::NoFamily(words) => write!(
                f,
                "neskvaru: '{words}' is no family; write ascii, binary or pair:FAMILY:FAMILY"
            ),
            Problem::NoNumber(word) => write!(
                f,
                "neskvaru: '{word}' is no kind from 0 to 63, or no parameter from 0 to 255"
            ),
            Problem::UnknownKind(family) => write!(
                f,
                "neskvaru: the family '{family}' does not know this kind with this parameter"
            ),
            Problem::Refused(refusal, what) => {
                let number = refusal.number();
                write!(f, "neskvaru: refused, number {number}: {refusal}: '{what}'")
            }
            Problem::RefusedLayout(refusal, name) => {
                let number = refusal.number();
                write!(f, "neskvaru: refused, number {number}: {refusal}: '{name}'")
            }
            Problem::Unread(row, refusal, name) => {
                let row = UnreadRow { row, refusal };
                write!(f, "neskvaru: {row}: '{name}'")
            }
            Problem::Unreadable(name, reason) => {
                write!(f, "neskvaru: cannot read the file '{name}': {reason}")
            }
        }
    }
}

// A row that is not read, by its number, and why.
#[derive(Clone, Copy)]
struct UnreadRow {
    row: usize,
    refusal: RowRefusal,
}

impl fmt::Display for UnreadRow {
    ghost output = { λ unread. Some (unread_words unread.row unread.refusal) };

    fn fmt<W: fmt::Write>(&self, f: &mut fmt::Formatter<W>) -> fmt::Result {
        let (row, refusal) = (self.row, self.refusal);
        let number = refusal.number();
        write!(f, "row {row} is not read, number {number}: {refusal}")
    }
}
