// The lines of a listing, and how they are written.
ghost use Rattle.std.specs.Prelude.{Some};
ghost use Rattle.cli.specs.Listings.{plural, line_text};

use rows::piece::Mark;
use std::fmt;

// One line of a listing.
#[derive(Clone, Copy)]
pub enum ListingLine {
    // a row: its number, where it starts, how long it is, and how it ends
    Row {
        number: usize,
        start: usize,
        length: usize,
        mark: Mark,
    },
    // the tail, behind the rows
    Tail {
        start: usize,
        length: usize,
    },
    // how many rows were listed, and how many bytes the file has
    Summary {
        rows: usize,
        bytes: usize,
    },
    // the closing row, so numbered, is unended
    Notice {
        number: usize,
    },
}

impl fmt::Display for ListingLine {
    ghost output = { λ line. Some (line_text line) };

    fn fmt<W: fmt::Write>(&self, f: &mut fmt::Formatter<W>) -> fmt::Result {
        match *self {
            ListingLine::Row {
                number,
                start,
                length,
                mark,
            } => write!(f, "row {number}: start {start}, length {length}, {mark}"),
            ListingLine::Tail { start, length } => {
                // what is said of a tail that is not empty
                let note = if length == 0 {
                    ""
                } else {
                    ": these bytes belong to no row"
                };
                write!(f, "tail: start {start}, length {length}{note}")
            }
            ListingLine::Summary { rows, bytes } => {
                let listed = Plural {
                    count: rows,
                    noun: "row",
                };
                let size = Plural {
                    count: bytes,
                    noun: "byte",
                };
                write!(f, "{listed}; the file has {size}")
            }
            ListingLine::Notice { number } => write!(
                f,
                "notice: the closing row, row {number}, has no newline at its end; it is a row like the others and is counted"
            ),
        }
    }
}

// A number of things: `1 row`, `2 rows`.
#[derive(Clone, Copy)]
pub struct Plural<'a> {
    pub count: usize,
    pub noun: &'a str,
}

impl fmt::Display for Plural<'_> {
    ghost output = { λ p. Some (plural p.count p.noun.now) };

    fn fmt<W: fmt::Write>(&self, f: &mut fmt::Formatter<W>) -> fmt::Result {
        let (count, noun) = (self.count, self.noun);
        let ending = if count == 1 { "" } else { "s" };
        write!(f, "{count} {noun}{ending}")
    }
}
