// What is said of a resent export that was matched against the first.
ghost use Rattle.std.specs.Prelude.{Some};
ghost use Rattle.explaining.specs.Matches.{matched_line};

use import::answer::{Difference, Matched};
use std::fmt;

// The line that tells how a match came out.
#[derive(Clone, Copy)]
pub struct MatchedLine(pub Matched);

impl fmt::Display for MatchedLine {
    ghost output = { λ line. Some (matched_line line.0) };

    fn fmt<W: fmt::Write>(&self, f: &mut fmt::Formatter<W>) -> fmt::Result {
        match self.0 {
            Matched::Same => f.write_str(
                "the same: rows, marks and tail are those of the first export",
            ),
            Matched::Differs { row, how } => {
                let difference = DifferenceWords { row, how };
                write!(f, "{difference}")
            }
        }
    }
}

// The first difference.
#[derive(Clone, Copy)]
struct DifferenceWords {
    row: u32,
    how: Difference,
}

impl fmt::Display for DifferenceWords {
    ghost use Rattle.explaining.specs.Matches.{difference_line};

    ghost output = { λ words. Some (difference_line words.row words.how) };

    fn fmt<W: fmt::Write>(&self, f: &mut fmt::Formatter<W>) -> fmt::Result {
        let row = self.row;
        match self.how {
            Difference::Report => write!(
                f,
                "row {row}: another report; the row has other bytes in the resent export"
            ),
            Difference::Mark => write!(
                f,
                "row {row}: another mark; in one export the row has a newline at its end, in the other it has none"
            ),
            Difference::MissingInFirst => write!(f, "row {row}: missing in the first export"),
            Difference::MissingInResent => write!(f, "row {row}: missing in the resent export"),
            Difference::Tail => { f.write_str("another tail; the bytes behind all rows differ") }
        }
    }
}
