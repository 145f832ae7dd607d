// The listing of a file's rows, a line at a time.
ghost use Rattle.std.specs.Prelude.{◌≡◌, ◌+◌, ◌<◌, ◌≤◌, ◌∷◌, length, MatchResult};
ghost use Rattle.std.specs.Iterator.{YieldsFirstBy, item_count};
ghost use Rattle.rows.specs.declared.refusal.Refusal.TheVariants.{FileTooLong};
ghost use Rattle.cli.specs.Stages.{rows_told};
ghost use Rattle.cli.specs.declared.listing.Stage.TheVariants.{Rows};

use crate::texts::ListingLine;
use rows::file::set_on;
use rows::piece::{Mark, Piece};
use rows::refusal::Refusal;
use rows::rule::RowRule;

// What comes next. The lines are handed out one at a time, and the summary and the notice tell what only the rows before them say: so where the listing is, with that, is remembered between them.
#[derive(Clone, Copy)]
enum Stage {
    // the row behind those that were told, or the tail; `last` is the mark of the last of them
    Rows { told: usize, last: Option<Mark> },
    // the summary of so many rows
    Summary { rows: usize, last: Option<Mark> },
    // the notice of the closing row
    Notice { number: usize },
    Done,
}

// A rule set on a file, and which of the lines comes next. The rows told and those to come are no more than a file may have bytes.
#[derive(Drop)]
pub struct Listing<'f, R: RowRule> {
    rule: R,
    file: &'f [u8],
    stage: Stage,
    ghost few: { rows_told stage + length (R.RowRule.ahead rule file.now).rows ≤ 16777216 },
}

impl<'f, R: RowRule + Drop> Listing<'f, R> {
    ghost use Rattle.cli.specs.Listings.{line_text, listing, left};

    // The listing of a file that is not too long, before its first line.
    pub fn new(mut rule: R, file: &'f [u8]) -> Result<Listing<'f, R>, Refusal>
        ensures { MatchResult result (λ l. left R.RowRule.ahead l ≡ listing ((R.RowRule.means rule).cut file.now) (length file.now)) (λ e. (e ≡ FileTooLong) × (16777216 < length file.now)) }
    {
        set_on(&mut rule, file)?;
        let stage = Stage::Rows {
            told: 0,
            last: None,
        };
        Ok(Listing { rule, file, stage })
    }

    // The line of the next row, or of the tail, where so many rows are told and the last of them had this mark.
    fn next_row(&mut self, told: usize, last: Option<Mark>) -> ListingLine
        requires { self.old.stage ≡ Rows told last }
        ensures { left R.RowRule.ahead self.old ≡ line_text result ∷ left R.RowRule.ahead self.new }
    {
        match self.rule.next(self.file) {
            Piece::Row { start, bytes, mark } => {
                let number = told + 1;
                self.stage = Stage::Rows {
                    told: number,
                    last: Some(mark),
                };
                ListingLine::Row {
                    number,
                    start,
                    length: bytes.len(),
                    mark,
                }
            }
            Piece::Tail { start, bytes } => {
                self.stage = Stage::Summary { rows: told, last };
                ListingLine::Tail {
                    start,
                    length: bytes.len(),
                }
            }
        }
    }
}

// Each line once, in order.
impl<'f, R: RowRule + Drop> Iterator for Listing<'f, R> {
    ghost use Rattle.cli.specs.Listings.{line_text, left};

    type Item = ListingLine;

    ghost next_gives = { YieldsFirstBy line_text (left R.RowRule.ahead) };

    ghost remaining = { item_count (left R.RowRule.ahead) };

    fn next(&mut self) -> Option<ListingLine> {
        match self.stage {
            Stage::Rows { told, last } => Some(self.next_row(told, last)),
            Stage::Summary { rows, last } => {
                self.stage = match last {
                    Some(Mark::Unended) => Stage::Notice { number: rows },
                    _ => Stage::Done,
                };
                Some(ListingLine::Summary {
                    rows,
                    bytes: self.file.len(),
                })
            }
            Stage::Notice { number } => {
                self.stage = Stage::Done;
                Some(ListingLine::Notice { number })
            }
            Stage::Done => None,
        }
    }
}
