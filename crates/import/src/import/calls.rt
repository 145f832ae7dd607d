// The calls but new, read and print, which have files of their own.
ghost use Rattle.std.specs.Prelude.{◌≡◌, ℕ, List, length, Ok, OnErr};
ghost use Rattle.import.specs.Answers.{said_next, said_place, said_filed, GivenBack, said_line, said_counts, written, IfEnded, IfNone};
ghost use Rattle.import.specs.Calls.{next, line, counts, keep, set_aside, closing};
ghost use Rattle.import.specs.Steps.{file_row, next_row, step};
ghost use Rattle.import.specs.Slips.{slip as slip_of, same_slip};
ghost use Rattle.import.specs.Stages.{open_at};
ghost use Rattle.import.specs.States.{model_of};

use crate::answer::{Counts, Next, Opened};
use crate::import::Import;
use crate::import::places::part;
use crate::refusal::Refusal;
use crate::slip::Slip;
use crate::stage::{How, Place, Stage};
use fields::family::Family;
use report::line::Line;
use rows::piece::Piece;
use rows::rule::RowRule;

impl<F: Family, R: RowRule> Import<F, R> {
    // Tells how many rows were opened, kept and set aside.
    pub fn counts(&self) -> Result<Counts, Refusal>
        ensures step { (file : List ℕ) → said_counts result ≡ (step file (model_of file self.now) counts).0 }
    {
        match self.stage {
            Stage::Empty => Err(Refusal::WrongMoment),
            Stage::Between | Stage::Unread { .. } | Stage::Read | Stage::End { .. } => {
                Ok(self.counts)
            }
        }
    }

    // Opens the next row, and tells its place and its mark; none if no row is left.
    pub(crate) fn open_next(&mut self, file: &[u8]) -> Result<Option<Place>, Refusal>
        ensures step { (said_place (slip_of self.new.number self.new.counts.opened) result, model_of file.now self.new) ≡ step file.now (model_of file.now self.old) next }
        ensures unchanged { OnErr result ((other : List ℕ) → model_of other self.new ≡ model_of other self.old) }
        ensures ends { IfNone result ((other : List ℕ) → R.ahead self.new.rule other ≡ R.ahead self.old.rule other) }
    {
        match self.stage {
            Stage::Empty | Stage::Unread { .. } | Stage::Read => Err(Refusal::WrongMoment),
            Stage::Between => {
                if file.len() != self.size {
                    return Err(Refusal::OtherLength);
                }
                Ok(self.ask(file))
            }
            Stage::End { .. } => {
                if file.len() != self.size {
                    return Err(Refusal::OtherLength);
                }
                Ok(None)
            }
        }
    }

    // Asks the rule where no row is open: the next row is then open, or the tail is told.
    fn ask(&mut self, file: &[u8]) -> Option<Place>
        requires { open_at self.old.stage ≡ 0 }
        ensures step { (said_place (slip_of self.new.number self.new.counts.opened) (Ok result), model_of file.now self.new) ≡ next_row (model_of file.now self.old) }
        ensures ends { IfNone (Ok result) ((other : List ℕ) → R.ahead self.new.rule other ≡ R.ahead self.old.rule other) }
    {
        if self.size <= self.counts.opened as usize {
            self.stage = Stage::End {
                start: self.size,
                length: 0,
            };
            return None;
        }
        match self.rule.next(file) {
            Piece::Row { start, bytes, mark } => {
                self.counts.opened += 1;
                self.stage = Stage::Unread {
                    start,
                    length: bytes.len(),
                    mark,
                };
                self.standing = None;
                Some(Place {
                    start,
                    length: bytes.len(),
                    mark,
                })
            }
            Piece::Tail { start, bytes } => {
                self.stage = Stage::End {
                    start,
                    length: bytes.len(),
                };
                None
            }
        }
    }

    // Opens the next row and hands it out under its slip, or says that none is left.
    pub fn next(&mut self, file: &[u8]) -> Result<Next, Refusal>
        ensures step { (said_next result, model_of file.now self.new) ≡ step file.now (model_of file.now self.old) next }
        ensures unchanged { OnErr result ((other : List ℕ) → model_of other self.new ≡ model_of other self.old) }
        ensures ends { IfEnded result ((other : List ℕ) → R.ahead self.new.rule other ≡ R.ahead self.old.rule other) }
    {
        match self.open_next(file)? {
            Some(
                Place {
                    start,
                    length,
                    mark,
                },
            ) => {
                let slip = Slip {
                    import: self.number,
                    row: self.counts.opened,
                };
                Ok(Next::Row(Opened {
                    slip,
                    start,
                    length,
                    mark,
                }))
            }
            None => Ok(Next::End),
        }
    }

    // Files the open row.
    pub(crate) fn file_open(&mut self, how: How)
        requires { open_at self.old.stage ≡ 1 }
        ensures { (file : List ℕ) → model_of file self.new ≡ (file_row how (model_of file self.old)).1 }
    {
        match how {
            How::Kept => self.counts.kept += 1,
            How::SetAside => self.counts.set_aside += 1,
        }
        self.stage = Stage::Between;
    }

    // Whether a slip is that of the row that was opened last.
    fn is_last(&self, slip: &Slip) -> bool
        ensures { result ≡ same_slip slip.now (slip_of self.now.number self.now.counts.opened) }
    {
        slip.import == self.number && slip.row == self.counts.opened
    }

    // Files the open row as kept, if it was read and has no fault. A refusal gives the slip back.
    pub fn keep(&mut self, slip: Slip) -> Result<(), (Refusal, Slip)>
        ensures step { (file : List ℕ) → (said_filed result, model_of file self.new) ≡ step file (model_of file self.old) (keep slip) }
        ensures back { GivenBack slip result }
    {
        let Stage::Read = self.stage else {
            return Err((Refusal::WrongMoment, slip));
        };
        if !self.is_last(&slip) {
            return Err((Refusal::OtherRow, slip));
        }
        if self.report.faults != 0 {
            return Err((Refusal::RowHasFaults, slip));
        }
        slip.spend();
        self.file_open(How::Kept);
        Ok(())
    }

    // Files the open row as set aside, read or not. A refusal gives the slip back.
    pub fn set_aside(&mut self, slip: Slip) -> Result<(), (Refusal, Slip)>
        ensures step { (file : List ℕ) → (said_filed result, model_of file self.new) ≡ step file (model_of file self.old) (set_aside slip) }
        ensures back { GivenBack slip result }
    {
        match self.stage {
            Stage::Empty | Stage::Between | Stage::End { .. } => {
                return Err((Refusal::WrongMoment, slip));
            }
            Stage::Unread { .. } | Stage::Read => {}
        }
        if !self.is_last(&slip) {
            return Err((Refusal::OtherRow, slip));
        }
        slip.spend();
        self.file_open(How::SetAside);
        Ok(())
    }

    // Tells a line of the standing report by its number, from 1.
    pub fn line(&self, number: usize) -> Result<Option<Line>, Refusal>
        ensures step { (file : List ℕ) → said_line result ≡ (step file (model_of file self.now) (line number)).0 }
    {
        let Some(_) = self.standing else {
            return Err(Refusal::WrongMoment);
        };
        if number == 0 {
            return Ok(None);
        }
        Ok(self.report.lines.get(number - 1).copied())
    }

    // Writes the tail at a buffer's beginning, and says how long it is.
    pub fn closing(&self, file: &[u8], out: &mut [u8]) -> Result<usize, Refusal>
        ensures step { (result, out.new) ≡ written (step file.now (model_of file.now self.now) (closing (length out.old))).0 out.old }
    {
        let Stage::End { start, length } = self.stage else {
            return Err(Refusal::WrongMoment);
        };
        if file.len() != self.size {
            return Err(Refusal::OtherLength);
        }
        let tail = part(file, start, length);
        if out.len() < tail.len() {
            return Err(Refusal::BufferTooShort);
        }
        out[..tail.len()].copy_from_slice(tail);
        Ok(tail.len())
    }
}
