// Going over the rows of a file, one after another.
ghost use Rattle.std.specs.Prelude.{◌≡◌};
ghost use Rattle.import.specs.Scans.{Ready, Left, Scanned, tail_at};
ghost use Rattle.import.specs.States.{model_of};

use crate::import::Import;
use crate::import::places::part;
use crate::refusal::Refusal;
use crate::stage::{How, Stage};
use fields::family::Family;
use rows::piece::Mark;
use rows::rule::RowRule;

impl<F: Family, R: RowRule> Import<F, R> {
    // Opens the next row, reads it, and sets it aside; its report then stands. None if no row is left, and a refusal if the row's read is refused.
    pub(crate) fn scan(&mut self, file: &[u8]) -> Result<Option<Mark>, Refusal>
        requires { Ready file.now (model_of file.now self.old) }
        ensures scanned { Scanned file.now (model_of file.now self.old) (model_of file.now self.new) result }
        ensures left { Left (model_of file.now self.old) (model_of file.now self.new) }
    {
        match self.open_next(file) {
            Err(why) => Err(why),
            Ok(None) => Ok(None),
            Ok(Some(place)) => {
                let read = self.read(file);
                self.file_open(How::SetAside);
                match read {
                    Ok(()) => Ok(Some(place.mark)),
                    Err(why) => Err(why),
                }
            }
        }
    }

    // The tail, at the end.
    pub(crate) fn tail<'f>(&self, file: &'f [u8]) -> &'f [u8]
        ensures { result.now ≡ tail_at file.now self.now.stage }
    {
        match self.stage {
            Stage::End { start, length } => part(file, start, length),
            Stage::Empty | Stage::Between | Stage::Unread { .. } | Stage::Read => &[],
        }
    }
}
