// Read: the report of the open row.
ghost use Rattle.std.specs.Prelude.{◌≡◌, ◌↔◌, ℕ, true, List, is_none, OnOk};
ghost use Rattle.report.specs.Meets.{meets};
ghost use Rattle.report.specs.Reports.{fault_count};
ghost use Rattle.store.specs.Stored.{report_of};
ghost use Rattle.import.specs.Answers.{said_done};
ghost use Rattle.import.specs.Calls.{read};
ghost use Rattle.import.specs.Reported.{unread_bytes};
ghost use Rattle.import.specs.Stages.{open_at};
ghost use Rattle.import.specs.Steps.{unreadable, tried, read_row, step};
ghost use Rattle.import.specs.States.{setting_of, model_of};

use crate::import::Import;
use crate::import::places::part;
use crate::refusal::Refusal;
use crate::stage::Stage;
use fields::family::Family;
use rows::piece::Mark;
use rows::rule::RowRule;

impl<F: Family, R: RowRule> Import<F, R> {
    // Makes the report of a row, with its bytes at hand, where one is open and unread.
    fn read_row(&mut self, row: &[u8], mark: Mark) -> Result<(), Refusal>
        requires open { open_at self.old.stage ≡ 1 }
        requires unread { is_none self.old.standing ≡ true }
        ensures step { (other : List ℕ) → (said_done result, model_of other self.new) ≡ tried (unreadable (setting_of self.old) row.now) (model_of other self.old) (read_row (model_of other self.old) row.now mark) }
        ensures meets { OnOk result ((fault_count (report_of self.new.report) ≡ 0) ↔ (meets (F.means self.old.family) self.old.layout.nodes.items self.old.layout.constants.items row.now ≡ true)) }
    {
        if let Err(why) = self.reader.read_framed(
            &self.rule,
            &self.layout,
            &self.family,
            row,
            mark,
            &mut self.report,
        ) {
            return Err(Refusal::of_reading(why));
        }
        self.standing = Some(mark);
        self.stage = Stage::Read;
        Ok(())
    }

    // Makes the report of the open row, which then stands. It has no fault exactly when the row meets the layout.
    pub fn read(&mut self, file: &[u8]) -> Result<(), Refusal>
        ensures step { (other : List ℕ) → (said_done result, model_of other self.new) ≡ step file.now (model_of other self.old) read }
        ensures meets { OnOk result ((fault_count (report_of self.new.report) ≡ 0) ↔ (meets (F.means self.old.family) self.old.layout.nodes.items self.old.layout.constants.items (unread_bytes file.now self.old.stage) ≡ true)) }
    {
        let Stage::Unread {
            start,
            length,
            mark,
        } = self.stage
        else {
            return Err(Refusal::WrongMoment);
        };
        if file.len() != self.size {
            return Err(Refusal::OtherLength);
        }
        self.read_row(part(file, start, length), mark)
    }
}
