// New: an import takes a file.
ghost use Rattle.std.specs.Prelude.{◌≡◌, ℕ, List, OnOk, OnErr};
ghost use Rattle.import.specs.Answers.{said_done};
ghost use Rattle.import.specs.Calls.{Call};
ghost use Rattle.import.specs.News.{take_file, step_new};
ghost use Rattle.import.specs.Promises.{WholeRun};
ghost use Rattle.import.specs.Stages.{open_at};
ghost use Rattle.import.specs.States.{model_of};

use crate::answer::Counts;
use crate::import::Import;
use crate::refusal::Refusal;
use crate::stage::Stage;
use fields::family::Family;
use rows::file::LONGEST;
use rows::rule::RowRule;

impl<F: Family, R: RowRule> Import<F, R> {
    // Takes a file where no row is open.
    fn take_file(
        &mut self,
        number: u32,
        layout: &[u8],
        mut rule: R,
        file: &[u8],
    ) -> Result<(), Refusal>
    where
        R: Drop,
        requires { open_at self.old.stage ≡ 0 }
        ensures step { (said_done result, model_of file.now self.new) ≡ take_file (model_of file.now self.old) number layout.now (R.means rule) file.now }
        ensures unchanged { OnErr result ((other : List ℕ) → model_of other self.new ≡ model_of other self.old) }
    {
        if file.len() > LONGEST {
            return Err(Refusal::FileTooLong);
        }
        if let Err(why) = self.layout.load(&self.family, layout) {
            return Err(Refusal::Layout(why));
        }
        rule.set(file);
        self.rule = rule;
        self.number = number;
        self.size = file.len();
        self.stage = Stage::Between;
        self.counts = Counts {
            opened: 0,
            kept: 0,
            set_aside: 0,
        };
        self.standing = None;
        Ok(())
    }

    // Takes a file: its rows are to come, nothing is counted, and no report stands. A refusal changes nothing.
    pub fn new(&mut self, number: u32, layout: &[u8], rule: R, file: &[u8]) -> Result<(), Refusal>
    where
        R: Drop,
        ensures step { (said_done result, model_of file.now self.new) ≡ step_new (model_of file.now self.old) number layout.now (R.means rule) file.now }
        ensures unchanged { OnErr result ((other : List ℕ) → model_of other self.new ≡ model_of other self.old) }
        ensures runs { OnOk result ((calls : List Call) → WholeRun file.now (model_of file.now self.new) calls) }
    {
        match self.stage {
            Stage::Unread { .. } | Stage::Read => return Err(Refusal::WrongMoment),
            Stage::Empty | Stage::Between | Stage::End { .. } => {}
        }
        self.take_file(number, layout, rule, file)
    }
}
