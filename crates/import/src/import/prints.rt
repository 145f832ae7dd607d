// Print: a standing report as the frame of its row.
ghost use Rattle.std.specs.Prelude.{◌≡◌, ℕ, List, length, Some};
ghost use Rattle.import.specs.Answers.{written};
ghost use Rattle.import.specs.Prints.{PrintsRow};
ghost use Rattle.import.specs.Calls.{print};
ghost use Rattle.import.specs.Steps.{step};
ghost use Rattle.import.specs.States.{standing, setting_of, model_of};

use crate::import::Import;
use crate::refusal::Refusal;
use fields::family::Family;
use printer::print_framed;
use rows::piece::Mark;
use rows::rule::RowRule;

impl<F: Family, R: RowRule> Import<F, R> {
    // The same of the report that stands, under its mark.
    fn put_frame(&self, mark: Mark, out: &mut [u8]) -> Result<usize, Refusal>
        requires { self.now.standing ≡ Some mark }
        ensures step { (file : List ℕ) → (result, out.new) ≡ written (step file (model_of file self.now) (print (length out.old))).0 out.old }
        ensures row { PrintsRow (setting_of self.now) (standing self.now.report self.now.standing) result out.old out.new }
    {
        match print_framed(
            &self.rule,
            mark,
            &self.layout,
            &self.family,
            &self.report,
            out,
        ) {
            Ok(length) => Ok(length),
            Err(_) => Err(Refusal::BufferTooShort),
        }
    }

    // Writes the frame of the row whose report stands at a buffer's beginning, and says how long it is.
    pub fn print(&self, out: &mut [u8]) -> Result<usize, Refusal>
        ensures step { (file : List ℕ) → (result, out.new) ≡ written (step file (model_of file self.now) (print (length out.old))).0 out.old }
        ensures row { PrintsRow (setting_of self.now) (standing self.now.report self.now.standing) result out.old out.new }
    {
        match self.standing {
            Some(mark) => self.put_frame(mark, out),
            None => Err(Refusal::WrongMoment),
        }
    }
}
