// A step of a pass: the next row of an import is opened, read, and filed.
ghost use Rattle.std.specs.Prelude.{◌≡◌, ℕ, List, OnErr};
ghost use Rattle.import.specs.Calls.{done, file as file_call, counts as counts_call};
ghost use Rattle.import.specs.Scans.{Ready};
ghost use Rattle.import.specs.States.{model_of};
ghost use Rattle.import.specs.Steps.{step};
ghost use Rattle.passes.specs.Passes.{how_filed, opened_of, said_pass, pass};
ghost use Rattle.passes.specs.Walks.{walk};

use fields::family::Family;
use import::answer::{Next, Opened};
use import::import::Import;
use import::refusal::Refusal;
use import::slip::Slip;
use import::stage::How;
use rows::piece::Mark;
use rows::rule::RowRule;

// A row that was gone over: its number, place and mark, whether its read was refused, and how it was filed.
#[derive(Clone, Copy, PartialEq, Eq, Debug)]
pub struct Passed {
    pub number: u32,
    pub start: usize,
    pub length: usize,
    pub mark: Mark,
    pub read: Result<(), Refusal>,
    pub filed: How,
}

// The number of the row that was opened last.
fn last_number<F: Family, R: RowRule>(import: &Import<F, R>) -> u32
    ensures { (file : List ℕ) → result ≡ opened_of (step file (model_of file import.now) counts_call).0 }
{
    match import.counts() {
        Ok(counts) => counts.opened,
        Err(_) => 0,
    }
}

// How the open row is filed: kept if its report stands and counts no fault, else set aside.
fn how_to_file<F: Family, R: RowRule>(import: &Import<F, R>) -> How
    ensures { (file : List ℕ) → result ≡ how_filed (model_of file import.now).standing }
{
    match import.report() {
        Ok(report) => {
            if report.faults == 0 {
                How::Kept
            } else {
                How::SetAside
            }
        }
        Err(_) => How::SetAside,
    }
}

// Files the open row, where nothing stands in the way.
fn file_open<F: Family, R: RowRule>(import: &mut Import<F, R>, how: How, slip: Slip)
    requires fits { (file : List ℕ) × ((step file (model_of file import.old) (file_call how slip)).0 ≡ done) }
    ensures { (file : List ℕ) → model_of file import.new ≡ (step file (model_of file import.old) (file_call how slip)).1 }
{
    match how {
        How::Kept => import.keep(slip).unwrap(),
        How::SetAside => import.set_aside(slip).unwrap(),
    }
}

// Opens the next row, reads it, and files it; its report stands behind it, if it was read. None if no row is left.
pub fn pass_next<F: Family, R: RowRule>(
    import: &mut Import<F, R>,
    file: &[u8],
) -> Result<Option<Passed>, Refusal>
    ensures step { (said_pass result, model_of file.now import.new) ≡ pass file.now (model_of file.now import.old) }
    ensures unchanged { OnErr result ((other : List ℕ) → model_of other import.new ≡ model_of other import.old) }
    ensures walks { Ready file.now (model_of file.now import.old) → (said_pass result, model_of file.now import.new) ≡ walk (model_of file.now import.old) }
{
    let Opened {
        slip,
        start,
        length,
        mark,
    } = match import.next(file) {
        Err(why) => return Err(why),
        Ok(Next::End) => return Ok(None),
        Ok(Next::Row(opened)) => opened,
    };
    let number = last_number(import);
    let read = import.read(file);
    let filed = how_to_file(import);
    file_open(import, filed, slip);
    Ok(Some(Passed {
        number,
        start,
        length,
        mark,
        read,
        filed,
    }))
}
