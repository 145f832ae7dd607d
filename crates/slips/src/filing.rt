// Filing rows, each with its own slip.
ghost use Rattle.std.specs.Prelude.{◌≡◌, ℕ, List, [], IfOk, IfErr, IfSome};
ghost use Rattle.import.specs.Answers.{said_filed};
ghost use Rattle.import.specs.States.{model_of};
ghost use Rattle.import.specs.Steps.{file_row};
ghost use Rattle.import.specs.declared.stage.How.TheVariants.{SetAside};
ghost use Rattle.slips.specs.Held.{Holds, read_kept};

use fields::family::Family;
use import::answer::{Next, Opened};
use import::import::Import;
use import::refusal::Refusal;
use import::slip::Slip;
use rows::rule::RowRule;

// What became of a row.
#[derive(Clone, Copy)]
pub enum Fate {
    Kept,
    // why it was not kept
    SetAside(Refusal),
}

// Opens the next row, and answers its slip; none if no row is left.
#[tactic(auto, using(crate::proofs::Held::next_held))]
fn open_next<F: Family, R: RowRule>(
    import: &mut Import<F, R>,
    file: &[u8],
) -> Result<Option<Slip>, Refusal>
    ensures { IfOk result (λ o. IfSome o (λ slip. Holds slip (model_of file.now import.new))) }
{
    match import.next(file)? {
        Next::Row(
            Opened {
                slip,
                start: _,
                length: _,
                mark: _,
            },
        ) => Ok(Some(slip)),
        Next::End => Ok(None),
    }
}

// Sets the open row aside with its slip, which is never refused.
#[tactic(auto, using(crate::proofs::Held::aside_done))]
fn set_aside<F: Family, R: RowRule>(import: &mut Import<F, R>, slip: Slip)
    requires { Holds slip (model_of [] import.old) }
    ensures { (file : List ℕ) → model_of file import.new ≡ (file_row SetAside (model_of file import.old)).1 }
{
    match import.set_aside(slip) {
        Ok(()) => {}
        Err(_) => unreachable!(),
    }
}

// Opens the next row, and sets it aside unread; tells whether there was one.
pub fn set_next_aside<F: Family, R: RowRule>(
    import: &mut Import<F, R>,
    file: &[u8],
) -> Result<bool, Refusal> {
    let Some(unread) = open_next(import, file)? else {
        return Ok(false);
    };
    set_aside(import, unread);
    Ok(true)
}

// Reads the open row and keeps it with its slip. A refusal gives the slip back, and the row stays open.
fn read_and_keep<F: Family, R: RowRule>(
    import: &mut Import<F, R>,
    slip: Slip,
    file: &[u8],
) -> Result<(), (Refusal, Slip)>
    requires { Holds slip (model_of file.now import.old) }
    ensures kept { (said_filed result, model_of file.now import.new) ≡ read_kept file.now slip (model_of file.now import.old) }
    ensures open { IfErr result (λ e. Holds e.1 (model_of file.now import.new)) }
{
    if let Err(why) = import.read(file) {
        return Err((why, slip));
    }
    import.keep(slip)
}

// Keeps the next row with its slip, and sets the row behind it aside unread, with that row's own slip. A row that is not kept is set aside, and why is told.
pub fn keep_then_set_aside<F: Family, R: RowRule>(
    import: &mut Import<F, R>,
    file: &[u8],
) -> Result<(), Refusal> {
    let Some(first) = open_next(import, file)? else {
        return Ok(());
    };
    if let Err((why, unkept)) = read_and_keep(import, first, file) {
        set_aside(import, unkept);
        return Err(why);
    }
    let Some(second) = open_next(import, file)? else {
        return Ok(());
    };
    set_aside(import, second);
    Ok(())
}

// Opens the next row and files it, kept if it meets the layout and otherwise set aside; none if no row is left.
pub fn file_next<F: Family, R: RowRule>(
    import: &mut Import<F, R>,
    file: &[u8],
) -> Result<Option<Fate>, Refusal> {
    let Some(slip) = open_next(import, file)? else {
        return Ok(None);
    };
    match read_and_keep(import, slip, file) {
        Ok(()) => Ok(Some(Fate::Kept)),
        Err((why, unkept)) => {
            set_aside(import, unkept);
            Ok(Some(Fate::SetAside(why)))
        }
    }
}
