// What an import keeps: its memory is taken when it is made.
ghost use Rattle.std.specs.Prelude.{◌≡◌, ◌+◌, ◌≤◌, true};
ghost use Rattle.report.specs.Known.{Known};
ghost use Rattle.import.specs.Reported.{Reported};
ghost use Rattle.import.specs.Stages.{open_at, fits_stage};

use crate::answer::Counts;
use crate::stage::Stage;
use fields::family::Family;
use layout::table::Layout;
use reader::reader::Reader;
use rows::piece::Mark;
use rows::rule::RowRule;
use store::memory::Report;

mod calls;
mod compare;
mod looks;
mod made;
pub mod matching;
mod news;
pub mod places;
mod prints;
mod reads;
mod scan;
mod walk;

#[derive(Drop)]
pub struct Import<F: Family, R: RowRule> {
    family: F,
    rule: R,
    layout: Layout,
    number: u32,
    // the file's length when new took it
    size: usize,
    stage: Stage,
    counts: Counts,
    reader: Reader,
    report: Report,
    // the mark of the row whose report stands
    standing: Option<Mark>,
    ghost known: { ∥ Known (F.means family) layout.nodes.items ∥₁ },
    ghost reported: { ∥ Reported (R.means rule) (F.means family) layout.nodes.items layout.constants.items standing report ∥₁ },
    ghost small: { size ≤ 16777216 },
    ghost few: { counts.opened ≤ size },
    ghost fitting: { fits_stage stage standing ≡ true },
    ghost tally: { counts.opened ≡ counts.kept + counts.set_aside + open_at stage },
}
