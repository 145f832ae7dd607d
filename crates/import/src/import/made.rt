// Making an import.
ghost use Rattle.std.specs.Prelude.{◌≡◌, ℕ, List, IfOk};
ghost use Rattle.import.specs.News.{empty, blank_setting};
ghost use Rattle.import.specs.States.{model_of};

use crate::answer::Counts;
use crate::import::Import;
use crate::stage::Stage;
use fields::family::Family;
use layout::table::Layout;
use reader::reader::Reader;
use rows::rule::RowRule;
use std::alloc::{AllocError, Global};
use store::memory::Report;

impl<F: Family, R: RowRule> Import<F, R> {
    // An empty import, with memory for any layout, row and report: no later call takes memory.
    pub fn empty(heap: Global, family: F, rule: R) -> Result<Import<F, R>, AllocError>
    where
        F: Drop,
        R: Drop,
        ensures { IfOk result (λ i. (file : List ℕ) → model_of file i ≡ empty (blank_setting (R.means rule) (F.means family)) (R.ahead rule file)) }
    {
        let layout = Layout::new(heap)?;
        let reader = Reader::new(heap)?;
        let report = Report::new(heap)?;
        Ok(Import {
            family,
            rule,
            layout,
            number: 0,
            size: 0,
            stage: Stage::Empty,
            counts: Counts {
                opened: 0,
                kept: 0,
                set_aside: 0,
            },
            reader,
            report,
            standing: None,
        })
    }
}
