// Looking at an import: where it stands, the standing report, and the layout in use.
ghost use Rattle.std.specs.Prelude.{◌≡◌, ℕ, List, MatchResult, Ok, Err};
ghost use Rattle.import.specs.Looks.{standing_says};
ghost use Rattle.import.specs.States.{setting_of, model_of};
ghost use Rattle.store.specs.Stored.{report_of};

use crate::import::Import;
use crate::refusal::Refusal;
use crate::stage::Stage;
use fields::family::Family;
use layout::table::Layout;
use rows::rule::RowRule;
use store::memory::Report;

impl<F: Family, R: RowRule> Import<F, R> {
    // Where the import stands; at the end it tells the tail's place.
    pub fn stage(&self) -> Stage
        ensures { (file : List ℕ) → result ≡ (model_of file self.now).stage }
    {
        self.stage
    }

    // The report that stands.
    pub fn report(&self) -> Result<&Report, Refusal>
        ensures { MatchResult result (λ r. (file : List ℕ) → standing_says (model_of file self.now).standing ≡ Ok (report_of r.now)) (λ why. (file : List ℕ) → standing_says (model_of file self.now).standing ≡ Err why) }
    {
        match self.standing {
            None => Err(Refusal::WrongMoment),
            Some(_) => Ok(&self.report),
        }
    }

    // The layout in use.
    pub fn layout(&self) -> &Layout
        ensures nodes { result.now.nodes.items ≡ (setting_of self.now).nodes }
        ensures constants { result.now.constants.items ≡ (setting_of self.now).constants }
    {
        &self.layout
    }
}
