// Comparing the reports that stand in two imports.
ghost use Rattle.std.specs.Prelude.{◌≡◌, ◌↔◌, ℕ, List, true, false, is_some, ◌&&◌, MatchResult};
ghost use Rattle.store.specs.Stored.{report_of};
ghost use Rattle.import.specs.Promises.{CompareSays, ReportsToldApart, Compared};
ghost use Rattle.import.specs.States.{model_of};

use crate::import::Import;
use crate::refusal::Refusal;
use fields::family::Family;
use report::line::Line;
use rows::rule::RowRule;
use store::memory::Report;

// Whether two lines are the same.
fn same_line(a: &Line, b: &Line) -> bool
    ensures { (result ≡ true) ↔ (a.now ≡ b.now) }
{
    a == b
}

// Whether two lists of lines are the same.
fn same_lines(a: &[Line], b: &[Line]) -> bool
    ensures { (result ≡ true) ↔ (a.now ≡ b.now) }
{
    if a.len() != b.len() {
        return false;
    }
    for i in 0..a.len() {
        if !same_line(&a[i], &b[i]) {
            return false;
        }
    }
    true
}

// Whether two reports have the same lines and the same kept text.
pub(crate) fn same(a: &Report, b: &Report) -> bool
    ensures { (result ≡ true) ↔ (report_of a.now ≡ report_of b.now) }
{
    same_lines(&a.lines, &b.lines) && a.text == b.text
}

impl<F: Family, R: RowRule> Import<F, R> {
    // Whether the report that stands here is equal to the one that stands in another import, whose rule may be another; refused unless a report stands in both.
    // Under one family and layout they are equal exactly when their rows hold the same bytes.
    pub fn same_report<Q: RowRule>(&self, other: &Import<F, Q>) -> Result<bool, Refusal>
        ensures value { (file : List ℕ) → CompareSays (model_of file self.now).standing (model_of file other.now).standing result }
        ensures stands { MatchResult result (λ same. (is_some self.now.standing && is_some other.now.standing ≡ true) × ((same ≡ true) ↔ (report_of self.now.report ≡ report_of other.now.report))) (λ _. is_some self.now.standing && is_some other.now.standing ≡ false) }
        ensures rows { MatchResult result (λ same. Compared (R.means self.now.rule) (Q.means other.now.rule) (F.means self.now.family) (λ file. model_of file self.now) (λ file. model_of file other.now) same) (λ _. Unit {0}) }
        ensures told_apart { ReportsToldApart (R.means self.now.rule) (Q.means other.now.rule) (F.means self.now.family) }
    {
        if self.standing.is_none() || other.standing.is_none() {
            return Err(Refusal::WrongMoment);
        }
        Ok(same(&self.report, &other.report))
    }
}
