// Matching a resent export against the first.
ghost use Rattle.std.specs.Prelude.{◌≡◌, IfOk};
ghost use Rattle.import.specs.Matching.{export, Told, OneAnswer, SameWhereRead, SameExactly};
ghost use Rattle.import.specs.Promises.{FilesToldApart, Exchanges};
ghost use Rattle.import.specs.Stages.{open_at};

use crate::answer::{Matched, Unmatched};
use crate::import::Import;
use crate::import::walk::match_both;
use fields::family::Family;
use rows::rule::RowRule;
use std::alloc::{AllocError, Global};

// Two imports that match exports. Nobody else has them, so that a refused match changes nothing that anybody can see.
#[derive(Drop)]
pub struct Matcher<F: Family, R: RowRule> {
    first: Import<F, R>,
    resent: Import<F, R>,
    ghost first_closed: { open_at first.stage ≡ 0 },
    ghost resent_closed: { open_at resent.stage ≡ 0 },
}

impl<F: Family, R: RowRule> Matcher<F, R> {
    ghost use Rattle.import.specs.Matchers.{first_means, resent_means};

    // A matcher with a family and a rule for each side; no later call takes memory.
    pub fn new(
        heap: Global,
        family: F,
        rule: R,
        resent_family: F,
        resent_rule: R,
    ) -> Result<Matcher<F, R>, AllocError>
    where
        F: Drop,
        R: Drop,
        ensures { IfOk result (λ m. (first_means m ≡ F.means family) × (resent_means m ≡ F.means resent_family)) }
    {
        let first = Import::empty(heap, family, rule)?;
        let resent = Import::empty(heap, resent_family, resent_rule)?;
        Ok(Matcher { first, resent })
    }

    // Matches a resent export against the first, by reports, marks and tails alone: both are taken under one layout, and their rows are gone over side by side, each row set aside.
    pub fn match_resent(
        &mut self,
        layout: &[u8],
        rule: R,
        one: &[u8],
        again: R,
        other: &[u8],
    ) -> Result<Matched, Unmatched>
    where
        R: Drop,
        ensures told { Told layout.now (export (R.means rule) (first_means self.old) one.now) (export (R.means again) (resent_means self.old) other.now) result }
        ensures one_answer { OneAnswer }
        ensures same { SameWhereRead (export (R.means rule) (first_means self.old) one.now) (export (R.means again) (resent_means self.old) other.now) result }
        ensures same_readable { SameExactly layout.now (export (R.means rule) (first_means self.old) one.now) (export (R.means again) (resent_means self.old) other.now) result }
        ensures families { (first_means self.new ≡ first_means self.old) × (resent_means self.new ≡ resent_means self.old) }
        ensures told_apart { FilesToldApart (R.means rule) (first_means self.old) }
        ensures exchanges { Exchanges (R.means rule) (first_means self.old) }
    {
        match_both(
            layout,
            &mut self.first,
            rule,
            one,
            &mut self.resent,
            again,
            other,
        )
    }
}
