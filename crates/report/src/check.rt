// Checks: what a relation between two values comes to.
ghost use Rattle.std.specs.Prelude.{◌≡◌};
ghost use Rattle.report.specs.Checks.{holds as fulfilled, compared as outcome_of};

use crate::outcome::Outcome;
use layout::node::Relation;

// Whether a relation holds between two numbers.
pub fn holds(relation: Relation, left: i64, right: i64) -> bool
    ensures { result ≡ fulfilled relation left right }
{
    match relation {
        Relation::Equal => left == right,
        Relation::Unequal => left != right,
        Relation::Less => left < right,
        Relation::AtMost => left <= right,
    }
}

// The outcome of a check between two values, of which either may be missing.
pub fn compared(relation: Relation, left: Option<i64>, right: Option<i64>) -> Outcome
    ensures { result ≡ outcome_of relation left right }
{
    let (Some(x), Some(y)) = (left, right) else {
        return Outcome::Skipped;
    };
    if holds(relation, x, y) {
        Outcome::Good
    } else {
        Outcome::CheckFault
    }
}
