// Going over the rows of two imports side by side.
ghost use Rattle.std.specs.Prelude.{◌≡◌, ◌&&◌, true, is_some};
ghost use Rattle.store.specs.Stored.{report_of};
ghost use Rattle.import.specs.declared.answer.Unmatched.TheVariants.{Unread};
ghost use Rattle.import.specs.Matching.{export, Told};
ghost use Rattle.import.specs.Walks.{TailsCompared, RowsCompared, Compares, Walked};
ghost use Rattle.import.specs.Scans.{Ready, Left};
ghost use Rattle.import.specs.Stages.{open_at};
ghost use Rattle.import.specs.States.{model_of};

use crate::answer::{Difference, Matched, Side, Unmatched};
use crate::import::Import;
use crate::refusal::Refusal;
use fields::family::Family;
use rows::piece::Mark;
use rows::rule::RowRule;

// The read of a row is refused.
fn unread(side: Side, row: u32, why: Refusal) -> Unmatched
    ensures { result ≡ Unread side row why }
{
    Unmatched::Unread { side, row, why }
}

// Whether the tails behind all rows are the same.
fn compare_tails(mine: &[u8], theirs: &[u8], row: u32) -> Matched
    ensures { TailsCompared row mine.now theirs.now result }
{
    if mine == theirs {
        return Matched::Same;
    }
    Matched::Differs {
        row,
        how: Difference::Tail,
    }
}

// How the rows of that number differ, whose reports stand; none where they are the same.
fn compare_rows<F: Family, R: RowRule>(
    first: &Import<F, R>,
    a: Mark,
    resent: &Import<F, R>,
    b: Mark,
    row: u32,
) -> Option<Matched>
    requires { is_some first.now.standing && is_some resent.now.standing ≡ true }
    ensures { RowsCompared row (report_of first.now.report) a (report_of resent.now.report) b result }
{
    let Ok(same) = first.same_report(resent) else {
        unreachable!()
    };
    if !same {
        return Some(Matched::Differs {
            row,
            how: Difference::Report,
        });
    }
    if a != b {
        return Some(Matched::Differs {
            row,
            how: Difference::Mark,
        });
    }
    None
}

// Goes over one row of each import, of that number, and answers how they differ; none where they are the same and others may follow.
fn compare_next<F: Family, R: RowRule>(
    first: &mut Import<F, R>,
    one: &[u8],
    resent: &mut Import<F, R>,
    other: &[u8],
    row: u32,
) -> Result<Option<Matched>, Unmatched>
    requires first { Ready one.now (model_of one.now first.old) }
    requires resent { Ready other.now (model_of other.now resent.old) }
    ensures told { Compares one.now other.now row (model_of one.now first.old) (model_of one.now first.new) (model_of other.now resent.old) (model_of other.now resent.new) result }
    ensures first_left { Left (model_of one.now first.old) (model_of one.now first.new) }
    ensures resent_left { Left (model_of other.now resent.old) (model_of other.now resent.new) }
{
    let mine = match first.scan(one) {
        Ok(mark) => mark,
        Err(why) => return Err(unread(Side::First, row, why)),
    };
    let theirs = match resent.scan(other) {
        Ok(mark) => mark,
        Err(why) => return Err(unread(Side::Resent, row, why)),
    };
    match (mine, theirs) {
        (None, None) => Ok(Some(compare_tails(first.tail(one), resent.tail(other), row))),
        (None, Some(_)) => Ok(Some(Matched::Differs {
            row,
            how: Difference::MissingInFirst,
        })),
        (Some(_), None) => Ok(Some(Matched::Differs {
            row,
            how: Difference::MissingInResent,
        })),
        (Some(a), Some(b)) => Ok(compare_rows(first, a, resent, b, row)),
    }
}

// Goes over the rows of both, until they differ or end, or the read of a row is refused.
fn walk<F: Family, R: RowRule>(
    first: &mut Import<F, R>,
    one: &[u8],
    resent: &mut Import<F, R>,
    other: &[u8],
) -> Result<Matched, Unmatched>
    requires first { Ready one.now (model_of one.now first.old) }
    requires resent { Ready other.now (model_of other.now resent.old) }
    ensures told { Walked 1 (model_of one.now first.old) (model_of other.now resent.old) result }
    ensures first_left { Left (model_of one.now first.old) (model_of one.now first.new) }
    ensures resent_left { Left (model_of other.now resent.old) (model_of other.now resent.new) }
{
    let mut row: u32 = 1;
    loop {
        match compare_next(first, one, resent, other, row) {
            Err(why) => return Err(why),
            Ok(Some(answer)) => return Ok(answer),
            Ok(None) => row += 1,
        }
    }
}

// Both imports take their files under one layout, and are gone over.
pub(crate) fn match_both<F: Family, R: RowRule>(
    layout: &[u8],
    first: &mut Import<F, R>,
    rule: R,
    one: &[u8],
    resent: &mut Import<F, R>,
    again: R,
    other: &[u8],
) -> Result<Matched, Unmatched>
where
    R: Drop,
    requires first { open_at first.old.stage ≡ 0 }
    requires resent { open_at resent.old.stage ≡ 0 }
    ensures told { Told layout.now (export (R.means rule) (F.means first.old.family) one.now) (export (R.means again) (F.means resent.old.family) other.now) result }
    ensures first_left { Left (model_of one.now first.old) (model_of one.now first.new) }
    ensures resent_left { Left (model_of other.now resent.old) (model_of other.now resent.new) }
{
    match first.new(1, layout, rule, one) {
        Ok(()) => {}
        Err(why) => {
            return Err(Unmatched::NotTaken {
                side: Side::First,
                why,
            });
        }
    }
    match resent.new(2, layout, again, other) {
        Ok(()) => {}
        Err(why) => {
            return Err(Unmatched::NotTaken {
                side: Side::Resent,
                why,
            });
        }
    }
    walk(first, one, resent, other)
}
