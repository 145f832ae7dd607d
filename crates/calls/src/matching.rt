// A resent export is matched against the first.
ghost use Rattle.std.specs.Prelude.{◌≡◌};
ghost use Rattle.import.specs.Matching.{export};
ghost use Rattle.calls.specs.Lefts.{Stays};
ghost use Rattle.calls.specs.Named.{MatchesNamed};
ghost use Rattle.calls.specs.Matches.{how_number, side_number, answer_of, place_of, why_of, match_left, Matches};

use crate::status::Status;
use crate::words::{Named, named_by};
use fields::family::Family;
use import::answer::{Difference, Matched, Side, Unmatched};
use import::import::matching::Matcher;
use import::refusal::Refusal;
use rows::rule::RowRule;
use std::alloc::Global;

// What a match answers, in the numbers of the C library: how the exports differ, 0 where they are the same, and the row.
#[repr(C)]
#[derive(Clone, Copy, PartialEq, Eq, Debug)]
pub struct Answer {
    pub how: u32,
    pub row: u32,
}

// Where a match is refused: the side, 1 for the first export and 2 for the resent one, and the row, 0 where the export is not taken.
#[repr(C)]
#[derive(Clone, Copy, PartialEq, Eq, Debug)]
pub struct RefusedAt {
    pub side: u32,
    pub row: u32,
}

fn how_number(how: Difference) -> u32
    ensures { result ≡ how_number how }
{
    match how {
        Difference::Report => 1,
        Difference::Mark => 2,
        Difference::MissingInFirst => 3,
        Difference::MissingInResent => 4,
        Difference::Tail => 5,
    }
}

fn side_number(side: Side) -> u32
    ensures { result ≡ side_number side }
{
    match side {
        Side::First => 1,
        Side::Resent => 2,
    }
}

fn answer_of(matched: Matched) -> Answer
    ensures { result ≡ answer_of matched }
{
    match matched {
        Matched::Same => Answer { how: 0, row: 0 },
        Matched::Differs { row, how } => Answer {
            how: how_number(how),
            row,
        },
    }
}

fn place_of(why: Unmatched) -> RefusedAt
    ensures { result ≡ place_of why }
{
    match why {
        Unmatched::NotTaken { side, why: _ } => RefusedAt {
            side: side_number(side),
            row: 0,
        },
        Unmatched::Unread { side, row, why: _ } => RefusedAt {
            side: side_number(side),
            row,
        },
    }
}

fn why_of(why: Unmatched) -> Refusal
    ensures { result ≡ why_of why }
{
    match why {
        Unmatched::NotTaken { side: _, why } => why,
        Unmatched::Unread {
            side: _,
            row: _,
            why,
        } => why,
    }
}

// Tells what a match came to: the answer, or else where it is refused.
fn tell(matched: Result<Matched, Unmatched>, answer: &mut Answer, refused: &mut RefusedAt) -> Status
    ensures { (result, answer.new, refused.new) ≡ match_left matched answer.old refused.old }
{
    match matched {
        Ok(matched) => {
            *answer = answer_of(matched);
            Status::Done
        }
        Err(why) => {
            *refused = place_of(why);
            Status::Refused(why_of(why))
        }
    }
}

// Matches a resent export against the first, both under one layout. Only a match that is done changes the answer; only one that is refused for a side's export tells where.
#[tactic(auto, using(crate::proofs::MatchLaws::matches))]
pub fn match_into<F: Family, R: RowRule>(
    heap: Global,
    layout: &[u8],
    first: Named<F, R>,
    one: &[u8],
    resent: Named<F, R>,
    other: &[u8],
    answer: &mut Answer,
    refused: &mut RefusedAt,
) -> Status
where
    F: Drop,
    R: Drop,
    ensures { Matches layout.now (export (R.means first.rule) (F.means first.family) one.now) (export (R.means resent.rule) (F.means resent.family) other.now) (result, answer.new, refused.new) answer.old refused.old }
{
    let Ok(mut matcher) = Matcher::new(heap, first.family, first.spare, resent.family, resent.spare)
    else {
        return Status::NoMemory;
    };
    let matched = matcher.match_resent(layout, first.rule, one, resent.rule, other);
    tell(matched, answer, refused)
}

// The same under the rule and the family that some words stand for.
#[tactic(auto, using(crate::proofs::MatchLaws::answer_stays))]
pub fn match_words(
    heap: Global,
    rule: &[u8],
    family: &[u8],
    layout: &[u8],
    one: &[u8],
    other: &[u8],
    answer: &mut Answer,
    refused: &mut RefusedAt,
) -> Status
    ensures named { MatchesNamed layout.now one.now other.now (result, answer.new, refused.new) answer.old refused.old }
    ensures answer_stays { Stays answer.old answer.new result }
{
    let first = match named_by(rule, family) {
        Ok(named) => named,
        Err(fault) => return Status::from(fault),
    };
    match named_by(rule, family) {
        Ok(resent) => match_into(heap, layout, first, one, resent, other, answer, refused),
        Err(fault) => Status::from(fault),
    }
}
