// The words of a call, as bytes, and what they stand for.
use cli::families::{AnyFamily, family_of};
use cli::rules::{AnyRule, rule_of};
use either::Left;
use rows::newline::Newline;
use std::str;

// Why they stand for nothing.
#[derive(Clone, Copy, PartialEq, Eq, Debug)]
pub enum NoWords {
    // they are no rule, or a number in them is out of range
    NoRule,
    NoFamily,
}

// The rule that some bytes name.
fn rule_in(words: &[u8]) -> Option<AnyRule> {
    rule_of(str::from_utf8(words).ok()?).ok()
}

// The family that some bytes name.
pub(crate) fn family_in(words: &[u8]) -> Option<AnyFamily> {
    let words = family_of(str::from_utf8(words).ok()?)?;
    Some(AnyFamily::from(words))
}

// What the words of a call stand for: the rule and the family of an export. `spare` is a rule that an import has until it takes the export; nothing is cut by it.
#[derive(Drop)]
pub struct Named<F, R> {
    pub spare: R,
    pub rule: R,
    pub family: F,
}

// What these words stand for; the rule's are tried first.
pub(crate) fn named_by(rule: &[u8], family: &[u8]) -> Result<Named<AnyFamily, AnyRule>, NoWords> {
    let rule = rule_in(rule).ok_or(NoWords::NoRule)?;
    let family = family_in(family).ok_or(NoWords::NoFamily)?;
    Ok(Named {
        spare: Left(Left(Newline::new())),
        rule,
        family,
    })
}
