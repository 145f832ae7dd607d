// The words RULE of a command, and the rule that they stand for.
ghost use Rattle.std.specs.Prelude.{◌≡◌, MatchResult};
ghost use Rattle.rows.specs.Rules.{Meaning};
ghost use Rattle.rows.specs.Samples.{sampled};
ghost use Rattle.rows.specs.declared.refusal.Refusal.TheVariants.{OutOfRange};
ghost use Rattle.cli.specs.declared.rules.RuleFault.TheVariants.{Refused};
ghost use Rattle.cli.specs.Chosen.{plain_meaning, PlainRange, chosen_meaning, SampleRange, means_plain, means_any};

use crate::numbers::number_of;
use either::{Either, Left, Right};
use rows::newline::Newline;
use rows::refusal::Refusal;
use rows::sample::{LARGEST, Sample};
use rows::width::FixedWidth;

// A rule that is no sample.
pub type PlainRule = Either<Newline, FixedWidth>;

// Any rule: samples of samples are one sample of the least of their numbers.
pub type AnyRule = Either<PlainRule, Sample<PlainRule>>;

// Why the words stand for no rule.
#[derive(Clone, Copy, PartialEq, Eq, Debug)]
pub enum RuleFault {
    Unreadable,
    Refused(Refusal),
}

impl From<Refusal> for RuleFault {
    ghost from_gives = { λ refusal fault. fault ≡ Refused refusal };

    fn from(refusal: Refusal) -> RuleFault {
        RuleFault::Refused(refusal)
    }
}

// The rule for a width, or newline where there is none. (This and the next differ in every type and in what they make.)
pub fn plain_rule(width: Option<usize>) -> Result<PlainRule, Refusal>
    ensures { MatchResult result (λ p. means_plain p ≡ plain_meaning width) (λ e. (e ≡ OutOfRange) × (PlainRange width → ⊥)) }
{
    match width {
        Some(w) => Ok(Right(FixedWidth::new(w)?)),
        None => Ok(Left(Newline::new())),
    }
}

// The sample of so many rows over a rule, or the rule itself where there is no number.
pub fn any_rule(first: Option<usize>, plain: PlainRule) -> Result<AnyRule, Refusal>
    ensures { MatchResult result (λ a. means_any a ≡ chosen_meaning first (means_plain plain)) (λ e. (e ≡ OutOfRange) × (SampleRange first → ⊥)) }
{
    match first {
        Some(n) => Ok(Right(Sample::new(n, plain)?)),
        None => Ok(Left(plain)),
    }
}

// A sample of `n` rows under the samples before it is one sample of the least number.
#[tactic(auto, using(crate::proofs::Nested::least_sample))]
pub fn nested(first: Option<usize>, n: usize) -> usize
    ensures { (m : Meaning) → sampled result m ≡ chosen_meaning first (sampled n m) }
{
    match first {
        Some(m) => m.min(n),
        None => n,
    }
}

// What stands behind the samples: the digits of a width, or none for newline.
fn width_of(words: &str) -> Result<Option<usize>, RuleFault> {
    if words == "newline" {
        return Ok(None);
    }
    let digits = words.strip_prefix("fixed:").ok_or(RuleFault::Unreadable)?;
    let width = number_of(digits).ok_or(RuleFault::Unreadable)?;
    Ok(Some(width))
}

// The rule that the words `newline`, `fixed:W` or `sample:N:RULE` stand for. The rule below a sample is made first. (No `FromStr`: the type of a rule is the library's.)
pub fn rule_of(words: &str) -> Result<AnyRule, RuleFault> {
    let mut rest = words;
    let mut first = None;
    let mut most = 0;
    while let Some(sample) = rest.strip_prefix("sample:") {
        let (digits, below) = sample.split_once(':').ok_or(RuleFault::Unreadable)?;
        let n = number_of(digits).ok_or(RuleFault::Unreadable)?;
        most = most.max(n);
        first = Some(nested(first, n));
        rest = below;
    }
    let plain = plain_rule(width_of(rest)?)?;
    if most > LARGEST {
        return Err(RuleFault::Refused(Refusal::OutOfRange));
    }
    Ok(any_rule(first, plain)?)
}
