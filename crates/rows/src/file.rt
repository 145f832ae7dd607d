// Setting a rule on a file, and what then holds of its rows whatever the rule.
ghost use Rattle.std.specs.Prelude.{◌≡◌, ◌<◌, length, MatchResult};
ghost use Rattle.rows.specs.Examples.{WorkedCuts};
ghost use Rattle.rows.specs.Files.{taken, CutWell};

use crate::refusal::Refusal;
use crate::rule::RowRule;

// The greatest length of a file.
pub const LONGEST: usize = 16_777_216;

// Sets a rule on a file that is not too long: all its rows are to come. A refusal leaves the rule as it was.
pub fn set_on<R: RowRule>(rule: &mut R, file: &[u8]) -> Result<(), Refusal>
    ensures value { result ≡ taken file.now }
    ensures after { MatchResult result (λ _. R.ahead rule.new file.now ≡ (R.means rule.old).cut file.now) (λ _. rule.new ≡ rule.old) }
    ensures kept { R.means rule.new ≡ R.means rule.old }
    ensures laws { MatchResult result (λ _. CutWell (R.means rule.old) file.now) (λ _. 16777216 < length file.now) }
{
    if file.len() > LONGEST {
        return Err(Refusal::FileTooLong);
    }
    rule.set(file);
    Ok(())
}

// The worked cuts hold.
pub fn worked_cuts()
    ensures { WorkedCuts }
{}
