// Numbers in the words of a command.
ghost use Rattle.std.specs.Prelude.{◌≡◌, ◌+◌, ◌-◌, ◌*◌, true, false, MatchOption};
ghost use Rattle.rows.specs.Frames.{measured};
ghost use Rattle.cli.specs.Numbers.{is_digit, number_in};

// A number with one digit more behind it, as far as 64 bits go, if the byte is a digit.
fn one_more(value: usize, byte: u8) -> Option<usize>
    ensures { MatchOption result (is_digit byte ≡ false) (λ v. (is_digit byte ≡ true) × (v ≡ measured (value * 10 + (byte - 48)))) }
{
    let digit = char::from(byte).to_digit(10)?;
    Some(value.saturating_mul(10).saturating_add(digit as usize))
}

// The number that some digits stand for, if there are any and nothing else; one too large for 64 bits is told as the greatest. (`parse` also takes a plus, and refuses what is too large.)
pub fn number_of(digits: &str) -> Option<usize>
    ensures { result ≡ number_in digits.now }
{
    if digits.is_empty() {
        return None;
    }
    digits.bytes().try_fold(0, one_more)
}
