// The cause that the number of a fault's line stands for.
ghost use Rattle.std.specs.Prelude.{◌≡◌, pos};
ghost use Rattle.fields.specs.Causes.{number_of};
ghost use Rattle.explaining.specs.Causes.{cause_of};

use fields::cause::Cause;

// 1 to 4; any other number, which no such line has, is taken for the nearest.
pub(crate) fn cause_of(number: i64) -> Cause
    ensures value { result ≡ cause_of number }
    ensures back { (cause : Cause) → cause_of (pos (number_of cause)) ≡ cause }
{
    if number <= 1 {
        Cause::Short
    } else if number <= 2 {
        Cause::Form
    } else if number <= 3 {
        Cause::Range
    } else {
        Cause::SecondSpelling
    }
}
