// Whole numbers: a run of digits.
ghost use Rattle.std.specs.Prelude.{◌≡◌, length};
ghost use Rattle.fields.specs.Buffers.{written};
ghost use Rattle.fields.specs.Cursors.{unread, Moved};
ghost use Rattle.fields.specs.Digits.{run as run_of};
ghost use Rattle.fields.specs.Wholes.{leads, whole, whole_spells};

use crate::cause::{Cause, Reading};
use crate::cursor::{Cursor, Guard};
use crate::digits::{leading, number};
use crate::family::TooShort;
use crate::spelling::{decimal_len, put_decimal};

// Whether a zero leads a run of more than one digit; `digits` is how long the run is, which is known where this is asked.
pub(crate) fn is_led(digits: usize, bytes: &[u8]) -> bool
    requires { digits ≡ run_of bytes.now }
    ensures { result ≡ leads bytes.now }
{
    digits > 1 && bytes.first() == Some(&b'0')
}

// Reads the digits, and puts the place back where they are no whole number.
#[inline(always)]
pub(crate) fn read_whole(cursor: &mut Cursor) -> Reading
    ensures answer { result ≡ whole.reads (unread cursor.old) }
    ensures place { Moved result cursor.old cursor.new }
{
    let rest = cursor.rest();
    let back = Some(cursor.place);
    let mut guard = Guard { cursor, back };
    if rest.is_empty() {
        return Err(Cause::Short);
    }
    let (len, n) = leading(rest);
    guard.cursor.place += len;
    if len == 0 {
        return Err(Cause::Form);
    }
    if len > 12 {
        return Err(Cause::Range);
    }
    if is_led(len, rest) {
        return Err(Cause::SecondSpelling);
    }
    guard.back = None;
    Ok((len, number(n)))
}

// How many digits a whole number is spelled with.
pub(crate) fn whole_len(number: i64) -> usize
    ensures { result ≡ length (whole_spells number) }
{
    decimal_len(number.unsigned_abs())
}

// Writes the digits of a whole number.
#[inline(always)]
pub(crate) fn spell_whole(number: i64, out: &mut [u8]) -> Result<usize, TooShort>
    ensures { (result, out.new) ≡ written (whole_spells number) out.old }
{
    let len = whole_len(number);
    if out.len() < len {
        return Err(TooShort);
    }
    put_decimal(number.unsigned_abs(), 0, len, out);
    Ok(len)
}
