// Dates of ten bytes, YYYY-MM-DD.
ghost use Rattle.std.specs.Prelude.{◌≡◌, ◌≤◌, length};
ghost use Rattle.fields.specs.Buffers.{written};
ghost use Rattle.fields.specs.Calendar.{leap, days, is_date};
ghost use Rattle.fields.specs.Cursors.{unread, Moved};
ghost use Rattle.fields.specs.Dates.{formed, date, date_spells};

use crate::cause::{Cause, Reading};
use crate::cursor::{Cursor, Guard};
use crate::digits::{digits_value, number, starts_with_digits};
use crate::family::TooShort;
use crate::spelling::{put_byte, put_places};

fn is_leap(year: u64) -> bool
    ensures { result ≡ leap year }
{
    year % 4 == 0
}

// How many days a month has, and none where there is no such month.
fn days_in(year: u64, month: u64) -> u64
    ensures { result ≡ days year month }
{
    match month {
        2 if is_leap(year) => 29,
        2 => 28,
        4 | 6 | 9 | 11 => 30,
        1..=12 => 31,
        _ => 0,
    }
}

#[inline(always)]
fn is_date(year: u64, month: u64, day: u64) -> bool
    ensures { result ≡ is_date year month day }
{
    year >= 1900 && year <= 2199 && day >= 1 && day <= days_in(year, month)
}

// Whether the first ten bytes have a date's form.
#[inline(always)]
fn is_formed(bytes: &[u8]) -> bool
    requires { 10 ≤ length bytes.now }
    ensures { result ≡ formed bytes.now }
{
    starts_with_digits(bytes, 4)
        && bytes[4] == b'-'
        && starts_with_digits(&bytes[5..], 2)
        && bytes[7] == b'-'
        && starts_with_digits(&bytes[8..], 2)
}

// Moves over ten bytes, and puts the place back where they are no date.
#[inline(always)]
pub(crate) fn read_date(cursor: &mut Cursor) -> Reading
    ensures answer { result ≡ date.reads (unread cursor.old) }
    ensures place { Moved result cursor.old cursor.new }
{
    let rest = cursor.rest();
    let back = Some(cursor.place);
    let mut guard = Guard { cursor, back };
    if rest.len() < 10 {
        return Err(Cause::Short);
    }
    guard.cursor.place += 10;
    if !is_formed(rest) {
        return Err(Cause::Form);
    }
    let year = digits_value(&rest[..4]);
    let month = digits_value(&rest[5..7]);
    let day = digits_value(&rest[8..10]);
    if !is_date(year, month, day) {
        return Err(Cause::Range);
    }
    guard.back = None;
    Ok((10, number(10000 * year + 100 * month + day)))
}

// Writes the ten bytes of a date.
pub(crate) fn spell_date(number: i64, out: &mut [u8]) -> Result<usize, TooShort>
    ensures { (result, out.new) ≡ written (date_spells number) out.old }
{
    if out.len() < 10 {
        return Err(TooShort);
    }
    let n = number.unsigned_abs();
    put_places::<10, b'0'>(n / 10000, 4, 0, out);
    put_byte(b'-', 4, out);
    put_places::<10, b'0'>(n / 100 % 100, 2, 5, out);
    put_byte(b'-', 7, out);
    put_places::<10, b'0'>(n % 100, 2, 8, out);
    Ok(10)
}
