// Amounts: an optional minus, a run of digits and, for decimals, a point and a run of exactly so many digits.
ghost use Rattle.std.specs.Prelude.{◌≡◌, length, unsigned_abs, ◌/◌, ◌%◌, ◌+◌, ◌*◌, ◌^◌, ◌<◌, ◌≤◌, true, false, take, drop, decimal, MatchOption};
ghost use Rattle.fields.specs.Cursors.{unread, Moved};
ghost use Rattle.fields.specs.Digits.{value as value_of};
ghost use Rattle.fields.specs.Amounts.{minus, body, pointed, point_len, signed, minus_of, point_of, amount, amount_spells};
ghost use Rattle.fields.specs.Buffers.{over, written};

use crate::cause::{Cause, Reading};
use crate::cursor::{Cursor, Guard};
use crate::digits::leading;
use crate::family::TooShort;
use crate::spelling::{decimal_len, put_byte, put_decimal, put_places};
use crate::whole::is_led;

// How many digits stand behind the point of an amount.
#[derive(Clone, Copy)]
pub struct Decimals {
    pub(crate) count: u8,
    ghost few: { count ≤ 4 },
}

// A number with its sign; a sign has two cases and is kept nowhere, so that an enum would be no plainer.
fn with_sign(minus: bool, n: u64) -> i64
    requires { n < 10 ^ 12 }
    ensures { result ≡ signed minus n }
{
    if minus { -(n as i64) } else { n as i64 }
}

// Whether a minus stands first, and what follows the sign.
#[inline(always)]
fn sign_split(bytes: &[u8]) -> (bool, &[u8])
    ensures minus { result.0 ≡ minus bytes.now }
    ensures rest { result.1.now ≡ body bytes.now }
{
    match bytes {
        [b'-', rest @ ..] => (true, rest),
        _ => (false, bytes),
    }
}

// How many bytes the sign of a number takes.
fn sign_len(number: i64) -> usize
    ensures is { result ≡ length (minus_of number) }
    ensures few { result ≤ 1 }
{
    usize::from(number < 0)
}

// Writes the sign of a number at the beginning of a buffer.
fn put_sign(number: i64, out: &mut [u8])
    requires { length (minus_of number) ≤ length out.old }
    ensures { out.new ≡ over 0 (minus_of number) out.old }
{
    if number < 0 {
        put_byte(b'-', 0, out);
    }
}

impl Decimals {
    // How many units of the last decimal one is.
    fn scale(self) -> u64
        ensures is { result ≡ 10 ^ self.count }
        ensures some { 0 < result }
    {
        match self.count {
            0 => 1,
            1 => 10,
            2 => 100,
            3 => 1_000,
            _ => 10_000,
        }
    }

    // The number of the digits behind the point, if they stand there; nothing stands there for no decimals.
    #[inline(always)]
    fn fraction(self, bytes: &[u8]) -> Option<u64>
        ensures { MatchOption result (pointed self.count bytes.now ≡ false) (λ n. (pointed self.count bytes.now ≡ true) × (n ≡ value_of (take self.count (drop 1 bytes.now)))) }
    {
        if self.count == 0 {
            return Some(0);
        }
        let [b'.', digits @ ..] = bytes else {
            return None;
        };
        let (len, n) = leading(digits);
        if len != usize::from(self.count) {
            return None;
        }
        Some(n)
    }

    // A number in units of the last decimal, apart: what stands in front of the point, and behind it.
    #[inline(always)]
    fn apart(self, n: u64) -> (u64, u64)
        ensures { (result.0 ≡ n / 10 ^ self.count) × (result.1 ≡ n % 10 ^ self.count) }
    {
        let scale = self.scale();
        (n / scale, n % scale)
    }

    // A number in front of the point and one behind it, in units of the last decimal.
    fn in_units(self, front: u64, fraction: u64) -> u64
        requires { front * 10 ^ self.count + fraction < 10 ^ 12 }
        ensures { result ≡ front * 10 ^ self.count + fraction }
    {
        front * self.scale() + fraction
    }

    // Moves over the field once it has its form, and puts the place back where it is no amount all the same.
    #[inline(always)]
    pub(crate) fn read(self, cursor: &mut Cursor) -> Reading
        ensures answer { result ≡ (amount self.count).reads (unread cursor.old) }
        ensures place { Moved result cursor.old cursor.new }
    {
        let rest = cursor.rest();
        let back = Some(cursor.place);
        let mut guard = Guard { cursor, back };
        if rest.is_empty() {
            return Err(Cause::Short);
        }
        let (minus, body) = sign_split(rest);
        let (whole, front) = leading(body);
        if whole == 0 {
            return Err(Cause::Form);
        }
        let Some(fraction) = self.fraction(&body[whole..]) else {
            return Err(Cause::Form);
        };
        let len = usize::from(minus) + whole + self.point_len();
        guard.cursor.place += len;
        if whole > 12 - usize::from(self.count) {
            return Err(Cause::Range);
        }
        let n = self.in_units(front, fraction);
        if is_led(whole, body) {
            return Err(Cause::SecondSpelling);
        }
        if minus && n == 0 {
            return Err(Cause::SecondSpelling);
        }
        guard.back = None;
        Ok((len, with_sign(minus, n)))
    }

    // How many bytes the point and the digits behind it take.
    fn point_len(self) -> usize
        ensures is { result ≡ point_len self.count }
        ensures few { result ≤ 5 }
    {
        match self.count {
            0 => 0,
            count => 1 + usize::from(count),
        }
    }

    // How many bytes an amount is spelled with, by how many digits stand in front of the point.
    #[inline(always)]
    fn len_with(self, number: i64, digits: usize) -> usize
        requires is { digits ≡ length (decimal (unsigned_abs number / 10 ^ self.count)) }
        requires few { digits ≤ 20 }
        ensures { result ≡ length (amount_spells self.count number) }
    {
        sign_len(number) + digits + self.point_len()
    }

    // How many digits stand in front of the point. (One digit is told without a division.)
    #[inline]
    fn front_len(self, n: u64) -> usize
        ensures is { result ≡ length (decimal (n / 10 ^ self.count)) }
        ensures few { result ≤ 20 }
    {
        let scale = self.scale();
        if n < 10 * scale {
            1
        } else {
            decimal_len(n / scale)
        }
    }

    // How many bytes an amount is spelled with.
    pub(crate) fn spelled_len(self, number: i64) -> usize
        ensures { result ≡ length (amount_spells self.count number) }
    {
        self.len_with(number, self.front_len(number.unsigned_abs()))
    }

    // Writes the point and the digits behind it at a place.
    fn put_point(self, fraction: u64, at: usize, out: &mut [u8])
        requires small { fraction < 10 ^ self.count }
        requires room { at + point_len self.count ≤ length out.old }
        ensures { out.new ≡ over at (point_of self.count fraction) out.old }
    {
        if self.count > 0 {
            put_byte(b'.', at, out);
            put_places::<10, b'0'>(fraction, usize::from(self.count), at + 1, out);
        }
    }

    // Writes the sign, the digits before the point, and the point with the digits behind it.
    #[inline(always)]
    pub(crate) fn spell(self, number: i64, out: &mut [u8]) -> Result<usize, TooShort>
        ensures { (result, out.new) ≡ written (amount_spells self.count number) out.old }
    {
        let (front, fraction) = self.apart(number.unsigned_abs());
        let len = self.len_with(number, decimal_len(front));
        if out.len() < len {
            return Err(TooShort);
        }
        let point = len - self.point_len();
        put_sign(number, out);
        put_decimal(front, sign_len(number), point, out);
        self.put_point(fraction, point, out);
        Ok(len)
    }
}
