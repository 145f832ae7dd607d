// Writing a number's spelling into a buffer, part by part, each at its place.
ghost use Rattle.std.specs.Prelude.{◌≡◌, ◌+◌, ◌<◌, ◌≤◌, [], ◌∷◌, length, decimal};
ghost use Rattle.fields.specs.Buffers.{over};
ghost use Rattle.fields.specs.Places.{places_from};

use crate::digits::fill;
use itoa::write_digits;

// How many decimal digits a number has. (Told by comparing alone: a loop over the powers of ten takes twice as long. Short numbers come first, apart from the others, or all comparisons are made for each.)
#[inline]
pub(crate) fn decimal_len(n: u64) -> usize
    ensures is { result ≡ length (decimal n) }
    ensures few { result ≤ 20 }
{
    match n {
        0..=9 => 1,
        10..=99 => 2,
        100..=999 => 3,
        1_000..=9_999 => 4,
        _ => long_decimal_len(n),
    }
}

// The same of a number of five digits or more.
#[inline(never)]
fn long_decimal_len(n: u64) -> usize
    requires { 10000 ≤ n }
    ensures is { result ≡ length (decimal n) }
    ensures few { result ≤ 20 }
{
    match n {
        0..=99_999 => 5,
        100_000..=999_999 => 6,
        1_000_000..=9_999_999 => 7,
        10_000_000..=99_999_999 => 8,
        100_000_000..=999_999_999 => 9,
        1_000_000_000..=9_999_999_999 => 10,
        10_000_000_000..=99_999_999_999 => 11,
        100_000_000_000..=999_999_999_999 => 12,
        1_000_000_000_000..=9_999_999_999_999 => 13,
        10_000_000_000_000..=99_999_999_999_999 => 14,
        100_000_000_000_000..=999_999_999_999_999 => 15,
        1_000_000_000_000_000..=9_999_999_999_999_999 => 16,
        10_000_000_000_000_000..=99_999_999_999_999_999 => 17,
        100_000_000_000_000_000..=999_999_999_999_999_999 => 18,
        1_000_000_000_000_000_000..=9_999_999_999_999_999_999 => 19,
        _ => 20,
    }
}

// Writes one byte at a place.
#[inline]
pub(crate) fn put_byte(b: u8, at: usize, out: &mut [u8])
    requires { at < length out.old }
    ensures { out.new ≡ over at (b ∷ []) out.old }
{
    out[at] = b;
}

// Writes the last places of a number in a base at a place; `FIRST` is the byte of place 0.
#[inline]
pub(crate) fn put_places<const BASE: u64, const FIRST: u8>(
    n: u64,
    width: usize,
    at: usize,
    out: &mut [u8],
)
    requires base { (0 < BASE) × (FIRST + BASE ≤ 256) }
    requires room { at + width ≤ length out.old }
    ensures { out.new ≡ over at (places_from BASE FIRST width n) out.old }
{
    fill::<BASE, FIRST>(n, &mut out[at..at + width]);
}

// Writes the digits of a number at a place; `end` is the place behind them. (One digit is written straight: the library's writer of many would take longer than all the rest.)
#[inline]
pub(crate) fn put_decimal(n: u64, at: usize, end: usize, out: &mut [u8])
    requires { (at + length (decimal n) ≡ end) × (end ≤ length out.old) }
    ensures { out.new ≡ over at (decimal n) out.old }
{
    if n < 10 {
        put_byte(b'0' + n as u8, at, out);
    } else {
        write_digits(n, out, end);
    }
}
