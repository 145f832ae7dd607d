// Numbers written with places in a base: runs of decimal digits, the number that places write, and writing them.
ghost use Rattle.std.specs.Prelude.{◌≡◌, ◌+◌, ◌^◌, ◌<◌, ◌≤◌, length, take, pos, nat_le};
ghost use Rattle.fields.specs.Digits.{run as run_of, value as value_of, AreDigits};
ghost use Rattle.fields.specs.PlaceValues.{EachFrom};
ghost use Rattle.fields.specs.Places.{number_from, places_from};

// How long the run of decimal digits at the beginning is.
pub(crate) fn run(bytes: &[u8]) -> usize
    ensures { result ≡ run_of bytes.now }
{
    bytes.iter().take_while(|b| b.is_ascii_digit()).count()
}

// Whether so many digits stand at the beginning; no byte behind them is looked at.
#[inline(always)]
pub(crate) fn starts_with_digits(bytes: &[u8], count: usize) -> bool
    ensures { result ≡ nat_le count (run_of bytes.now) }
{
    if bytes.len() < count {
        return false;
    }
    run(&bytes[..count]) == count
}

// The run of decimal digits at the beginning: how long it is and, up to twelve digits, the number that they write.
// (One pass: the number of a longer run is of no use, and may go over its end.)
#[inline(always)]
pub(crate) fn leading(bytes: &[u8]) -> (usize, u64)
    ensures len { result.0 ≡ run_of bytes.now }
    ensures is { result.0 ≤ 12 → result.1 ≡ value_of (take result.0 bytes.now) }
{
    let mut len = 0;
    let mut n: u64 = 0;
    for byte in bytes {
        if !byte.is_ascii_digit() {
            break;
        }
        n = n.wrapping_mul(10).wrapping_add(u64::from(*byte - b'0'));
        len += 1;
    }
    (len, n)
}

// The number that bytes write with places in a base; `FIRST` is the byte of place 0. (Put where it is called, as reading a field is: there the base and mostly the count are known.)
#[inline(always)]
pub(crate) fn value<const BASE: u64, const FIRST: u8>(bytes: &[u8]) -> u64
    requires held { EachFrom BASE FIRST bytes.now }
    requires few { BASE ^ length bytes.now ≤ 2 ^ 48 }
    ensures is { result ≡ number_from BASE FIRST 0 bytes.now }
    ensures below { result < BASE ^ length bytes.now }
{
    let mut n = 0;
    // tried fold: that a sum stays small hangs on all bytes so far, which a closure does not know
    for byte in bytes {
        n = n * BASE + u64::from(*byte - FIRST);
    }
    n
}

// The number that up to twelve digits write.
pub(crate) fn digits_value(digits: &[u8]) -> u64
    requires digits { AreDigits digits.now }
    requires few { length digits.now ≤ 12 }
    ensures is { result ≡ value_of digits.now }
    ensures below { result < 10 ^ length digits.now }
    ensures small { result < 10 ^ 12 }
{
    value::<10, b'0'>(digits)
}

// A number as a field's number.
pub(crate) fn number(n: u64) -> i64
    requires { n < 10 ^ 12 }
    ensures { result ≡ pos n }
{
    n as i64
}

// Fills a buffer with the last places of a number in a base; `FIRST` is the byte of place 0.
pub(crate) fn fill<const BASE: u64, const FIRST: u8>(n: u64, out: &mut [u8])
    requires { (0 < BASE) × (FIRST + BASE ≤ 256) }
    ensures { out.new ≡ places_from BASE FIRST (length out.old) n }
{
    let mut left = n;
    // tried iter_mut().rev(): a proof knows nothing of what is written through an adapter
    for i in (0..out.len()).rev() {
        out[i] = FIRST + (left % BASE) as u8;
        left /= BASE;
    }
}
