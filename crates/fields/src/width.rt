// Numbers of one to four bytes, most significant first.
ghost use Rattle.std.specs.Prelude.{◌≡◌, ◌^◌, ◌<◌, ◌≤◌};
ghost use Rattle.fields.specs.Buffers.{written};
ghost use Rattle.fields.specs.Octets.{octets, twos, of_twos};

use crate::family::TooShort;
use crate::spelling::put_places;

// How many bytes a number takes.
#[derive(Clone, Copy)]
pub struct Width {
    pub(crate) bytes: u8,
    ghost range: { (1 ≤ bytes) × (bytes ≤ 4) },
}

impl Width {
    // How many numbers so many bytes can hold. (Looked up: a power is a loop.)
    fn full(self) -> u64
        ensures { result ≡ 256 ^ self.bytes }
    {
        match self.bytes {
            1 => 256,
            2 => 65_536,
            3 => 16_777_216,
            _ => 4_294_967_296,
        }
    }

    // A number read as two's complement. (Put where it is called, as reading a field is.)
    #[inline(always)]
    pub(crate) fn signed(self, n: u64) -> i64
        requires { n < 256 ^ self.bytes }
        ensures { result ≡ twos (256 ^ self.bytes) n }
    {
        if 2 * n < self.full() {
            n as i64
        } else {
            n as i64 - self.full() as i64
        }
    }

    // A number written as two's complement.
    pub(crate) fn bits(self, number: i64) -> u64
        ensures { result ≡ of_twos (256 ^ self.bytes) number }
    {
        if number >= 0 {
            return number as u64;
        }
        self.full().saturating_sub(number.unsigned_abs())
    }

    // Writes the last so many bytes of a number.
    pub(crate) fn spell(self, n: u64, out: &mut [u8]) -> Result<usize, TooShort>
        ensures { (result, out.new) ≡ written (octets self.bytes n) out.old }
    {
        let width = usize::from(self.bytes);
        if out.len() < width {
            return Err(TooShort);
        }
        put_places::<256, 0>(n, width, 0, out);
        Ok(width)
    }
}
