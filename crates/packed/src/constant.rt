// A constant of a layout: eight bytes in two's complement.
ghost use Rattle.std.specs.Prelude.{◌≡◌};
ghost use Rattle.packed.specs.Constants.{constant_of};

use crate::eight::number;
use crate::loader::Packed;

impl Packed for i64 {
    ghost decode = { constant_of };

    fn unpack(eight: &[u8; 8]) -> i64
        ensures { result ≡ constant_of eight.now }
    {
        number(eight).cast_signed()
    }
}
