// Eight bytes as one number, the most significant first, and back.
ghost use Rattle.std.specs.Prelude.{◌≡◌};
ghost use Rattle.packed.specs.Octets.{big, octets};

// The number that eight bytes make.
#[tactic(auto, using(crate::proofs::EightBytes::big_eight))]
pub(crate) fn number(eight: &[u8; 8]) -> u64
    ensures { result ≡ big eight.now }
{
    u64::from_be_bytes(*eight)
}

// The eight bytes of a number.
pub(crate) fn bytes_of(n: u64) -> [u8; 8]
    ensures { result ≡ octets n }
{
    n.to_be_bytes()
}
