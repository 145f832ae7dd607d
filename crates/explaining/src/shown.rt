// Bytes as a person reads them.
ghost use Rattle.std.specs.Prelude.{◌≡◌, Some};
ghost use Rattle.std.specs.List.{flat_map};
ghost use Rattle.explaining.specs.Shown.{is_plain, shown_byte, more_words, shown};

use cli::texts::Plural;
use import::import::places::part;
use outlines::words::Hex;
use std::fmt;

// How many bytes are shown.
const MOST_SHOWN: usize = 64;

// Whether a byte is shown as it is: from the space to the tilde, the backslash apart.
fn is_plain(byte: u8) -> bool
    ensures { result ≡ is_plain byte }
{
    32 <= byte && byte <= 126 && byte != b'\\'
}

// A byte as it is, or by its digits.
#[derive(Clone, Copy)]
pub(crate) struct ShownByte(pub u8);

impl fmt::Display for ShownByte {
    ghost output = { λ byte. Some (shown_byte byte.0) };

    #[tactic(auto, using(std::proofs::lemmas::Str::encode_ascii))]
    fn fmt<W: fmt::Write>(&self, f: &mut fmt::Formatter<W>) -> fmt::Result {
        if is_plain(self.0) {
            return f.write_char(char::from(self.0));
        }
        let digits = Hex(self.0);
        write!(f, "\\x{digits}")
    }
}

// Each of some bytes.
#[derive(Clone, Copy)]
struct ShownBytes<'t>(&'t [u8]);

impl fmt::Display for ShownBytes<'_> {
    ghost output = { λ bytes. Some (flat_map shown_byte bytes.0.now) };

    fn fmt<W: fmt::Write>(&self, f: &mut fmt::Formatter<W>) -> fmt::Result {
        for byte in self.0 {
            let one = ShownByte(*byte);
            write!(f, "{one}")?;
        }
        Ok(())
    }
}

// How many bytes are not shown.
#[derive(Clone, Copy)]
struct More(usize);

impl fmt::Display for More {
    ghost output = { λ more. Some (more_words more.0) };

    fn fmt<W: fmt::Write>(&self, f: &mut fmt::Formatter<W>) -> fmt::Result {
        if self.0 == 0 {
            return Ok(());
        }
        let bytes = Plural {
            count: self.0,
            noun: "byte",
        };
        write!(f, " and {bytes} more")
    }
}

// The first bytes between quotes, and how many more follow.
#[derive(Clone, Copy)]
pub(crate) struct Shown<'t>(pub &'t [u8]);

impl fmt::Display for Shown<'_> {
    ghost output = { λ bytes. Some (shown bytes.0.now) };

    fn fmt<W: fmt::Write>(&self, f: &mut fmt::Formatter<W>) -> fmt::Result {
        let first = ShownBytes(part(self.0, 0, MOST_SHOWN));
        let more = More(self.0.len().saturating_sub(MOST_SHOWN));
        write!(f, "'{first}'{more}")
    }
}
