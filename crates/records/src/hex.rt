// Bytes as hexadecimal digits.
ghost use Rattle.std.specs.Prelude.{Some};
ghost use Rattle.std.specs.List.{flat_map};
ghost use Rattle.records.specs.Hex.{hex, kept_words};

use std::fmt;

// A byte as two digits.
#[derive(Clone, Copy)]
struct HexByte(u8);

impl fmt::Display for HexByte {
    ghost output = { λ byte. Some (hex byte.0) };

    #[tactic(auto, using(std::proofs::lemmas::Fmt::hex_byte))]
    fn fmt<W: fmt::Write>(&self, f: &mut fmt::Formatter<W>) -> fmt::Result {
        let byte = self.0;
        write!(f, "{byte:02x}")
    }
}

// Each byte as two digits, with nothing between.
#[derive(Clone, Copy)]
struct HexText<'t>(&'t [u8]);

impl fmt::Display for HexText<'_> {
    ghost output = { λ text. Some (flat_map hex text.0.now) };

    fn fmt<W: fmt::Write>(&self, f: &mut fmt::Formatter<W>) -> fmt::Result {
        for byte in self.0 {
            let digits = HexByte(*byte);
            write!(f, "{digits}")?;
        }
        Ok(())
    }
}

// What stands behind the word `kept-text`: a space and the bytes, or nothing where there are none.
#[derive(Clone, Copy)]
pub(crate) struct KeptWords<'t>(pub &'t [u8]);

impl fmt::Display for KeptWords<'_> {
    ghost output = { λ text. Some (kept_words text.0.now) };

    fn fmt<W: fmt::Write>(&self, f: &mut fmt::Formatter<W>) -> fmt::Result {
        if self.0.is_empty() {
            return Ok(());
        }
        let text = HexText(self.0);
        write!(f, " {text}")
    }
}
