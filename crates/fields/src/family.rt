// A family gives a meaning to kinds 0 to 63 with a parameter of 0 to 255.
ghost use Rattle.std.specs.Prelude.{◌≡◌, ℕ, ◌-◌, ◌≤◌, length};
ghost use Rattle.fields.specs.Cursors.{unread, Moved};
ghost use Rattle.fields.specs.Meanings.{Meaning};
ghost use Rattle.fields.specs.Laws.{Lawful};
ghost use Rattle.fields.specs.Buffers.{written};

use crate::cause::{Reading, Sort};
use crate::cursor::Cursor;

// A kind with its parameter. Both stay numbers, as a layout has them: which there are, and what they mean, is the family's.
#[derive(Clone, Copy, PartialEq, Eq, Debug)]
pub struct Kind {
    pub code: u8,
    pub parameter: u8,
}

impl Kind {
    // The kind so many numbers lower.
    pub(crate) fn less(self, by: u8) -> Kind
        requires { by ≤ self.code }
        ensures { (result.code ≡ self.code - by) × (result.parameter ≡ self.parameter) }
    {
        Kind {
            code: self.code - by,
            parameter: self.parameter,
        }
    }
}

// A buffer has no room for what is to be written into it.
#[derive(Clone, Copy, PartialEq, Eq, Debug)]
pub struct TooShort;

// Each family of this crate states the clauses of its calls once more in its own definitions, so that another lawful meaning does not pass for it.
pub trait Family {
    ghost means: { Self → ℕ → ℕ → Meaning };

    fn sort(&self, kind: Kind) -> Sort
        ensures { result ≡ (means self.now kind.code kind.parameter).sort };

    // Reads a field at the cursor: its length and number, and the place is behind it; or the cause, and the place stays.
    fn read(&self, kind: Kind, cursor: &mut Cursor) -> Reading
        ensures answer { result ≡ (means self.now kind.code kind.parameter).reads (unread cursor.old) }
        ensures place { Moved result cursor.old cursor.new };

    // How many bytes a number is spelled with. (A kind and a number stay two arguments: a kind is also sorted and read, without a number.)
    fn spelled_length(&self, kind: Kind, number: i64) -> usize
        ensures { result ≡ length ((means self.now kind.code kind.parameter).spells number) };

    // Spells a number at the beginning of a buffer, and says how many bytes that took; a buffer without room is left as it is.
    fn spell(&self, kind: Kind, number: i64, out: &mut [u8]) -> Result<usize, TooShort>
        ensures { (result, out.new) ≡ written ((means self.now kind.code kind.parameter).spells number) out.old };

    ghost lawful: { (s : Self) (k p : ℕ) → Lawful (means s k p) };
}
