// The binary family: numbers of a fixed count of bytes, most significant first, and kept bytes.
ghost use Rattle.std.specs.Prelude.{◌≡◌, length};
ghost use Rattle.fields.specs.Buffers.{written};
ghost use Rattle.fields.specs.Cursors.{unread, Moved};
ghost use Rattle.fields.specs.Known.{binary_table, listed};
ghost use Rattle.fields.specs.BinaryKinds.{means_as, sort_of, taken_by, number_as};
ghost use Rattle.fields.specs.Octets.{binary_means};
ghost use Rattle.fields.specs.BigBytes.{binary_lawful};

use crate::cause::{Cause, Reading, Sort};
use crate::cursor::Cursor;
use crate::digits::{number, value};
use crate::family::{Family, Kind, TooShort};
use crate::width::Width;

// Fields as a machine stores them.
#[derive(Clone, Copy)]
pub struct Binary;

// A kind that this family knows.
#[derive(Clone, Copy)]
pub enum BinaryKind {
    Unsigned(Width),
    // two's complement
    Signed(Width),
    // so many kept bytes
    Stored(u8),
}

impl BinaryKind {
    // What a kind with its parameter is, if the family knows it.
    #[inline(always)]
    fn of(kind: Kind) -> Option<BinaryKind>
        ensures means { means_as result ≡ binary_means kind.code kind.parameter }
        ensures table { sort_of result ≡ listed binary_table kind.code kind.parameter }
    {
        match (kind.code, kind.parameter) {
            (1, bytes @ 1..=4) => Some(BinaryKind::Unsigned(Width { bytes })),
            (2, bytes @ 1..=4) => Some(BinaryKind::Signed(Width { bytes })),
            (3, count @ 1..=255) => Some(BinaryKind::Stored(count)),
            _ => None,
        }
    }

    // How many bytes a field takes.
    #[inline(always)]
    fn length(self) -> usize
        ensures { result ≡ taken_by self }
    {
        match self {
            BinaryKind::Unsigned(width) | BinaryKind::Signed(width) => usize::from(width.bytes),
            BinaryKind::Stored(count) => usize::from(count),
        }
    }

    // The number of a field.
    #[inline(always)]
    fn number(self, field: &[u8]) -> i64
        requires { length field.now ≡ taken_by self }
        ensures { result ≡ number_as self field.now }
    {
        match self {
            BinaryKind::Unsigned(_) => number(value::<256, 0>(field)),
            BinaryKind::Signed(width) => width.signed(value::<256, 0>(field)),
            BinaryKind::Stored(count) => i64::from(count),
        }
    }
}

impl Family for Binary {
    ghost means = { λ _ k p. binary_means k p };

    ghost lawful = { λ s k p. binary_lawful k p };

    fn sort(&self, kind: Kind) -> Sort
        ensures means { result ≡ (binary_means kind.code kind.parameter).sort }
        ensures table { result ≡ listed binary_table kind.code kind.parameter }
    {
        match BinaryKind::of(kind) {
            Some(BinaryKind::Unsigned(_) | BinaryKind::Signed(_)) => Sort::Numeric,
            Some(BinaryKind::Stored(_)) => Sort::Kept,
            None => Sort::Unknown,
        }
    }

    // (This and what it calls are put where they are called, as in the ASCII family.)
    #[inline(always)]
    fn read(&self, kind: Kind, cursor: &mut Cursor) -> Reading
        ensures answer { result ≡ (binary_means kind.code kind.parameter).reads (unread cursor.old) }
        ensures place { Moved result cursor.old cursor.new }
    {
        let known = BinaryKind::of(kind).ok_or(Cause::Form)?;
        let field = cursor.take(known.length())?;
        Ok((field.len(), known.number(field)))
    }

    fn spelled_length(&self, kind: Kind, number: i64) -> usize
        ensures { result ≡ length ((binary_means kind.code kind.parameter).spells number) }
    {
        match BinaryKind::of(kind) {
            Some(BinaryKind::Unsigned(width)) => usize::from(width.bytes),
            Some(BinaryKind::Signed(width)) => usize::from(width.bytes),
            Some(BinaryKind::Stored(_)) | None => 0,
        }
    }

    fn spell(&self, kind: Kind, number: i64, out: &mut [u8]) -> Result<usize, TooShort>
        ensures { (result, out.new) ≡ written ((binary_means kind.code kind.parameter).spells number) out.old }
    {
        match BinaryKind::of(kind) {
            Some(BinaryKind::Unsigned(width)) => width.spell(number.unsigned_abs(), out),
            Some(BinaryKind::Signed(width)) => width.spell(width.bits(number), out),
            Some(BinaryKind::Stored(_)) | None => Ok(0),
        }
    }
}
