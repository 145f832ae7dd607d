// The ASCII family: whole numbers, amounts, kept text and dates.
ghost use Rattle.std.specs.Prelude.{◌≡◌, length};
ghost use Rattle.fields.specs.Buffers.{written};
ghost use Rattle.fields.specs.Cursors.{unread, Moved};
ghost use Rattle.fields.specs.Kinds.{ascii_means, means_as, sort_of};
ghost use Rattle.fields.specs.Known.{ascii_table, listed};
ghost use Rattle.fields.specs.AsciiLaw.{ascii_lawful};

use crate::amount::Decimals;
use crate::cause::{Cause, Reading, Sort};
use crate::cursor::Cursor;
use crate::date::{read_date, spell_date};
use crate::family::{Family, Kind, TooShort};
use crate::text::read_text;
use crate::whole::{read_whole, spell_whole, whole_len};

// Fields as a person writes them.
#[derive(Clone, Copy)]
pub struct Ascii;

// A kind that this family knows.
#[derive(Clone, Copy)]
pub enum AsciiKind {
    Whole,
    Amount(Decimals),
    // text up to the first such byte
    Text(u8),
    Date,
}

impl AsciiKind {
    // What a kind with its parameter is, if the family knows it.
    fn of(kind: Kind) -> Option<AsciiKind>
        ensures means { means_as result ≡ ascii_means kind.code kind.parameter }
        ensures table { sort_of result ≡ listed ascii_table kind.code kind.parameter }
    {
        match (kind.code, kind.parameter) {
            (1, 0) => Some(AsciiKind::Whole),
            (2, count @ 0..=4) => Some(AsciiKind::Amount(Decimals { count })),
            (4, stop) => Some(AsciiKind::Text(stop)),
            (6, 0) => Some(AsciiKind::Date),
            _ => None,
        }
    }
}

impl Family for Ascii {
    ghost means = { λ _ k p. ascii_means k p };

    ghost lawful = { λ s k p. ascii_lawful k p };

    fn sort(&self, kind: Kind) -> Sort
        ensures means { result ≡ (ascii_means kind.code kind.parameter).sort }
        ensures table { result ≡ listed ascii_table kind.code kind.parameter }
    {
        match AsciiKind::of(kind) {
            Some(AsciiKind::Whole | AsciiKind::Amount(_) | AsciiKind::Date) => Sort::Numeric,
            Some(AsciiKind::Text(_)) => Sort::Kept,
            None => Sort::Unknown,
        }
    }

    // (This and the readings under it are put where they are called, in the reader's loop: a call would hand each answer on through memory.)
    #[inline(always)]
    fn read(&self, kind: Kind, cursor: &mut Cursor) -> Reading
        ensures answer { result ≡ (ascii_means kind.code kind.parameter).reads (unread cursor.old) }
        ensures place { Moved result cursor.old cursor.new }
    {
        match AsciiKind::of(kind) {
            Some(AsciiKind::Whole) => read_whole(cursor),
            Some(AsciiKind::Amount(decimals)) => decimals.read(cursor),
            Some(AsciiKind::Text(stop)) => Ok(read_text(stop, cursor)),
            Some(AsciiKind::Date) => read_date(cursor),
            None => Err(Cause::Form),
        }
    }

    fn spelled_length(&self, kind: Kind, number: i64) -> usize
        ensures { result ≡ length ((ascii_means kind.code kind.parameter).spells number) }
    {
        match AsciiKind::of(kind) {
            Some(AsciiKind::Whole) => whole_len(number),
            Some(AsciiKind::Amount(decimals)) => decimals.spelled_len(number),
            Some(AsciiKind::Date) => 10,
            Some(AsciiKind::Text(_)) | None => 0,
        }
    }

    // (Spelling a whole number or an amount is put where it is called too: where the kind is known there, little of it is left.)
    #[inline(always)]
    fn spell(&self, kind: Kind, number: i64, out: &mut [u8]) -> Result<usize, TooShort>
        ensures { (result, out.new) ≡ written ((ascii_means kind.code kind.parameter).spells number) out.old }
    {
        match AsciiKind::of(kind) {
            Some(AsciiKind::Whole) => spell_whole(number, out),
            Some(AsciiKind::Amount(decimals)) => decimals.spell(number, out),
            Some(AsciiKind::Date) => spell_date(number, out),
            Some(AsciiKind::Text(_)) | None => Ok(0),
        }
    }
}
