// The place at which the next field is read, and the guard that restores it.
ghost use Rattle.std.specs.Prelude.{◌≡◌, ◌<◌, ◌≤◌, length, take as first_bytes, MatchResult, MatchOption};
ghost use Rattle.fields.specs.declared.cause.Cause.TheVariants.{Short};
ghost use Rattle.fields.specs.Cursors.{unread, Ahead};

use crate::cause::Cause;

// A place in the bytes of a row. It is the caller's, and outlives the field that is read there.
#[derive(Clone, Copy)]
pub struct Cursor<'a> {
    pub bytes: &'a [u8],
    pub place: usize,
}

impl<'a> Cursor<'a> {
    // A cursor at the first byte of a row.
    pub fn new(bytes: &'a [u8]) -> Cursor<'a>
        ensures row { result.bytes ≡ bytes.entry }
        ensures place { result.place ≡ 0 }
    {
        Cursor { bytes, place: 0 }
    }

    // The bytes from the place on: none where it is past the end. (This and the next are put where they are called, as reading a field is.)
    #[inline(always)]
    pub(crate) fn rest(&self) -> &'a [u8]
        ensures { result.now ≡ unread self.now }
    {
        self.bytes.get(self.place..).unwrap_or(&[])
    }

    // Moves over so many bytes, which have to be there.
    #[inline(always)]
    pub(crate) fn take(&mut self, count: usize) -> Result<&'a [u8], Cause>
        ensures { MatchResult result (λ x. (count ≤ length (unread self.old)) × (x.now ≡ first_bytes count (unread self.old)) × Ahead count self.old self.new) (λ e. (e ≡ Short) × (length (unread self.old) < count) × (self.new ≡ self.old)) }
    {
        let field = self.rest().get(..count).ok_or(Cause::Short)?;
        self.place += count;
        Ok(field)
    }
}

// Puts the cursor back to where a field began, unless the field was good.
pub(crate) struct Guard<'c, 'a> {
    pub(crate) cursor: &'c mut Cursor<'a>,
    // where the field began, as long as it may still be found bad
    pub(crate) back: Option<usize>,
}

impl Drop for Guard<'_, '_> {
    fn drop(self)
        ensures place { MatchOption self.entry.back (self.exit.0.now.place ≡ self.entry.cursor.now.place) (λ start. self.exit.0.now.place ≡ start) }
        ensures row { self.exit.0.now.bytes ≡ self.entry.cursor.now.bytes }
    {
        if let Some(start) = self.back {
            self.cursor.place = start;
        }
        let Guard { cursor: _, back: _ } = self;
    }
}
