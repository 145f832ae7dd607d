// A family that is one of two, chosen when the program runs.
ghost use Rattle.std.specs.Prelude.{◌≡◌, length};
ghost use Rattle.either.specs.Either.{either};
ghost use Rattle.either.specs.declared.Either.TheVariants.{Left, Right};
ghost use Rattle.fields.specs.Buffers.{written};
ghost use Rattle.fields.specs.Cursors.{unread, Moved};

use crate::cause::{Reading, Sort};
use crate::cursor::Cursor;
use crate::family::{Family, Kind, TooShort};
use either::{Either, for_both};

impl<A: Family, B: Family> Family for Either<A, B> {
    ghost means = { either A.Family.means B.Family.means };

    ghost lawful = { elim [
      | Left a ↦ λ k p. A.Family.lawful a k p
      | Right b ↦ λ k p. B.Family.lawful b k p
    ] };

    fn sort(&self, kind: Kind) -> Sort {
        for_both!(self, family => family.sort(kind))
    }

    fn read(&self, kind: Kind, cursor: &mut Cursor) -> Reading
        ensures answer { result ≡ (either A.Family.means B.Family.means self.now kind.code kind.parameter).reads (unread cursor.old) }
        ensures place { Moved result cursor.old cursor.new }
    {
        for_both!(self, family => family.read(kind, cursor))
    }

    fn spelled_length(&self, kind: Kind, number: i64) -> usize
        ensures { result ≡ length ((either A.Family.means B.Family.means self.now kind.code kind.parameter).spells number) }
    {
        for_both!(self, family => family.spelled_length(kind, number))
    }

    fn spell(&self, kind: Kind, number: i64, out: &mut [u8]) -> Result<usize, TooShort>
        ensures { (result, out.new) ≡ written ((either A.Family.means B.Family.means self.now kind.code kind.parameter).spells number) out.old }
    {
        for_both!(self, family => family.spell(kind, number, out))
    }
}
