// A field at the start of some bytes, or at a place in them.
ghost use Rattle.std.specs.Prelude.{◌≡◌, drop, IfOk};
ghost use Rattle.fields.specs.Laws.{Owed};
ghost use Rattle.fields.specs.Meanings.{moved};

use crate::cause::Reading;
use crate::cursor::Cursor;
use crate::family::{Family, Kind};

// Reads a field at the start of some bytes. A numeric kind spells the number with exactly the bytes read.
pub fn read_start<F: Family>(family: &F, kind: Kind, bytes: &[u8]) -> Reading
    ensures answer { result ≡ (F.Family.means family.now kind.code kind.parameter).reads bytes.now }
    ensures owed { IfOk result (λ x. Owed (F.Family.means family.now kind.code kind.parameter) bytes.now x.0 x.1) }
{
    family.read(kind, &mut Cursor::new(bytes))
}

// Reads a field at a place, without holding the bytes from one field to the next: the place goes behind a good field, and stays on a cause.
pub fn read_at<F: Family>(family: &F, kind: Kind, bytes: &[u8], place: &mut usize) -> Reading
    ensures answer { result ≡ (F.Family.means family.now kind.code kind.parameter).reads (drop place.old bytes.now) }
    ensures place { place.new ≡ moved place.old result }
{
    let mut cursor = Cursor {
        bytes,
        place: *place,
    };
    let reading = family.read(kind, &mut cursor);
    *place = cursor.place;
    reading
}
