// What a call writes is laid at the beginning of the caller's buffer.
ghost use Rattle.std.specs.Prelude.{◌≡◌, Ok};
ghost use Rattle.calls.specs.Lefts.{put};

use crate::status::Status;
use import::refusal::Refusal;

// Lays bytes at a buffer's beginning and tells their length; where there is no room, both stay.
pub(crate) fn put(bytes: &[u8], out: &mut [u8], length: &mut usize) -> Status
    ensures { (result, out.new, length.new) ≡ put (Ok bytes.now) out.old length.old }
{
    let count = bytes.len();
    if count > out.len() {
        return Status::Refused(Refusal::BufferTooShort);
    }
    out[..count].copy_from_slice(bytes);
    *length = count;
    Status::Done
}
