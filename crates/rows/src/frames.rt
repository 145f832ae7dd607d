// Frames of a row that lies at a buffer's beginning.
ghost use Rattle.std.specs.Prelude.{◌≡◌, ◌++◌};
ghost use Rattle.rows.specs.Frames.{framed};

use crate::refusal::Refusal;

// The frame is the row and some bytes behind it.
pub(crate) fn row_and(buffer: &mut [u8], length: usize, behind: &[u8]) -> Result<usize, Refusal>
    ensures { (result, buffer.new) ≡ framed (λ row. row ++ behind.now) length buffer.old }
{
    let end = length.saturating_add(behind.len());
    if end > buffer.len() {
        return Err(Refusal::BufferTooShort);
    }
    buffer[length..end].copy_from_slice(behind);
    Ok(end)
}
