// Kept text: up to the first byte that stops it, or to the row's end.
ghost use Rattle.std.specs.Prelude.{◌≡◌, pos};
ghost use Rattle.fields.specs.Cursors.{unread, Ahead};
ghost use Rattle.fields.specs.Texts.{before, text_length};

use crate::cursor::Cursor;
use crate::digits::number;

// How many bytes stand before the first byte `stop`.
fn bytes_before(stop: u8, bytes: &[u8]) -> usize
    ensures { result ≡ before stop bytes.now }
{
    bytes.iter().take_while(|b| **b != stop).count()
}

pub(crate) fn read_text(stop: u8, cursor: &mut Cursor) -> (usize, i64)
    ensures answer { result ≡ (text_length stop (unread cursor.old), pos (text_length stop (unread cursor.old))) }
    ensures ahead { Ahead result.0 cursor.old cursor.new }
{
    let len = bytes_before(stop, cursor.rest()).min(999_999_999_999);
    cursor.place += len;
    (len, number(len as u64))
}
