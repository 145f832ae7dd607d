// One line's part of what is printed: its length, and its bytes in a buffer.
ghost use Rattle.std.specs.Prelude.{◌≡◌, ◌≤◌, length};
ghost use Rattle.printer.specs.Parts.{bytes_of, line_bytes, text_behind};
ghost use Rattle.printer.specs.Puts.{PutsFirst, PutsAt};

use crate::source::{Source, source_of};
use fields::family::Family;
use layout::table::Layout;
use report::line::Line;

// The part of a line: where its bytes come from, its number, and its share of the kept text.
#[derive(Clone, Copy)]
pub(crate) struct Part<'t> {
    source: Source,
    number: i64,
    text: &'t [u8],
}

// Writes bytes at the beginning of a buffer, and says how many; none where they have no room.
pub(crate) fn write(bytes: &[u8], out: &mut [u8]) -> Option<usize>
    ensures { PutsFirst bytes.now out.old result out.new }
{
    let count = bytes.len();
    if out.len() < count {
        return None;
    }
    out[..count].copy_from_slice(bytes);
    Some(count)
}

impl<'t> Part<'t> {
    // The part of a line, and the kept text from the next line on. Where there is less text than the line's share, the share is what there is.
    pub(crate) fn of_line<F: Family>(
        layout: &Layout,
        family: &F,
        line: &Line,
        text: &'t [u8],
    ) -> (Part<'t>, &'t [u8])
        ensures part { bytes_of (F.means family.now) result.0 ≡ line_bytes (F.means family.now) layout.now.nodes.items line.now text.now }
        ensures rest { result.1.now ≡ text_behind (F.means family.now) layout.now.nodes.items line.now text.now }
    {
        let source = source_of(layout, family, line);
        let share = source.share(line.length).min(text.len());
        let (text, rest) = text.split_at(share);
        let part = Part {
            source,
            number: line.number,
            text,
        };
        (part, rest)
    }

    // How many bytes it has.
    pub(crate) fn length<F: Family>(&self, family: &F) -> usize
        ensures { result ≡ length (bytes_of (F.means family.now) self.now) }
    {
        match self.source {
            Source::Nothing => 0,
            Source::Byte(_) => 1,
            Source::Spelling(kind) => family.spelled_length(kind, self.number),
            Source::KeptText => self.text.len(),
        }
    }

    // Writes its bytes at the beginning of a buffer, and says how many; none where they have no room.
    fn write<F: Family>(&self, family: &F, out: &mut [u8]) -> Option<usize>
        ensures { PutsFirst (bytes_of (F.means family.now) self.now) out.old result out.new }
    {
        match self.source {
            Source::Nothing => Some(0),
            Source::Byte(byte) => write(&[byte], out),
            Source::Spelling(kind) => family.spell(kind, self.number, out).ok(),
            Source::KeptText => write(self.text, out),
        }
    }

    // Writes them from a place on, and says where they end.
    #[tactic(auto, using(crate::proofs::Begun::put_at))]
    pub(crate) fn write_at<F: Family>(&self, family: &F, out: &mut [u8], at: usize) -> Option<usize>
        requires { at ≤ length out.old }
        ensures { PutsAt (bytes_of (F.means family.now) self.now) at out.old result out.new }
    {
        let count = self.write(family, &mut out[at..])?;
        Some(at + count)
    }
}
