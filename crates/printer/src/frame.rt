// A report printed as the frame of its row.
ghost use Rattle.std.specs.Prelude.{◌≡◌, ◌<◌, ◌≤◌, length, MatchResult};
ghost use Rattle.rows.specs.declared.refusal.Refusal.TheVariants.{BufferTooShort};
ghost use Rattle.printer.specs.Puts.{refused};
ghost use Rattle.printer.specs.Frames.{PutsFrame, LaysBoth, PutsLonger, PutsShorter, row_of};

use crate::part::write;
use crate::parts::write_parts;
use fields::family::Family;
use layout::table::Layout;
use report::laws::prints_back;
use rows::piece::Mark;
use rows::refusal::Refusal;
use rows::rule::RowRule;
use store::memory::Report;
use store::memory::made::LONGEST_ROW;

// Writes the row at a buffer's beginning and turns it into its frame.
fn write_frame<R: RowRule, F: Family>(
    rule: &R,
    mark: Mark,
    layout: &Layout,
    family: &F,
    report: &Report,
    buffer: &mut [u8],
) -> Result<usize, Refusal>
    ensures answer { MatchResult result (λ n. n ≤ length buffer.old) (λ e. e ≡ BufferTooShort) }
    ensures both { LaysBoth (λ row. (R.means rule.now).frame row mark) (row_of (F.means family.now) layout.now.nodes.items report.now) buffer.old (result, buffer.new) }
    ensures longer { PutsLonger (λ row. (R.means rule.now).frame row mark) (row_of (F.means family.now) layout.now.nodes.items report.now) buffer.old (result, buffer.new) }
{
    let Some(length) = write_parts(layout, family, report, buffer) else {
        return Err(Refusal::BufferTooShort);
    };
    rule.frame_in(buffer, length, mark)
}

// The same aside, for a frame that is shorter than its row: what lies behind the frame in the buffer stays.
#[inline(never)]
fn write_frame_aside<R: RowRule, F: Family>(
    rule: &R,
    mark: Mark,
    layout: &Layout,
    family: &F,
    report: &Report,
    out: &mut [u8],
) -> Result<usize, Refusal>
    ensures answer { MatchResult result (λ n. n ≤ length out.old) (λ e. e ≡ BufferTooShort) }
    ensures shorter { PutsShorter (λ row. (R.means rule.now).frame row mark) (row_of (F.means family.now) layout.now.nodes.items report.now) out.old (result, out.new) }
{
    let mut scratch = [0; LONGEST_ROW];
    let length = write_frame(rule, mark, layout, family, report, &mut scratch)?;
    write(&scratch[..length], out).ok_or(Refusal::BufferTooShort)
}

// Writes the frame of a report's row at a buffer's beginning, and says how long it is. A buffer without room for it is refused before anything is written, where a reading has made the report.
#[tactic(auto, using(crate::proofs::Printed::put_longer, crate::proofs::Printed::put_shorter))]
pub fn print_framed<R: RowRule, F: Family>(
    rule: &R,
    mark: Mark,
    layout: &Layout,
    family: &F,
    report: &Report,
    out: &mut [u8],
) -> Result<usize, Refusal>
    ensures frame { PutsFrame (R.means rule.now).frame (F.means family.now) layout.now.nodes.items mark report.now out.old (result, out.new) }
    ensures answer { MatchResult result (λ n. n ≤ length out.old) (λ e. e ≡ BufferTooShort) }
    ensures early { length out.old < report.now.frame_length → (result, out.new) ≡ refused out.old }
{
    if out.len() < report.frame_length {
        return Err(Refusal::BufferTooShort);
    }
    // (a law, and no code: the parts of a row's report are the row)
    prints_back(family);
    if report.row_length <= report.frame_length {
        write_frame(rule, mark, layout, family, report, out)
    } else {
        write_frame_aside(rule, mark, layout, family, report, out)
    }
}
