// An export written again, from the reports of its rows.
ghost use Rattle.std.specs.Prelude.{◌≡◌, ◌≤◌, ℕ, List, length, None, OnOk, IfErr, MatchResult};
ghost use Rattle.std.specs.Io.KnownBytes.{Appends};
ghost use Rattle.import.specs.Calls.{done};
ghost use Rattle.import.specs.Models.{under};
ghost use Rattle.import.specs.News.{step_new, fresh};
ghost use Rattle.import.specs.Scans.{Ready};
ghost use Rattle.import.specs.States.{model_of};
ghost use Rattle.import.specs.Tells.{rows_in_file};
ghost use Rattle.passes.specs.Walks.{walked};
ghost use Rattle.tracing.specs.Prints.{put_bytes, Printable, bytes_ahead, unread_ahead, frames_ahead, first_unread, frames_before};
ghost use Rattle.tracing.specs.Stops.{StopTold, RowTold, WrittenBefore, NothingIfRefused, StandsIfRefused};

use crate::stop::Stop;
use fields::family::Family;
use import::import::Import;
use import::refusal::Refusal;
use passes::pass::pass_next;
use rows::rule::RowRule;
use std::alloc::Global;
use std::io;
use std::io::Write;

// Writes what was put at a buffer's beginning; nothing where that was refused.
fn write_put<W: Write>(put: Result<usize, Refusal>, buffer: &[u8], out: &mut W) -> io::Result<()>
    ensures { OnOk result (Appends (W.contents out.old) (W.contents out.new) (put_bytes put buffer.now)) }
{
    match put {
        Ok(length) => out.write_all(&buffer[..length.min(buffer.len())]),
        Err(_) => Ok(()),
    }
}

// Writes the frames of the rows to come, each from its report, and the tail. The buffer has room for all of them, and so for each.
fn print_rows<F: Family, R: RowRule, W: Write>(
    import: &mut Import<F, R>,
    file: &[u8],
    buffer: &mut [u8],
    out: &mut W,
) -> Result<(), Stop>
    requires ready { Ready file.now (model_of file.now import.old) }
    requires printable { Printable (model_of file.now import.old) }
    requires room { length (bytes_ahead (model_of file.now import.old)) ≤ length buffer.old }
    ensures written { OnOk result (Appends (W.contents out.old) (W.contents out.new) (bytes_ahead (model_of file.now import.old))) }
    ensures behind { OnOk result (model_of file.now import.new ≡ walked (model_of file.now import.old) (model_of file.now import.old).ahead.rows) }
    ensures cases { MatchResult result (λ _. unread_ahead (model_of file.now import.old) ≡ None) (RowTold (unread_ahead (model_of file.now import.old))) }
    ensures before { IfErr result (WrittenBefore (W.contents out.old) (W.contents out.new) (frames_ahead (model_of file.now import.old))) }
{
    loop {
        match pass_next(import, file) {
            Err(why) => return Err(Stop::Refused(why)),
            Ok(None) => {
                let put = import.closing(file, buffer);
                write_put(put, buffer, out)?;
                return Ok(());
            }
            Ok(Some(row)) => {
                if let Err(refusal) = row.read {
                    return Err(Stop::Unread {
                        row: row.number,
                        refusal,
                    });
                }
                let put = import.print(buffer);
                write_put(put, buffer, out)?;
            }
        }
    }
}

// An import takes an export under a layout file and a rule, and the export is written again from the reports of its rows alone: the frame of each row and then the tail, which are the export. It stops at the first row that is not read. Its buffer is taken once: no frame is longer than the file.
pub fn print_file<F: Family, R: RowRule, W: Write>(
    heap: Global,
    import: &mut Import<F, R>,
    rule: R,
    layout: &[u8],
    file: &[u8],
    out: &mut W,
) -> Result<(), Stop>
where
    R: Drop,
    ensures written { OnOk result (Appends (W.contents out.old) (W.contents out.new) file.now) }
    ensures behind { OnOk result (model_of file.now import.new ≡ walked (fresh (under (R.means rule) (F.means import.old.family) layout.now) 1 file.now) (rows_in_file (under (R.means rule) (F.means import.old.family) layout.now) file.now)) }
    ensures cases { MatchResult result (λ _. ((step_new (model_of file.now import.old) 1 layout.now (R.means rule) file.now).0 ≡ done) × (first_unread (under (R.means rule) (F.means import.old.family) layout.now) 0 (rows_in_file (under (R.means rule) (F.means import.old.family) layout.now) file.now) ≡ None)) (StopTold (step_new (model_of file.now import.old) 1 layout.now (R.means rule) file.now).0 (first_unread (under (R.means rule) (F.means import.old.family) layout.now) 0 (rows_in_file (under (R.means rule) (F.means import.old.family) layout.now) file.now))) }
    ensures before { IfErr result (WrittenBefore (W.contents out.old) (W.contents out.new) (frames_before (under (R.means rule) (F.means import.old.family) layout.now) (rows_in_file (under (R.means rule) (F.means import.old.family) layout.now) file.now))) }
    ensures nothing { IfErr result (NothingIfRefused out.old out.new) }
    ensures stands { IfErr result (StandsIfRefused (λ other. model_of other import.old) (λ other. model_of other import.new)) }
{
    import.new(1, layout, rule, file)?;
    let mut buffer = vec![in heap; 0; file.len()].map_err(io::Error::from)?;
    print_rows(import, file, &mut buffer, out)
}
