// The trace of an export: for each row the records of its report and of how it was filed, and at the end the tail and the counts.
ghost use Rattle.std.specs.Prelude.{◌≡◌, ℕ, List, None, OnOk, IfErr, MatchResult};
ghost use Rattle.std.specs.Io.KnownBytes.{Appends};
ghost use Rattle.store.specs.Stored.{report_of};
ghost use Rattle.import.specs.Answers.{said_done, said_counts};
ghost use Rattle.import.specs.Calls.{done};
ghost use Rattle.import.specs.Models.{under};
ghost use Rattle.import.specs.News.{step_new, fresh};
ghost use Rattle.import.specs.Scans.{Ready};
ghost use Rattle.import.specs.States.{standing, model_of};
ghost use Rattle.import.specs.Tells.{rows_in_file};
ghost use Rattle.passes.specs.Walks.{walked};
ghost use Rattle.tracing.specs.Traces.{filing_of, report_text, standing_text, read_text, over_text, stage_text, counted_text, trace_from, trace_text};
ghost use Rattle.tracing.specs.Stops.{StopTold, IsOutput, NothingIfRefused, StandsIfRefused};

use crate::stop::Stop;
use fields::family::Family;
use import::answer::Counts;
use import::import::Import;
use import::refusal::Refusal;
use import::stage::{How, Stage};
use passes::pass::{Passed, pass_next};
use records::record::{Filing, Record};
use rows::rule::RowRule;
use std::io;
use std::io::Write;
use store::memory::Report;

// Writes the records of a report.
fn write_report<W: Write>(report: &Report, out: &mut W) -> io::Result<()>
    ensures { OnOk result (Appends (W.contents out.old) (W.contents out.new) (report_text (report_of report.now))) }
{
    for line in &report.lines {
        out.writeln(Record::Line(*line))?;
    }
    out.writeln(Record::KeptText(report.text.as_slice()))?;
    out.writeln(Record::Faults(report.faults))
}

// Writes the records of the report that stands; nothing where none does.
fn write_standing<F: Family, R: RowRule, W: Write>(
    import: &Import<F, R>,
    out: &mut W,
) -> io::Result<()>
    ensures { OnOk result (Appends (W.contents out.old) (W.contents out.new) (standing_text (standing import.now.report import.now.standing))) }
{
    match import.report() {
        Ok(report) => write_report(report, out),
        Err(_) => Ok(()),
    }
}

// Writes what a read came to: the records of the report that stands, or the refusal.
fn write_read<F: Family, R: RowRule, W: Write>(
    import: &Import<F, R>,
    read: Result<(), Refusal>,
    out: &mut W,
) -> io::Result<()>
    ensures { OnOk result (Appends (W.contents out.old) (W.contents out.new) (read_text (said_done read) (standing import.now.report import.now.standing))) }
{
    match read {
        Err(why) => out.writeln(Record::Refused(why.number())),
        Ok(()) => write_standing(import, out),
    }
}

// How a row was filed, as records name it.
fn filing(how: How) -> Filing
    ensures { result ≡ filing_of how }
{
    match how {
        How::Kept => Filing::Kept,
        How::SetAside => Filing::SetAside,
    }
}

// Writes the records of a row that was gone over.
#[tactic(auto, using(crate::proofs::Streams::appends_both))]
fn write_row<F: Family, R: RowRule, W: Write>(
    import: &Import<F, R>,
    row: &Passed,
    out: &mut W,
) -> io::Result<()>
    ensures { OnOk result (Appends (W.contents out.old) (W.contents out.new) (over_text row.now.number row.now.start row.now.length row.now.mark (said_done row.now.read) row.now.filed (standing import.now.report import.now.standing))) }
{
    out.writeln(Record::Row {
        number: row.number as usize,
        start: row.start,
        length: row.length,
        mark: row.mark,
    })?;
    write_read(import, row.read, out)?;
    out.writeln(Record::Filed(filing(row.filed)))
}

// Writes where the tail stands, at the end; nothing elsewhere.
fn write_tail<W: Write>(stage: Stage, out: &mut W) -> io::Result<()>
    ensures { OnOk result (Appends (W.contents out.old) (W.contents out.new) (stage_text stage)) }
{
    match stage {
        Stage::End { start, length } => out.writeln(Record::Tail { start, length }),
        Stage::Empty | Stage::Between | Stage::Unread { .. } | Stage::Read => Ok(()),
    }
}

// Writes how many rows were opened and filed.
fn write_counts<W: Write>(counts: Result<Counts, Refusal>, out: &mut W) -> io::Result<()>
    ensures { OnOk result (Appends (W.contents out.old) (W.contents out.new) (counted_text (said_counts counts))) }
{
    match counts {
        Ok(counts) => out.writeln(Record::Counts {
            opened: counts.opened as usize,
            kept: counts.kept as usize,
            set_aside: counts.set_aside as usize,
        }),
        Err(_) => Ok(()),
    }
}

// Traces the rows to come, the tail and the counts.
fn trace_rows<F: Family, R: RowRule, W: Write>(
    import: &mut Import<F, R>,
    file: &[u8],
    out: &mut W,
) -> Result<(), Stop>
    requires ready { Ready file.now (model_of file.now import.old) }
    ensures written { OnOk result (Appends (W.contents out.old) (W.contents out.new) (trace_from (model_of file.now import.old))) }
    ensures behind { OnOk result (model_of file.now import.new ≡ walked (model_of file.now import.old) (model_of file.now import.old).ahead.rows) }
    ensures stops { IfErr result IsOutput }
{
    loop {
        match pass_next(import, file) {
            Err(why) => return Err(Stop::Refused(why)),
            Ok(None) => {
                write_tail(import.stage(), out)?;
                write_counts(import.counts(), out)?;
                return Ok(());
            }
            Ok(Some(row)) => write_row(import, &row, out)?,
        }
    }
}

// An import takes an export under a layout file and a rule, goes over all its rows, and its trace is written; or the export is refused, and nothing is written.
pub fn write_trace<F: Family, R: RowRule, W: Write>(
    import: &mut Import<F, R>,
    rule: R,
    layout: &[u8],
    file: &[u8],
    out: &mut W,
) -> Result<(), Stop>
where
    R: Drop,
    ensures written { OnOk result (Appends (W.contents out.old) (W.contents out.new) (trace_text (under (R.means rule) (F.means import.old.family) layout.now) file.now)) }
    ensures behind { OnOk result (model_of file.now import.new ≡ walked (fresh (under (R.means rule) (F.means import.old.family) layout.now) 1 file.now) (rows_in_file (under (R.means rule) (F.means import.old.family) layout.now) file.now)) }
    ensures cases { MatchResult result (λ _. (step_new (model_of file.now import.old) 1 layout.now (R.means rule) file.now).0 ≡ done) (StopTold (step_new (model_of file.now import.old) 1 layout.now (R.means rule) file.now).0 None) }
    ensures nothing { IfErr result (NothingIfRefused out.old out.new) }
    ensures stands { IfErr result (StandsIfRefused (λ other. model_of other import.old) (λ other. model_of other import.new)) }
{
    import.new(1, layout, rule, file)?;
    trace_rows(import, file, out)
}
