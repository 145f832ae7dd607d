// The explanation of an export: why rows are set aside, and what became of all of them.
ghost use Rattle.std.specs.Prelude.{◌≡◌, None, OnOk, IfErr, MatchResult};
ghost use Rattle.std.specs.Io.KnownBytes.{Appends};
ghost use Rattle.cli.specs.Listings.{closes_unended};
ghost use Rattle.import.specs.Answers.{said_done};
ghost use Rattle.import.specs.Calls.{done};
ghost use Rattle.import.specs.Models.{under};
ghost use Rattle.import.specs.News.{step_new, fresh};
ghost use Rattle.import.specs.Scans.{Ready};
ghost use Rattle.import.specs.Slips.{part};
ghost use Rattle.import.specs.States.{setting_of, standing, model_of};
ghost use Rattle.import.specs.Tells.{rows_in_file};
ghost use Rattle.passes.specs.Walks.{walked};
ghost use Rattle.explaining.specs.Explanations.{row_at, standing_text, over_text, notice_text, closing_text, end_text, explanation_text};
ghost use Rattle.tracing.specs.Stops.{StopTold, IsOutput, NothingIfRefused, StandsIfRefused};
ghost use Rattle.explaining.specs.Rest.{explanation_from};

use crate::reports::{Under, write_report};
use crate::row::Row;
use crate::texts::{ExplainedLine, Fate};
use cli::families::FamilyWords;
use cli::texts::ListingLine;
use fields::family::Family;
use import::answer::Counts;
use import::import::Import;
use import::import::places::part;
use import::stage::Stage;
use passes::pass::{Passed, pass_next};
use rows::piece::Mark;
use rows::rule::RowRule;
use std::io;
use std::io::Write;
use tracing::stop::Stop;

// Writes what the report that stands says of a row of these bytes; nothing where none stands.
fn write_standing<F: Family, R: RowRule, W: Write>(
    family: FamilyWords,
    import: &Import<F, R>,
    row: Row,
    bytes: &[u8],
    out: &mut W,
) -> io::Result<()>
    ensures { OnOk result (Appends (W.contents out.old) (W.contents out.new) (standing_text family (setting_of import.now) row bytes.now (standing import.now.report import.now.standing))) }
{
    match import.report() {
        Ok(report) => {
            let under = Under {
                family,
                layout: import.layout(),
            };
            write_report(&under, row, bytes, report, out)
        }
        Err(_) => Ok(()),
    }
}

// Writes why a row that was gone over is set aside, if it is.
fn write_row<F: Family, R: RowRule, W: Write>(
    family: FamilyWords,
    import: &Import<F, R>,
    passed: &Passed,
    file: &[u8],
    out: &mut W,
) -> io::Result<()>
    ensures { OnOk result (Appends (W.contents out.old) (W.contents out.new) (over_text family (setting_of import.now) (row_at passed.now.number passed.now.start passed.now.length passed.now.mark) (part file.now passed.now.start passed.now.length) (said_done passed.now.read) (standing import.now.report import.now.standing))) }
{
    let row = Row {
        number: passed.number as usize,
        start: passed.start,
        length: passed.length,
        mark: passed.mark,
    };
    match passed.read {
        Err(why) => out.writeln(ExplainedLine::Aside(row, Fate::NotRead(why))),
        Ok(()) => {
            let bytes = part(file, passed.start, passed.length);
            write_standing(family, import, row, bytes, out)
        }
    }
}

// Writes the notice, if the closing row, of this number, is unended.
fn write_notice<W: Write>(last: Option<Mark>, number: usize, out: &mut W) -> io::Result<()>
    ensures { OnOk result (Appends (W.contents out.old) (W.contents out.new) (notice_text (closes_unended last) number)) }
{
    match last {
        Some(Mark::Unended) => out.writeln(ListingLine::Notice { number }),
        Some(Mark::Ended) => Ok(()),
        None => Ok(()),
    }
}

// Writes the counts, the tail's place, and the notice.
fn write_closing<W: Write>(
    counts: Counts,
    start: usize,
    length: usize,
    last: Option<Mark>,
    out: &mut W,
) -> io::Result<()>
    ensures { OnOk result (Appends (W.contents out.old) (W.contents out.new) (closing_text counts start length (closes_unended last))) }
{
    out.writeln(ExplainedLine::Counts {
        opened: counts.opened as usize,
        kept: counts.kept as usize,
        set_aside: counts.set_aside as usize,
    })?;
    out.writeln(ListingLine::Tail { start, length })?;
    write_notice(last, counts.opened as usize, out)
}

// Writes what the import at the end has to tell, where the last row had this mark; nothing elsewhere.
fn write_end<F: Family, R: RowRule, W: Write>(
    import: &Import<F, R>,
    last: Option<Mark>,
    out: &mut W,
) -> io::Result<()>
    ensures { OnOk result (Appends (W.contents out.old) (W.contents out.new) (end_text import.now.stage import.now.counts last)) }
{
    match import.stage() {
        Stage::End { start, length } => match import.counts() {
            Ok(counts) => write_closing(counts, start, length, last, out),
            Err(_) => Ok(()),
        },
        Stage::Empty => Ok(()),
        Stage::Between => Ok(()),
        Stage::Unread {
            start: _,
            length: _,
            mark: _,
        } => Ok(()),
        Stage::Read => Ok(()),
    }
}

// Goes over the rows to come, and explains them and what they come to.
fn explain_rows<F: Family, R: RowRule, W: Write>(
    family: FamilyWords,
    import: &mut Import<F, R>,
    file: &[u8],
    out: &mut W,
) -> Result<(), Stop>
    requires ready { Ready file.now (model_of file.now import.old) }
    ensures written { OnOk result (Appends (W.contents out.old) (W.contents out.new) (explanation_from family None (model_of file.now import.old))) }
    ensures behind { OnOk result (model_of file.now import.new ≡ walked (model_of file.now import.old) (model_of file.now import.old).ahead.rows) }
    ensures stops { IfErr result IsOutput }
{
    let mut last = None;
    while let Some(row) = pass_next(import, file)? {
        write_row(family, import, &row, file, out)?;
        last = Some(row.mark);
    }
    write_end(import, last, out)?;
    Ok(())
}

// An import takes an export under a layout file and a rule, goes over all its rows, and it is written why rows are set aside, and what became of all; or the export is refused, and nothing is written. The family's words name its kinds.
pub fn write_explanation<F: Family, R: RowRule, W: Write>(
    import: &mut Import<F, R>,
    rule: R,
    layout: &[u8],
    family: FamilyWords,
    file: &[u8],
    out: &mut W,
) -> Result<(), Stop>
where
    R: Drop,
    ensures written { OnOk result (Appends (W.contents out.old) (W.contents out.new) (explanation_text family (under (R.means rule) (F.means import.old.family) layout.now) file.now)) }
    ensures behind { OnOk result (model_of file.now import.new ≡ walked (fresh (under (R.means rule) (F.means import.old.family) layout.now) 1 file.now) (rows_in_file (under (R.means rule) (F.means import.old.family) layout.now) file.now)) }
    ensures cases { MatchResult result (λ _. (step_new (model_of file.now import.old) 1 layout.now (R.means rule) file.now).0 ≡ done) (StopTold (step_new (model_of file.now import.old) 1 layout.now (R.means rule) file.now).0 None) }
    ensures nothing { IfErr result (NothingIfRefused out.old out.new) }
    ensures stands { IfErr result (StandsIfRefused (λ other. model_of other import.old) (λ other. model_of other import.new)) }
{
    import.new(1, layout, rule, file)?;
    explain_rows(family, import, file, out)
}
