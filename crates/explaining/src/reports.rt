// What is written of a row that was read: why it is set aside, if it is.
ghost use Rattle.std.specs.Prelude.{◌≡◌, OnOk};
ghost use Rattle.std.specs.Io.KnownBytes.{Appends};
ghost use Rattle.store.specs.Stored.{report_of};
ghost use Rattle.explaining.specs.Reports.{parts_skipped, skipped_text, fault_text, told, faulty_text, report_text};

use crate::row::Row;
use crate::texts::{ExplainedLine, Fate, PartFault};
use cli::families::FamilyWords;
use import::import::places::part;
use layout::table::Layout;
use report::line::Line;
use report::outcome::Outcome;
use std::io;
use std::io::Write;
use store::memory::Report;

// What rows are read under, for people: a layout, and what its family calls kinds.
#[derive(Clone, Copy)]
pub(crate) struct Under<'a> {
    pub(crate) family: FamilyWords,
    pub(crate) layout: &'a Layout,
}

// How many parts were skipped.
fn parts_skipped(lines: &[Line]) -> usize
    ensures { result ≡ parts_skipped lines.now }
{
    let mut parts = 0;
    for line in lines {
        match line.outcome {
            Outcome::Skipped => parts += 1,
            Outcome::Good => {}
            Outcome::SyntaxFault => {}
            Outcome::CheckFault => {}
            Outcome::Absent => {}
            Outcome::FaultBelow => {}
            Outcome::Scrap => {}
        }
    }
    parts
}

// Writes how many parts were skipped, if any were.
fn write_skipped<W: Write>(parts: usize, out: &mut W) -> io::Result<()>
    ensures { OnOk result (Appends (W.contents out.old) (W.contents out.new) (skipped_text parts)) }
{
    if parts == 0 {
        return Ok(());
    }
    out.writeln(ExplainedLine::Skipped { parts })
}

// Writes a fault of a part, or of the row itself.
fn write_fault<W: Write>(under: &Under<'_>, line: Line, out: &mut W) -> io::Result<()>
    ensures { OnOk result (Appends (W.contents out.old) (W.contents out.new) (fault_text under.now.family under.now.layout.now.nodes.items under.now.layout.now.constants.items line)) }
{
    if line.node == 0 {
        return out.writeln(ExplainedLine::BytesLeft { at: line.start });
    }
    out.writeln(ExplainedLine::Fault(PartFault {
        family: under.family,
        constants: under.layout.constants(),
        shape: under.layout.node(line.node).shape,
        node: line.node,
        at: line.start,
        number: line.number,
    }))
}

// Writes what is told of a line.
fn write_line<W: Write>(under: &Under<'_>, bytes: &[u8], line: Line, out: &mut W) -> io::Result<()>
    ensures { OnOk result (Appends (W.contents out.old) (W.contents out.new) (told under.now.family under.now.layout.now.nodes.items under.now.layout.now.constants.items bytes.now line)) }
{
    match line.outcome {
        Outcome::SyntaxFault => write_fault(under, line, out),
        Outcome::CheckFault => write_fault(under, line, out),
        Outcome::Scrap => out.writeln(ExplainedLine::Scrap {
            at: line.start,
            bytes: part(bytes, line.start, line.length),
        }),
        Outcome::Good => Ok(()),
        Outcome::Absent => Ok(()),
        Outcome::Skipped => Ok(()),
        Outcome::FaultBelow => Ok(()),
    }
}

// Writes why a row is set aside whose report has faults.
fn write_faulty<W: Write>(
    under: &Under<'_>,
    row: Row,
    bytes: &[u8],
    report: &Report,
    out: &mut W,
) -> io::Result<()>
    ensures { OnOk result (Appends (W.contents out.old) (W.contents out.new) (faulty_text under.now.family under.now.layout.now.nodes.items under.now.layout.now.constants.items bytes.now row (report_of report.now))) }
{
    out.writeln(ExplainedLine::Aside(row, Fate::Faulty(report.faults)))?;
    for line in &report.lines {
        write_line(under, bytes, *line, out)?;
    }
    write_skipped(parts_skipped(&report.lines), out)
}

// Writes why a row of these bytes is set aside, by its report; nothing where that has no fault.
pub(crate) fn write_report<W: Write>(
    under: &Under<'_>,
    row: Row,
    bytes: &[u8],
    report: &Report,
    out: &mut W,
) -> io::Result<()>
    ensures { OnOk result (Appends (W.contents out.old) (W.contents out.new) (report_text under.now.family under.now.layout.now.nodes.items under.now.layout.now.constants.items bytes.now row (report_of report.now))) }
{
    if report.faults == 0 {
        return Ok(());
    }
    write_faulty(under, row, bytes, report, out)
}
