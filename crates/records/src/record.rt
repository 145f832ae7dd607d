// A record of a trace, and how it is written.
ghost use Rattle.std.specs.Prelude.{◌≡◌, Some};
ghost use Rattle.records.specs.Records.{record_text, filing_word};

use crate::hex::KeptWords;
use report::line::Line;
use rows::piece::Mark;
use std::fmt;

// What became of a row once it was read, or was not.
#[derive(Clone, Copy, PartialEq, Eq, Debug)]
pub enum Filing {
    Kept,
    SetAside,
}

impl Filing {
    // What it is called.
    pub fn word(self) -> &'static str
        ensures { result.now ≡ filing_word self }
    {
        match self {
            Filing::Kept => "kept",
            Filing::SetAside => "set-aside",
        }
    }
}

// One record.
#[derive(Clone, Copy)]
pub enum Record<'t> {
    // a row was opened: its number, where it starts, how long it is, and how it ends
    Row {
        number: usize,
        start: usize,
        length: usize,
        mark: Mark,
    },
    // a line of its report
    Line(Line),
    // the report's kept text
    KeptText(&'t [u8]),
    // how many of the report's lines are faults
    Faults(usize),
    // a refusal, by its number
    Refused(u8),
    // the row was filed
    Filed(Filing),
    // the tail, behind the rows
    Tail {
        start: usize,
        length: usize,
    },
    // how many rows were opened, kept and set aside
    Counts {
        opened: usize,
        kept: usize,
        set_aside: usize,
    },
}

impl fmt::Display for Record<'_> {
    ghost output = { λ r. Some (record_text r) };

    fn fmt<W: fmt::Write>(&self, f: &mut fmt::Formatter<W>) -> fmt::Result {
        match *self {
            Record::Row {
                number,
                start,
                length,
                mark,
            } => write!(f, "row {number} {start} {length} {mark}"),
            Record::Line(line) => {
                let line = LineWords(line);
                write!(f, "line {line}")
            }
            Record::KeptText(text) => {
                let words = KeptWords(text);
                write!(f, "kept-text{words}")
            }
            Record::Faults(count) => write!(f, "faults {count}"),
            Record::Refused(number) => write!(f, "refused {number}"),
            Record::Filed(filing) => {
                let word = filing.word();
                write!(f, "filed {word}")
            }
            Record::Tail { start, length } => write!(f, "tail {start} {length}"),
            Record::Counts {
                opened,
                kept,
                set_aside,
            } => write!(f, "counts {opened} {kept} {set_aside}"),
        }
    }
}

// The numbers of a line.
#[derive(Clone, Copy)]
struct LineWords(Line);

impl fmt::Display for LineWords {
    ghost use Rattle.records.specs.Records.{line_words};

    ghost output = { λ words. Some (line_words words.0) };

    fn fmt<W: fmt::Write>(&self, f: &mut fmt::Formatter<W>) -> fmt::Result {
        let line = self.0;
        let (node, outcome) = (line.node, line.outcome.number());
        let (start, length, number) = (line.start, line.length, line.number);
        write!(f, "{node} {outcome} {start} {length} {number}")
    }
}
