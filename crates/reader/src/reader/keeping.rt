// What a report keeps of its row besides the lines.
ghost use Rattle.std.specs.Prelude.{◌≡◌, ◌≤◌, ◌+◌, ◌++◌, [], length, take as first_bytes, drop as from_place, vec_len, vec_capacity, true};
ghost use Rattle.report.specs.Lines.{faults};
ghost use Rattle.report.specs.Printing.{share_of, kept};
ghost use Rattle.reader.specs.Plain.{keeps, PlainIn};

use crate::source::Source;
use fields::cause::Sort;
use fields::family::{Family, Kind};
use layout::node::Shape;
use report::line::Line;
use report::outcome::Outcome;

// How many lines are faults.
#[tactic(auto, using(crate::proofs::Faults::faults_counted))]
fn count_faults(lines: &[Line]) -> usize
    ensures { result ≡ faults lines.now }
{
    lines.iter().filter(|line| line.outcome.is_fault()).count()
}

// Adds bytes, for which there is room.
fn add(text: &mut Vec<u8>, bytes: &[u8])
    requires { vec_len text.old + length bytes.now ≤ vec_capacity text.old }
    ensures items { text.new.items ≡ text.old.items ++ bytes.now }
    ensures capacity { vec_capacity text.new ≡ vec_capacity text.old }
{
    for byte in bytes {
        text.push_reserved(*byte);
    }
}

impl<'a, F: Family> Source<'a, F> {
    ghost use Rattle.reader.specs.Models.{nodes_of};

    // Whether the bytes of fields of a kind are kept.
    pub(crate) fn keeps(&self, kind: Kind) -> bool
        ensures { result ≡ keeps (F.Family.means self.now.family.now kind.code kind.parameter).sort }
    {
        match self.family.sort(kind) {
            Sort::Kept => true,
            Sort::Numeric | Sort::Unknown => false,
        }
    }

    // How many bytes of the row a line keeps: those of a kept field and of scrap.
    fn share(&self, line: Line) -> usize
        ensures { result ≡ share_of (F.Family.means self.now.family.now) (nodes_of self.now) line }
    {
        match line.outcome {
            Outcome::Scrap => line.length,
            Outcome::Good => match self.layout.node(line.node).shape {
                Shape::Field { kind, .. } if self.keeps(kind) => line.length,
                _ => 0,
            },
            _ => 0,
        }
    }

    // The bytes of the row that a line keeps.
    fn kept_bytes(&self, line: Line) -> &'a [u8]
        ensures { result.now ≡ first_bytes (share_of (F.Family.means self.now.family.now) (nodes_of self.now) line) (from_place line.start self.now.row.now) }
    {
        let share = self.share(line);
        // most lines keep none, and nothing more is looked at for them
        if share == 0 {
            return &[];
        }
        let from = self.row.get(line.start..).unwrap_or(&[]);
        &from[..share.min(from.len())]
    }

    // Keeps the bytes of the lines that keep theirs.
    fn keep_text(&self, lines: &[Line], text: &mut Vec<u8>)
        requires none { text.old.items ≡ [] }
        requires room { length (kept (F.Family.means self.now.family.now) (nodes_of self.now) self.now.row.now lines.now) ≤ vec_capacity text.old }
        ensures items { text.new.items ≡ kept (F.Family.means self.now.family.now) (nodes_of self.now) self.now.row.now lines.now }
        ensures capacity { vec_capacity text.new ≡ vec_capacity text.old }
    {
        for line in lines {
            add(text, self.kept_bytes(*line));
        }
    }

    // Keeps the text of lines, and counts the faults among them. Plain ones have neither, and are not gone over.
    pub(crate) fn sum_up(&self, lines: &[Line], plain: bool, text: &mut Vec<u8>) -> usize
        requires plain { plain ≡ true → PlainIn F.Family self.now lines.now }
        requires none { text.old.items ≡ [] }
        requires room { length (kept (F.Family.means self.now.family.now) (nodes_of self.now) self.now.row.now lines.now) ≤ vec_capacity text.old }
        ensures count { result ≡ faults lines.now }
        ensures items { text.new.items ≡ kept (F.Family.means self.now.family.now) (nodes_of self.now) self.now.row.now lines.now }
        ensures capacity { vec_capacity text.new ≡ vec_capacity text.old }
    {
        if plain {
            return 0;
        }
        self.keep_text(lines, text);
        count_faults(lines)
    }
}
