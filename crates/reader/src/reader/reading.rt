// Reading a row: the loop over the open nodes.
ghost use Rattle.std.specs.Prelude.{◌≡◌, ◌+◌, ◌<◌, ◌≤◌, [], ◌++◌, ◌↔◌, None, false, true, length, vec_len, vec_capacity, MatchResult, OnOk, nat_lt};
ghost use Rattle.layout.specs.Trees.{height};
ghost use Rattle.fields.specs.Laws.{Bytes};
ghost use Rattle.report.specs.Reports.{row_lines};
ghost use Rattle.report.specs.Meets.{meets};
ghost use Rattle.store.specs.Stored.{Made, Framed, Cleared, room_of};
ghost use Rattle.reader.specs.Refusals.{refusal, answer};

use crate::open::{Open, Told, Way};
use crate::reader::{DEEPEST, Reader};
use crate::refusal::Refusal;
use crate::source::Source;
use fields::family::Family;
use layout::node::Shape;
use layout::table::Layout;
use report::line::Line;
use report::outcome::Outcome;
use rows::piece::Mark;
use rows::rule::RowRule;
use std::alloc::{AllocError, Global};
use store::memory::Report;
use store::memory::made::{LONGEST_ROW, MOST_LINES};

// The number of a layout's root.
const ROOT: u16 = 1;

// More lines would have to stand at one time than a report has room for.
#[derive(Drop)]
struct Full;

// Whether a row is too long to be read.
fn is_too_long(row: &[u8]) -> bool
    ensures { result ≡ nat_lt 4096 (length row.now) }
{
    row.len() > LONGEST_ROW
}

impl Reader {
    ghost use Rattle.reader.specs.declared.refusal.Refusal.TheVariants.{TooManyLines};
    ghost use Rattle.reader.specs.Turns.{raised};
    ghost use Rattle.reader.specs.Models.{ReadyIn, state_in, part_in, begun_in, innermost_in, root_in, read_in, whole_in, broke};
    ghost use Rattle.reader.specs.Resuming.{GoingIn};
    ghost use Rattle.reader.specs.Plain.{PlainIn};

    // The root is begun, open; the innermost open node is handed out, if there is one.
    fn begin_root<F: Family>(&mut self, source: &Source<F>, lines: &mut Vec<Line>) -> Option<Open>
        requires ready { ReadyIn source.now self.old lines.old.items (vec_capacity lines.old) }
        requires nest { vec_len self.old.stack + height (part_in source.now 1) ≤ 16 }
        ensures after { innermost_in source.now result (state_in source.now self.new lines.new.items) ≡ begun_in F.Family source.now false 1 (state_in source.now self.old lines.old.items) }
        ensures capacity { vec_capacity lines.new ≡ vec_capacity lines.old }
    {
        self.begin(source, lines, false, ROOT);
        self.stack.pop()
    }

    // The root is begun, open, at the row's beginning, and its first parts are read as long as that goes straight on. What is still open is handed out, and whether nothing is and all lines are plain. (A function of its own in the program that is built, so that its variables stay in registers.)
    #[inline(never)]
    fn start<F: Family>(
        &mut self,
        source: &Source<F>,
        lines: &mut Vec<Line>,
    ) -> (Option<Open>, bool)
        requires bytes { Bytes source.now.row.now }
        requires none { lines.old.items ≡ [] }
        requires room { 514 ≤ vec_capacity lines.old }
        ensures going { GoingIn F.Family source.now (innermost_in source.now result.0 (state_in source.now self.new lines.new.items)) }
        ensures plain { result.1 ≡ true → (result.0 ≡ None) × PlainIn F.Family source.now lines.new.items }
        ensures capacity { vec_capacity lines.new ≡ vec_capacity lines.old }
    {
        self.stack.clear();
        self.place = 0;
        self.told = Told::Begin;
        self.reach = 0;
        match source.layout.node(ROOT).shape {
            Shape::Sequence { child } => {
                let f = self.hold_node(lines, Way::Sequence, ROOT, child);
                self.read_straight(source, lines, f)
            }
            _ => (self.begin_root(source, lines), false),
        }
    }

    // Reads the root, open, from the row's beginning, and tells whether all its lines are plain; or more lines would have to stand at one time than may.
    fn read_root<F: Family>(
        &mut self,
        source: &Source<F>,
        lines: &mut Vec<Line>,
    ) -> Result<bool, Full>
        requires bytes { Bytes source.now.row.now }
        requires none { lines.old.items ≡ [] }
        requires room { 514 ≤ vec_capacity lines.old }
        ensures cases { MatchResult result (λ plain. (read_in self.new lines.new.items ≡ root_in F.Family source.now) × (self.new.reach ≤ 512) × (self.new.place ≤ length source.now.row.now) × (length lines.new.items ≤ self.new.reach) × (plain ≡ true → PlainIn F.Family source.now lines.new.items)) (λ _. 512 < (root_in F.Family source.now).reach) }
        ensures capacity { vec_capacity lines.new ≡ vec_capacity lines.old }
    {
        let (mut innermost, plain) = self.start(source, lines);
        while self.reach <= MOST_LINES {
            let Some(f) = innermost else {
                return Ok(plain);
            };
            innermost = self.step(source, lines, f);
        }
        Err(Full)
    }

    // The lines of the row itself, behind those of the root: bytes left are scrap, and a fault if the root ended unbroken.
    fn end_row<F: Family>(&mut self, source: &Source<F>, lines: &mut Vec<Line>)
        requires room { vec_len lines.old + 2 ≤ vec_capacity lines.old }
        requires low { length lines.old.items ≤ self.old.reach }
        ensures lines { lines.new.items ≡ lines.old.items ++ row_lines (broke self.old.told) self.old.place (length source.now.row.now) }
        ensures reach { self.new.reach ≡ raised lines.old.items (length (row_lines (broke self.old.told) self.old.place (length source.now.row.now))) self.old.reach }
        ensures capacity { vec_capacity lines.new ≡ vec_capacity lines.old }
    {
        let start = self.place;
        let end = source.row.len();
        let broke = matches!(self.told, Told::Fault | Told::Seek | Told::Skip);
        if !broke && start < end {
            self.write(
                lines,
                Line {
                    node: 0,
                    outcome: Outcome::SyntaxFault,
                    start,
                    length: 0,
                    number: 6,
                },
            );
        }
        self.write_scrap(lines, 0, end);
    }

    // Writes the lines of a row's report, and tells whether all are plain; or more lines would have to stand at one time than may.
    fn write_lines<F: Family>(
        &mut self,
        source: &Source<F>,
        lines: &mut Vec<Line>,
    ) -> Result<bool, Full>
        requires bytes { Bytes source.now.row.now }
        requires none { lines.old.items ≡ [] }
        requires room { 514 ≤ vec_capacity lines.old }
        ensures cases { MatchResult result (λ plain. (lines.new.items ≡ (whole_in F.Family source.now).lines) × ((whole_in F.Family source.now).reach ≤ 512) × (length lines.new.items ≤ 512) × (plain ≡ true → PlainIn F.Family source.now lines.new.items)) (λ _. 512 < (whole_in F.Family source.now).reach) }
        ensures capacity { vec_capacity lines.new ≡ vec_capacity lines.old }
    {
        let plain = self.read_root(source, lines)?;
        let all_read = source.row.len() <= self.place;
        self.end_row(source, lines);
        if self.reach > MOST_LINES {
            return Err(Full);
        }
        Ok(plain && all_read)
    }

    // The same, and where it may not be, no line is left.
    fn read_lines<F: Family>(
        &mut self,
        source: &Source<F>,
        lines: &mut Vec<Line>,
    ) -> Result<bool, Refusal>
        requires bytes { Bytes source.now.row.now }
        requires none { lines.old.items ≡ [] }
        requires room { 514 ≤ vec_capacity lines.old }
        ensures cases { MatchResult result (λ plain. (lines.new.items ≡ (whole_in F.Family source.now).lines) × ((whole_in F.Family source.now).reach ≤ 512) × (length lines.new.items ≤ 512) × (plain ≡ true → PlainIn F.Family source.now lines.new.items)) (λ e. (e ≡ TooManyLines) × (512 < (whole_in F.Family source.now).reach) × (lines.new.items ≡ [])) }
        ensures capacity { vec_capacity lines.new ≡ vec_capacity lines.old }
    {
        match self.write_lines(source, lines) {
            Ok(plain) => Ok(plain),
            Err(Full) => {
                lines.clear();
                Err(Refusal::TooManyLines)
            }
        }
    }

    // A reader, with memory for the open nodes of any layout.
    pub fn new(heap: Global) -> Result<Reader, AllocError> {
        let stack = Vec::with_capacity(heap, DEEPEST)?;
        Ok(Reader {
            stack,
            place: 0,
            told: Told::Begin,
            reach: 0,
        })
    }

    // Makes the report of a row under a layout and a family, or refuses the row and leaves the report cleared.
    fn read_row<F: Family>(
        &mut self,
        layout: &Layout,
        family: &F,
        row: &[u8],
        report: &mut Report,
    ) -> Result<(), Refusal>
        ensures value { result ≡ answer (refusal (F.Family.means family.now) layout.now.nodes.items layout.now.constants.items row.now) }
        ensures after { MatchResult result (λ _. Made (F.Family.means family.now) layout.now.nodes.items layout.now.constants.items row.now report.new) (λ _. Cleared report.new) }
        ensures room { room_of report.new ≡ room_of report.old }
    {
        report.clear();
        if is_too_long(row) {
            return Err(Refusal::RowTooLong);
        }
        let source = Source {
            layout,
            family,
            row,
        };
        let plain = self.read_lines(&source, &mut report.lines)?;
        report.faults = source.sum_up(&report.lines, plain, &mut report.text);
        report.row_length = row.len();
        Ok(())
    }

    // Makes the report of a row under a layout and a family, with the length of the frame that a rule has for it under its mark; or refuses the row and leaves the report cleared. It takes no memory.
    pub fn read_framed<R: RowRule, F: Family>(
        &mut self,
        rule: &R,
        layout: &Layout,
        family: &F,
        row: &[u8],
        mark: Mark,
        report: &mut Report,
    ) -> Result<(), Refusal>
        ensures value { result ≡ answer (refusal (F.Family.means family.now) layout.now.nodes.items layout.now.constants.items row.now) }
        ensures after { MatchResult result (λ _. Framed (R.RowRule.means rule.now).frame (F.Family.means family.now) layout.now.nodes.items layout.now.constants.items row.now mark report.new) (λ _. Cleared report.new) }
        ensures clean { OnOk result ((report.new.faults ≡ 0) ↔ (meets (F.Family.means family.now) layout.now.nodes.items layout.now.constants.items row.now ≡ true)) }
        ensures room { room_of report.new ≡ room_of report.old }
    {
        self.read_row(layout, family, row, report)?;
        report.frame_length = rule.frame_length(row, mark);
        Ok(())
    }
}
