// The lines that a reading writes.
ghost use Rattle.std.specs.Prelude.{◌≡◌, ◌+◌, ◌<◌, ◌≤◌, ◌++◌, [], ◌∷◌, ℕ, ℤ, List, Ok, Some, length, take, vec_len, vec_capacity, vec_items, pos};
ghost use Rattle.report.specs.declared.outcome.Outcome.TheVariants.{Good, Absent};
ghost use Rattle.layout.specs.declared.node.Node.{Node};
ghost use Rattle.layout.specs.Trees.{part_at};
ghost use Rattle.std.specs.List.{list_any};
ghost use Rattle.report.specs.Outcomes.{role_of, is_fault};
ghost use Rattle.report.specs.Lines.{faults, overall, scrap};
ghost use Rattle.reader.specs.Turns.{raised, leaf_begun, check_begun, opened, completed, shut, undone, state};

use crate::open::{Open, Told, Way};
use crate::reader::Reader;
use fields::cause::Reading;
use report::line::Line;
use report::outcome::Outcome;

impl Reader {
    ghost use Rattle.reader.specs.declared.open.Told.TheVariants.{Clean};
    ghost use Rattle.reader.specs.Models.{stack_in, state_of, pending_of, parts_from, under_node};

    // One line more stands.
    pub(crate) fn write(&mut self, lines: &mut Vec<Line>, line: Line)
        requires { vec_len lines.old < vec_capacity lines.old }
        ensures lines { lines.new.items ≡ lines.old.items ++ line ∷ [] }
        ensures reach { self.new.reach ≡ raised lines.old.items 1 self.old.reach }
        ensures stays { (self.new.stack ≡ self.old.stack) × (self.new.place ≡ self.old.place) × (self.new.told ≡ self.old.told) }
        ensures capacity { vec_capacity lines.new ≡ vec_capacity lines.old }
    {
        lines.push_reserved(line);
        self.reach = self.reach.max(lines.len());
    }

    // The bytes up to a place, if there are any, are scrap before the mark of a node.
    pub(crate) fn write_scrap(&mut self, lines: &mut Vec<Line>, node: u16, end: usize)
        requires room { vec_len lines.old < vec_capacity lines.old }
        requires low { vec_len lines.old ≤ self.old.reach }
        ensures lines { lines.new.items ≡ lines.old.items ++ scrap node self.old.place end }
        ensures reach { self.new.reach ≡ raised lines.old.items (length (scrap node self.old.place end)) self.old.reach }
        ensures stays { (self.new.stack ≡ self.old.stack) × (self.new.place ≡ self.old.place) × (self.new.told ≡ self.old.told) }
        ensures capacity { vec_capacity lines.new ≡ vec_capacity lines.old }
    {
        let start = self.place;
        if start < end {
            self.write(
                lines,
                Line {
                    node,
                    outcome: Outcome::Scrap,
                    start,
                    length: end - start,
                    number: 0,
                },
            );
        }
    }

    // A field or a mark is read, or faults.
    pub(crate) fn begin_leaf(&mut self, lines: &mut Vec<Line>, node: u16, reading: Reading)
        requires room { vec_len lines.old < vec_capacity lines.old }
        requires fits { (x : ℕ × ℤ) → reading ≡ Ok x → self.old.place + x.0 < 18446744073709551616 }
        ensures after { (nodes : List Node) (constants : List ℤ) → state_of nodes constants self.new lines.new.items ≡ leaf_begun node (stack_in nodes constants self.old) lines.old.items self.old.place self.old.reach reading }
        ensures capacity { vec_capacity lines.new ≡ vec_capacity lines.old }
    {
        let start = self.place;
        match reading {
            Ok((length, number)) => {
                self.write(
                    lines,
                    Line {
                        node,
                        outcome: Outcome::Good,
                        start,
                        length,
                        number,
                    },
                );
                self.place += length;
                self.told = Told::Clean;
            }
            Err(cause) => {
                let number = i64::from(cause.number());
                self.write(
                    lines,
                    Line {
                        node,
                        outcome: Outcome::SyntaxFault,
                        start,
                        length: 0,
                        number,
                    },
                );
                self.told = Told::Fault;
            }
        }
    }

    // A check is decided; in a trial one that fails gives up.
    pub(crate) fn begin_check(
        &mut self,
        lines: &mut Vec<Line>,
        trial: bool,
        node: u16,
        outcome: Outcome,
    )
        requires { vec_len lines.old < vec_capacity lines.old }
        ensures after { (nodes : List Node) (constants : List ℤ) → state_of nodes constants self.new lines.new.items ≡ check_begun trial node (stack_in nodes constants self.old) lines.old.items self.old.place self.old.reach outcome }
        ensures capacity { vec_capacity lines.new ≡ vec_capacity lines.old }
    {
        let start = self.place;
        self.write(
            lines,
            Line {
                node,
                outcome,
                start,
                length: 0,
                number: 0,
            },
        );
        self.told = if trial && outcome.is_fault() {
            Told::Fault
        } else {
            Told::Clean
        };
    }

    // A node with parts is opened, and held beside the list of open nodes.
    pub(crate) fn hold_node(
        &mut self,
        lines: &mut Vec<Line>,
        way: Way,
        node: u16,
        child: u16,
    ) -> Open
        requires room { vec_len lines.old < vec_capacity lines.old }
        requires some { 0 < child }
        ensures after { (nodes : List Node) (constants : List ℤ) → under_node (pending_of nodes constants result) (state_of nodes constants self.new lines.new.items) ≡ opened way node (part_at nodes constants node) (parts_from nodes constants (Some child)) (stack_in nodes constants self.old) lines.old.items self.old.place self.old.reach }
        ensures stays { self.new.stack ≡ self.old.stack }
        ensures capacity { vec_capacity lines.new ≡ vec_capacity lines.old }
    {
        let start = self.place;
        let at = lines.len();
        self.write(
            lines,
            Line {
                node,
                outcome: Outcome::Good,
                start,
                length: 0,
                number: 0,
            },
        );
        self.told = Told::Begin;
        Open {
            way,
            node,
            at,
            start,
            last: node,
            rest: Some(child),
            branch: 0,
        }
    }

    // A node with parts is opened.
    pub(crate) fn open_node(&mut self, lines: &mut Vec<Line>, way: Way, node: u16, child: u16)
        requires room { vec_len lines.old < vec_capacity lines.old }
        requires nest { vec_len self.old.stack < vec_capacity self.old.stack }
        requires some { 0 < child }
        ensures after { (nodes : List Node) (constants : List ℤ) → state_of nodes constants self.new lines.new.items ≡ opened way node (part_at nodes constants node) (parts_from nodes constants (Some child)) (stack_in nodes constants self.old) lines.old.items self.old.place self.old.reach }
        ensures capacity { vec_capacity lines.new ≡ vec_capacity lines.old }
    {
        let f = self.hold_node(lines, way, node, child);
        self.stack.push_reserved(f);
    }

    // The line of an open node is completed.
    pub(crate) fn complete(&self, lines: &mut Vec<Line>, f: Open, outcome: Outcome, number: i64)
        requires line { f.at < vec_len lines.old }
        requires began { f.start ≤ self.now.place }
        ensures after { (nodes : List Node) (constants : List ℤ) → lines.new.items ≡ completed (pending_of nodes constants f) lines.old.items self.now.place outcome number }
        ensures capacity { vec_capacity lines.new ≡ vec_capacity lines.old }
    {
        lines[f.at] = Line {
            node: f.node,
            outcome,
            start: f.start,
            length: self.place - f.start,
            number,
        };
    }

    // That of a sequence, which tells whether a fault is below it.
    pub(crate) fn shut(&self, lines: &mut Vec<Line>, f: Open)
        requires line { f.at < vec_len lines.old }
        requires began { f.start ≤ self.now.place }
        ensures after { (nodes : List Node) (constants : List ℤ) → lines.new.items ≡ shut (pending_of nodes constants f) lines.old.items self.now.place }
        ensures capacity { vec_capacity lines.new ≡ vec_capacity lines.old }
    {
        let outcome = outcome_above(&lines[f.at + 1..]);
        self.complete(lines, f, outcome, 0);
    }

    // What was read under an open node is taken back, for a line of its own.
    pub(crate) fn undo(&mut self, lines: &mut Vec<Line>, f: Open, outcome: Outcome, number: i64)
        requires line { f.at < vec_len lines.old }
        ensures after { (nodes : List Node) (constants : List ℤ) → lines.new.items ≡ undone (pending_of nodes constants f) lines.old.items outcome number }
        ensures place { self.new.place ≡ f.start }
        ensures stays { (self.new.stack ≡ self.old.stack) × (self.new.told ≡ self.old.told) × (self.new.reach ≡ self.old.reach) }
        ensures capacity { vec_capacity lines.new ≡ vec_capacity lines.old }
    {
        lines.truncate(f.at);
        lines.push_reserved(Line {
            node: f.node,
            outcome,
            start: f.start,
            length: 0,
            number,
        });
        self.place = f.start;
    }

    // A choice has taken the branch that it began last.
    pub(crate) fn choose(&mut self, lines: &mut Vec<Line>, f: Open)
        requires line { f.at < vec_len lines.old }
        requires began { f.start ≤ self.old.place }
        ensures after { (nodes : List Node) (constants : List ℤ) → state_of nodes constants self.new lines.new.items ≡ state (stack_in nodes constants self.old) (completed (pending_of nodes constants f) lines.old.items self.old.place Good (pos f.branch)) self.old.place Clean self.old.reach }
        ensures capacity { vec_capacity lines.new ≡ vec_capacity lines.old }
    {
        self.complete(lines, f, Outcome::Good, i64::from(f.branch));
        self.told = Told::Clean;
    }

    // An option whose part is given up is absent.
    pub(crate) fn leave_out(&mut self, lines: &mut Vec<Line>, f: Open)
        requires line { f.at < vec_len lines.old }
        ensures after { (nodes : List Node) (constants : List ℤ) → state_of nodes constants self.new lines.new.items ≡ state (stack_in nodes constants self.old) (undone (pending_of nodes constants f) lines.old.items Absent (pos 0)) f.start Clean self.old.reach }
        ensures capacity { vec_capacity lines.new ≡ vec_capacity lines.old }
    {
        self.undo(lines, f, Outcome::Absent, 0);
        self.told = Told::Clean;
    }
}

// Whether a line is a fault.
fn any_fault(lines: &[Line]) -> bool
    ensures { result ≡ list_any (λ l. is_fault (role_of l.outcome)) lines.now }
{
    lines.iter().any(|line| line.outcome.is_fault())
}

// The outcome of a sequence with these lines below it.
#[tactic(auto, using(crate::proofs::Faults::overall_is))]
fn outcome_above(lines: &[Line]) -> Outcome
    ensures { result ≡ overall (faults lines.now) }
{
    if any_fault(lines) {
        Outcome::FaultBelow
    } else {
        Outcome::Good
    }
}
