// What the innermost open node does next.
ghost use Rattle.std.specs.Prelude.{◌≡◌, ◌+◌, ◌≤◌, ◌∷◌, ℕ, Some, vec_len, vec_capacity};
ghost use Rattle.layout.specs.Trees.{height};
ghost use Rattle.report.specs.Leaves.{first_from};

use crate::open::{Open, Told, Way};
use crate::reader::Reader;
use crate::source::Source;
use fields::family::Family;
use layout::node::Shape;
use report::line::Line;
use report::outcome::Outcome;

impl Reader {
    ghost use Rattle.reader.specs.Models.{ReadyIn, ReadyFor, state_in, part_in, begun_in, advanced_in, tried_in, branched_in, child_in, mended_in, passed_in, sought_in, skipped_in, sequence_in, trial_in, choice_in, option_in, turned_in, marked_in};

    // A node is begun, in a trial or open.
    pub(crate) fn begin<F: Family>(
        &mut self,
        source: &Source<F>,
        lines: &mut Vec<Line>,
        trial: bool,
        node: u16,
    )
        requires ready { ReadyIn source.now self.old lines.old.items (vec_capacity lines.old) }
        requires nest { vec_len self.old.stack + height (part_in source.now node) ≤ 16 }
        ensures after { state_in source.now self.new lines.new.items ≡ begun_in F.Family source.now trial node (state_in source.now self.old lines.old.items) }
        ensures capacity { vec_capacity lines.new ≡ vec_capacity lines.old }
    {
        let place = self.place;
        match source.layout.node(node).shape {
            Shape::Field { kind, .. } => self.begin_leaf(
                lines,
                node,
                source.read_field(kind, place),
            ),
            Shape::Mark { byte } => self.begin_leaf(lines, node, source.read_mark(byte, place)),
            Shape::Check {
                relation,
                left,
                right,
            } => {
                let outcome = source.check(relation, left, right, lines);
                self.begin_check(lines, trial, node, outcome);
            }
            Shape::Sequence { child } => self.open_node(
                lines,
                Way::of_sequence(trial),
                node,
                child,
            ),
            Shape::Choice { child } => self.open_node(lines, Way::Choice, node, child),
            Shape::Optional { child } => self.open_node(lines, Way::Optional, node, child),
        }
    }

    // The next part of an open node is begun.
    fn advance<F: Family>(
        &mut self,
        source: &Source<F>,
        lines: &mut Vec<Line>,
        f: Open,
        part: u16,
        branch: u16,
        trial: bool,
    )
        requires ready { ReadyFor source.now f self.old lines.old.items (vec_capacity lines.old) }
        requires next { f.rest ≡ Some part }
        requires count { branch ≤ f.branch + 1 }
        ensures after { state_in source.now self.new lines.new.items ≡ advanced_in F.Family source.now trial f part branch (state_in source.now self.old lines.old.items) }
        ensures capacity { vec_capacity lines.new ≡ vec_capacity lines.old }
    {
        self.stack.push_reserved(source.behind(f, part, branch));
        self.begin(source, lines, trial, part);
    }

    // In a trial: the next part, or the end of the node under a number.
    fn next_tried<F: Family>(
        &mut self,
        source: &Source<F>,
        lines: &mut Vec<Line>,
        f: Open,
        number: i64,
    )
        requires ready { ReadyFor source.now f self.old lines.old.items (vec_capacity lines.old) }
        ensures after { state_in source.now self.new lines.new.items ≡ tried_in F.Family source.now number f (state_in source.now self.old lines.old.items) }
        ensures capacity { vec_capacity lines.new ≡ vec_capacity lines.old }
    {
        let Some(part) = f.rest else {
            self.complete(lines, f, Outcome::Good, number);
            self.told = Told::Clean;
            return;
        };
        self.advance(source, lines, f, part, f.branch, true);
    }

    // The next branch of a choice, where all that the last one wrote is gone; with none left the choice is a fault.
    fn next_branch<F: Family>(&mut self, source: &Source<F>, lines: &mut Vec<Line>, f: Open)
        requires ready { ReadyFor source.now f self.old lines.old.items (vec_capacity lines.old) }
        ensures after { state_in source.now self.new lines.new.items ≡ branched_in F.Family source.now f (state_in source.now self.old lines.old.items) }
        ensures capacity { vec_capacity lines.new ≡ vec_capacity lines.old }
    {
        lines.truncate(f.at + 1);
        let Some(part) = f.rest else {
            self.undo(lines, f, Outcome::SyntaxFault, 5);
            self.told = Told::Fault;
            return;
        };
        self.place = f.start;
        self.advance(source, lines, f, part, f.branch + 1, true);
    }

    // The next child of an open sequence, or its end.
    fn next_child<F: Family>(&mut self, source: &Source<F>, lines: &mut Vec<Line>, f: Open)
        requires ready { ReadyFor source.now f self.old lines.old.items (vec_capacity lines.old) }
        ensures after { state_in source.now self.new lines.new.items ≡ child_in F.Family source.now f (state_in source.now self.old lines.old.items) }
        ensures capacity { vec_capacity lines.new ≡ vec_capacity lines.old }
    {
        let Some(part) = f.rest else {
            self.shut(lines, f);
            self.told = Told::Clean;
            return;
        };
        self.advance(source, lines, f, part, f.branch, false);
    }

    // A turn of a sequence that is read open.
    fn turn_sequence<F: Family>(&mut self, source: &Source<F>, lines: &mut Vec<Line>, f: Open)
        requires ready { ReadyFor source.now f self.old lines.old.items (vec_capacity lines.old) }
        ensures after { state_in source.now self.new lines.new.items ≡ sequence_in F.Family source.now f (state_in source.now self.old lines.old.items) }
        ensures capacity { vec_capacity lines.new ≡ vec_capacity lines.old }
    {
        match self.told {
            Told::Begin | Told::Clean => self.next_child(source, lines, f),
            Told::Fault => self.mend(source, lines, f),
            Told::Seek => self.next_sought(source, lines, f),
            Told::Skip => self.next_skipped(source, lines, f),
        }
    }

    // A turn of a sequence in a trial.
    fn turn_tried<F: Family>(&mut self, source: &Source<F>, lines: &mut Vec<Line>, f: Open)
        requires ready { ReadyFor source.now f self.old lines.old.items (vec_capacity lines.old) }
        ensures after { state_in source.now self.new lines.new.items ≡ trial_in F.Family source.now f (state_in source.now self.old lines.old.items) }
        ensures capacity { vec_capacity lines.new ≡ vec_capacity lines.old }
    {
        match self.told {
            Told::Begin | Told::Clean => self.next_tried(source, lines, f, 0),
            Told::Fault | Told::Seek | Told::Skip => self.told = Told::Fault,
        }
    }

    // A turn of a choice.
    fn turn_choice<F: Family>(&mut self, source: &Source<F>, lines: &mut Vec<Line>, f: Open)
        requires ready { ReadyFor source.now f self.old lines.old.items (vec_capacity lines.old) }
        ensures after { state_in source.now self.new lines.new.items ≡ choice_in F.Family source.now f (state_in source.now self.old lines.old.items) }
        ensures capacity { vec_capacity lines.new ≡ vec_capacity lines.old }
    {
        match self.told {
            Told::Clean => self.choose(lines, f),
            Told::Begin | Told::Fault | Told::Seek | Told::Skip => self.next_branch(
                source, lines, f,
            ),
        }
    }

    // A turn of an option.
    fn turn_option<F: Family>(&mut self, source: &Source<F>, lines: &mut Vec<Line>, f: Open)
        requires ready { ReadyFor source.now f self.old lines.old.items (vec_capacity lines.old) }
        ensures after { state_in source.now self.new lines.new.items ≡ option_in F.Family source.now f (state_in source.now self.old lines.old.items) }
        ensures capacity { vec_capacity lines.new ≡ vec_capacity lines.old }
    {
        match self.told {
            Told::Begin | Told::Clean => self.next_tried(source, lines, f, 1),
            Told::Fault | Told::Seek | Told::Skip => self.leave_out(lines, f),
        }
    }

    // One turn: what f, which was the innermost open node, does next.
    pub(crate) fn turn<F: Family>(&mut self, source: &Source<F>, lines: &mut Vec<Line>, f: Open)
        requires ready { ReadyFor source.now f self.old lines.old.items (vec_capacity lines.old) }
        ensures after { state_in source.now self.new lines.new.items ≡ turned_in F.Family source.now f (state_in source.now self.old lines.old.items) }
        ensures capacity { vec_capacity lines.new ≡ vec_capacity lines.old }
    {
        match f.way {
            Way::Sequence => self.turn_sequence(source, lines, f),
            Way::Tried => self.turn_tried(source, lines, f),
            Way::Choice => self.turn_choice(source, lines, f),
            Way::Optional => self.turn_option(source, lines, f),
        }
    }
}
