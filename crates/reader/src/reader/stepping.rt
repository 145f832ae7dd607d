// Reading on, with the innermost open node held beside the list of those around it: the fields and marks at a row's beginning straight on, all else turn by turn.
ghost use Rattle.std.specs.Prelude.{◌≡◌, ◌∷◌, ◌≤◌, ◌-◌, [], Some, None, true, false, pos, max, vec_capacity, MatchOption};
ghost use Rattle.fields.specs.Laws.{Bytes};
ghost use Rattle.report.specs.declared.outcome.Outcome.TheVariants.{Good};
ghost use Rattle.report.specs.Lines.{line};
ghost use Rattle.report.specs.Printing.{share_of};

use crate::open::{Open, Told, Way};
use crate::reader::Reader;
use crate::source::{Leaf, Source};
use fields::family::Family;
use layout::node::Shape;
use report::line::Line;
use report::outcome::Outcome;
use store::memory::made::MOST_LINES;

impl Reader {
    ghost use Rattle.reader.specs.declared.open.Way.TheVariants.{Sequence};
    ghost use Rattle.reader.specs.declared.open.Told.TheVariants.{Clean};
    ghost use Rattle.reader.specs.Models.{ReadyFor, broke, nodes_of, state_in, node_in, turned_in, under_node, innermost_in};
    ghost use Rattle.reader.specs.Resuming.{GoingIn};
    ghost use Rattle.reader.specs.Plain.{PlainIn};

    // The turn of an open sequence whose next part is a field or a mark: that part is read, and the sequence behind it is handed out. In any other case nothing is done.
    #[inline(always)]
    fn next_leaf<F: Family>(
        &mut self,
        source: &Source<F>,
        lines: &mut Vec<Line>,
        f: Open,
    ) -> Option<Open>
        requires ready { ReadyFor source.now f self.old lines.old.items (vec_capacity lines.old) }
        ensures after { MatchOption result ((self.new ≡ self.old) × (lines.new ≡ lines.old)) (λ g. under_node (node_in source.now g) (state_in source.now self.new lines.new.items) ≡ turned_in F.Family source.now f (state_in source.now self.old lines.old.items)) }
        ensures capacity { vec_capacity lines.new ≡ vec_capacity lines.old }
    {
        if f.way != Way::Sequence || self.told.broke() {
            return None;
        }
        let part = f.rest?;
        let place = self.place;
        let reading = match source.layout.node(part).shape {
            Shape::Field { kind, .. } => source.read_field(kind, place),
            Shape::Mark { byte } => source.read_mark(byte, place),
            _ => return None,
        };
        let behind = source.behind(f, part, f.branch);
        self.begin_leaf(lines, part, reading);
        Some(behind)
    }

    // The part that was read last ended at a place; so many lines stand.
    #[inline(always)]
    fn go_to(&mut self, place: usize, standing: usize)
        ensures { (self.new.stack ≡ self.old.stack) × (self.new.place ≡ place) × (self.new.told ≡ Clean) × (self.new.reach ≡ max self.old.reach standing) }
    {
        self.place = place;
        self.told = Told::Clean;
        self.reach = self.reach.max(standing);
    }

    // The parts that come next in an open sequence are read, one turn each, as long as they are fields and marks, none faults and a line more may stand; and whether all their lines are plain. (Over variables of its own: an open node would be packed and unpacked for each part.)
    #[inline(always)]
    fn read_leaves<F: Family>(
        &mut self,
        source: &Source<F>,
        lines: &mut Vec<Line>,
        f: Open,
    ) -> (Open, bool)
        requires bytes { Bytes source.now.row.now }
        requires going { GoingIn F.Family source.now (under_node (node_in source.now f) (state_in source.now self.old lines.old.items)) }
        requires room { 514 ≤ vec_capacity lines.old }
        ensures going { GoingIn F.Family source.now (under_node (node_in source.now result.0) (state_in source.now self.new lines.new.items)) }
        ensures plain { result.1 ≡ true → PlainIn F.Family source.now lines.old.items → PlainIn F.Family source.now lines.new.items }
        ensures capacity { vec_capacity lines.new ≡ vec_capacity lines.old }
    {
        if f.way != Way::Sequence || self.told.broke() {
            return (f, false);
        }
        let mut place = self.place;
        let mut last = f.last;
        let mut rest = f.rest;
        let mut plain = true;
        while lines.len() < MOST_LINES {
            let Some(part) = rest else {
                break;
            };
            let Some(
                Leaf {
                    reading,
                    keeps,
                    next,
                },
            ) = source.leaf(part, place)
            else {
                break;
            };
            let Ok((length, number)) = reading else {
                self.go_to(place, lines.len());
                let behind = source.behind(f.moved(last, rest, f.branch), part, f.branch);
                self.begin_leaf(lines, part, reading);
                return (behind, false);
            };
            lines.push_reserved(Line {
                node: part,
                outcome: Outcome::Good,
                start: place,
                length,
                number,
            });
            place += length;
            last = part;
            rest = next;
            plain = plain && !keeps;
        }
        self.go_to(place, lines.len());
        (f.moved(last, rest, f.branch), plain)
    }

    // Whether nothing is left of a sequence with no node around it, and no part of it broke last.
    fn is_at_end<F: Family>(&self, source: &Source<F>, f: Open) -> bool
        ensures { result ≡ true → (f.way ≡ Sequence) × (f.rest ≡ None) × (self.now.stack.items ≡ []) × (broke self.now.told ≡ false) × (share_of (F.Family.means source.now.family.now) (nodes_of source.now) (line f.node Good f.start (self.now.place - f.start) (pos 0)) ≡ 0) }
    {
        let Shape::Sequence { .. } = source.layout.node(f.node).shape else {
            return false;
        };
        f.way == Way::Sequence && f.rest.is_none() && self.stack.is_empty() && !self.told.broke()
    }

    // A sequence with no node around it, as the root is, where its parts are read straight to its end, is closed without going over its lines again, which all are plain. Else it is handed out as far as it is read.
    #[inline(always)]
    pub(crate) fn read_straight<F: Family>(
        &mut self,
        source: &Source<F>,
        lines: &mut Vec<Line>,
        f: Open,
    ) -> (Option<Open>, bool)
        requires bytes { Bytes source.now.row.now }
        requires going { GoingIn F.Family source.now (under_node (node_in source.now f) (state_in source.now self.old lines.old.items)) }
        requires plain { PlainIn F.Family source.now lines.old.items }
        requires room { 514 ≤ vec_capacity lines.old }
        ensures going { GoingIn F.Family source.now (innermost_in source.now result.0 (state_in source.now self.new lines.new.items)) }
        ensures plain { result.1 ≡ true → (result.0 ≡ None) × PlainIn F.Family source.now lines.new.items }
        ensures capacity { vec_capacity lines.new ≡ vec_capacity lines.old }
    {
        let (f, plain) = self.read_leaves(source, lines, f);
        if plain && self.is_at_end(source, f) {
            self.complete(lines, f, Outcome::Good, 0);
            self.told = Told::Clean;
            return (None, true);
        }
        (Some(f), false)
    }

    // One turn of f, which is the innermost open node; the one that is it then is handed out.
    pub(crate) fn step<F: Family>(
        &mut self,
        source: &Source<F>,
        lines: &mut Vec<Line>,
        f: Open,
    ) -> Option<Open>
        requires ready { ReadyFor source.now f self.old lines.old.items (vec_capacity lines.old) }
        ensures after { innermost_in source.now result (state_in source.now self.new lines.new.items) ≡ turned_in F.Family source.now f (state_in source.now self.old lines.old.items) }
        ensures capacity { vec_capacity lines.new ≡ vec_capacity lines.old }
    {
        if let Some(behind) = self.next_leaf(source, lines, f) {
            return Some(behind);
        }
        self.turn(source, lines, f);
        self.stack.pop()
    }
}
