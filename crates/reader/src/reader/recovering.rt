// How an open sequence goes on after a break.
ghost use Rattle.std.specs.Prelude.{◌≡◌, ◌≤◌, ◌<◌, Some, vec_len, vec_capacity, length};
ghost use Rattle.std.specs.Option.{unwrap_or};
ghost use Rattle.layout.specs.Trees.{node_at};
ghost use Rattle.report.specs.Leaves.{first_from};

use crate::open::{Open, Told};
use crate::reader::Reader;
use crate::source::Source;
use fields::family::Family;
use layout::node::Shape;
use report::line::Line;
use report::outcome::Outcome;

impl Reader {
    ghost use Rattle.reader.specs.Models.{ReadyFor, state_in, nodes_of, mended_in, passed_in, sought_in, skipped_in, marked_in};

    // The sought mark of a node is found, and reading goes on with `met`; or it is nowhere.
    fn seek_mark<F: Family>(
        &mut self,
        source: &Source<F>,
        lines: &mut Vec<Line>,
        f: Open,
        met: Open,
        node: u16,
        byte: u8,
    )
        requires ready { ReadyFor source.now f self.old lines.old.items (vec_capacity lines.old) }
        ensures after { state_in source.now self.new lines.new.items ≡ marked_in source.now node f met (first_from source.now.row.now byte self.old.place) (state_in source.now self.old lines.old.items) }
        ensures capacity { vec_capacity lines.new ≡ vec_capacity lines.old }
    {
        let Some(at) = source.find(byte, self.place) else {
            self.stack.push_reserved(f);
            self.told = Told::Skip;
            return;
        };
        self.write_scrap(lines, node, at);
        self.write(
            lines,
            Line {
                node,
                outcome: Outcome::Good,
                start: at,
                length: 1,
                number: 0,
            },
        );
        self.stack.push_reserved(met);
        self.place = at + 1;
        self.told = Told::Clean;
    }

    // The part that was read last broke: if it is a mark, it is sought.
    pub(crate) fn mend<F: Family>(&mut self, source: &Source<F>, lines: &mut Vec<Line>, f: Open)
        requires ready { ReadyFor source.now f self.old lines.old.items (vec_capacity lines.old) }
        ensures after { state_in source.now self.new lines.new.items ≡ mended_in F.Family source.now f (state_in source.now self.old lines.old.items) }
        ensures capacity { vec_capacity lines.new ≡ vec_capacity lines.old }
    {
        match source.layout.node(f.last).shape {
            Shape::Mark { byte } => self.seek_mark(source, lines, f, f, f.last, byte),
            _ => {
                self.stack.push_reserved(f);
                self.told = Told::Seek;
            }
        }
    }

    // A part is passed over; `rest` is the first of those behind it.
    fn pass<F: Family>(
        &mut self,
        source: &Source<F>,
        lines: &mut Vec<Line>,
        f: Open,
        part: u16,
        told: Told,
    )
        requires ready { ReadyFor source.now f self.old lines.old.items (vec_capacity lines.old) }
        requires next { f.rest ≡ Some part }
        ensures after { state_in source.now self.new lines.new.items ≡ passed_in F.Family source.now told f part (state_in source.now self.old lines.old.items) }
        ensures capacity { vec_capacity lines.new ≡ vec_capacity lines.old }
    {
        let start = self.place;
        self.write(
            lines,
            Line {
                node: part,
                outcome: Outcome::Skipped,
                start,
                length: 0,
                number: 0,
            },
        );
        self.stack.push_reserved(source.behind(f, part, f.branch));
        self.told = told;
    }

    // The next part while a mark is sought, or the sequence breaks.
    pub(crate) fn next_sought<F: Family>(
        &mut self,
        source: &Source<F>,
        lines: &mut Vec<Line>,
        f: Open,
    )
        requires ready { ReadyFor source.now f self.old lines.old.items (vec_capacity lines.old) }
        ensures after { state_in source.now self.new lines.new.items ≡ sought_in F.Family source.now f (state_in source.now self.old lines.old.items) }
        ensures capacity { vec_capacity lines.new ≡ vec_capacity lines.old }
    {
        let Some(part) = f.rest else {
            self.shut(lines, f);
            self.told = Told::Fault;
            return;
        };
        match source.layout.node(part).shape {
            Shape::Mark { byte } => {
                let met = source.behind(f, part, f.branch);
                self.seek_mark(source, lines, f, met, part, byte);
            }
            _ => self.pass(source, lines, f, part, Told::Seek),
        }
    }

    // The next part once the sought mark was nowhere, or the sequence breaks.
    pub(crate) fn next_skipped<F: Family>(
        &mut self,
        source: &Source<F>,
        lines: &mut Vec<Line>,
        f: Open,
    )
        requires ready { ReadyFor source.now f self.old lines.old.items (vec_capacity lines.old) }
        ensures after { state_in source.now self.new lines.new.items ≡ skipped_in F.Family source.now f (state_in source.now self.old lines.old.items) }
        ensures capacity { vec_capacity lines.new ≡ vec_capacity lines.old }
    {
        let Some(part) = f.rest else {
            self.shut(lines, f);
            self.told = Told::Fault;
            return;
        };
        self.pass(source, lines, f, part, Told::Skip);
    }
}
