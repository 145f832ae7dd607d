// The lines of a report.
use crate::outcome::Outcome;

// What became of one node: where in the row it begins, how many bytes it covers, and a number that the node's shape gives a meaning.
#[derive(Clone, Copy, PartialEq, Eq, Debug)]
pub struct Line {
    // 0 for the row as a whole: a report's lines are told in these numbers, and the rules speak of node 0
    pub node: u16,
    pub outcome: Outcome,
    pub start: usize,
    pub length: usize,
    // a field's number, the branch or the part that was taken, or a cause: one number in every line, as the rules of reading and the records of a report have it (docs/REPORTS.md)
    pub number: i64,
}
