// What the calls on an import answer.
use crate::refusal::Refusal;
use crate::slip::Slip;
use rows::piece::Mark;

// A row that was handed out: its slip, its place in the file, and its mark.
#[derive(PartialEq, Eq, Debug)]
pub struct Opened {
    pub slip: Slip,
    pub start: usize,
    pub length: usize,
    pub mark: Mark,
}

// What next answers when it is not refused.
#[derive(PartialEq, Eq, Debug)]
pub enum Next {
    // The next row of the file is open now.
    Row(Opened),
    // No row is left.
    End,
}

// How many rows were opened, and how many of them were filed in each way. One record, since other things will come to be counted.
#[derive(Clone, Copy, PartialEq, Eq, Debug)]
pub struct Counts {
    pub opened: u32,
    pub kept: u32,
    pub set_aside: u32,
}

// How a resent export differs from the first.
#[derive(Clone, Copy, PartialEq, Eq, Debug)]
pub enum Difference {
    // The row has another report.
    Report,
    // The row has the same report and another mark.
    Mark,
    // The first export has no such row.
    MissingInFirst,
    // The resent export has no such row.
    MissingInResent,
    // Behind all rows another tail follows.
    Tail,
}

// What matching a resent export against the first comes to: the same, or the number of the first row that differs, and how. A tail that differs is told with the number behind the last row's.
#[derive(Clone, Copy, PartialEq, Eq, Debug)]
pub enum Matched {
    Same,
    Differs { row: u32, how: Difference },
}

// Which of the two exports of a match.
#[derive(Clone, Copy, PartialEq, Eq, Debug)]
pub enum Side {
    First,
    Resent,
}

// Why two exports are not matched.
#[derive(Clone, Copy, PartialEq, Eq, Debug)]
pub enum Unmatched {
    // The export of that side is not taken: it is too long, or the layout file is refused.
    NotTaken { side: Side, why: Refusal },
    // The read of that row of that side is refused.
    Unread { side: Side, row: u32, why: Refusal },
}

impl Unmatched {
    ghost use Rattle.std.specs.Prelude.{◌≡◌};
    ghost use Rattle.import.specs.Answers.{number_of_unmatched};

    // The number of the refusal.
    pub fn number(self) -> u8
        ensures { result ≡ number_of_unmatched self }
    {
        match self {
            Unmatched::NotTaken { side: _, why } => why.number(),
            Unmatched::Unread {
                side: _,
                row: _,
                why,
            } => why.number(),
        }
    }
}
