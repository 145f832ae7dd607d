// Where an import stands between two calls, and how a row is filed.
use rows::piece::Mark;

// Next, read, keep, set aside and closing each have their moment.
#[derive(Clone, Copy, PartialEq, Eq, Debug)]
pub enum Stage {
    // No file was ever taken.
    Empty,
    // No row is open.
    Between,
    // A row is open, and was not read: its place in the file, and its mark.
    Unread {
        start: usize,
        length: usize,
        mark: Mark,
    },
    // A row is open, and its report stands.
    Read,
    // No row is left: the place of the tail.
    End {
        start: usize,
        length: usize,
    },
}

// How an open row is filed.
#[derive(Clone, Copy, PartialEq, Eq, Debug)]
pub enum How {
    Kept,
    SetAside,
}

// Where a row stands in the file, and its mark.
#[derive(Clone, Copy, PartialEq, Eq, Debug)]
pub(crate) struct Place {
    pub(crate) start: usize,
    pub(crate) length: usize,
    pub(crate) mark: Mark,
}
