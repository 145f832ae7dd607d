// What cutting hands out: a row under its mark, or the tail.
ghost use Rattle.std.specs.Prelude.{◌≡◌, MatchOption};
ghost use Rattle.rows.specs.Finds.{row_of};
ghost use Rattle.rows.specs.Told.{told, row, Of, rest_at};
ghost use Rattle.rows.specs.Words.{unended, word};

use std::fmt;

// How a row ends: by what its rule asks for, or by the end of the file.
#[derive(Clone, Copy, PartialEq, Eq, Debug)]
pub enum Mark {
    Ended,
    Unended,
}

impl Mark {
    // Whether the file ended before the row did.
    pub fn is_unended(self) -> bool
        ensures { result ≡ unended self }
    {
        matches!(self, Mark::Unended)
    }

    // What a mark is called.
    pub fn word(self) -> &'static str
        ensures { result.now ≡ word self }
    {
        match self {
            Mark::Ended => "ended",
            Mark::Unended => "unended",
        }
    }
}

impl fmt::Display for Mark {
    ghost use Rattle.std.specs.Prelude.{Some};

    ghost output = { λ mark. Some (word mark) };

    fn fmt<W: fmt::Write>(&self, f: &mut fmt::Formatter<W>) -> fmt::Result {
        f.write_str(self.word())
    }
}

// A part of the file itself: a row, or the tail, which is the bytes that belong to no row.
#[derive(Clone, Copy, PartialEq, Eq, Debug)]
pub enum Piece<'f> {
    Row {
        start: usize,
        bytes: &'f [u8],
        mark: Mark,
    },
    Tail {
        start: usize,
        bytes: &'f [u8],
    },
}

// A row that a rule has found in the file, and where the next frame begins.
#[derive(Clone, Copy)]
pub(crate) struct Found<'f> {
    pub(crate) start: usize,
    pub(crate) bytes: &'f [u8],
    pub(crate) mark: Mark,
    pub(crate) next: usize,
}

impl<'f> Piece<'f> {
    // The tail from a place on, or from the file's end where that comes first.
    pub fn tail_from(file: &'f [u8], place: usize) -> Piece<'f>
        ensures tells { told result ≡ rest_at place file.now }
        ensures part { Of file.now (told result) }
    {
        let start = place.min(file.len());
        Piece::Tail {
            start,
            bytes: &file[start..],
        }
    }

    // The row found at a place, which then goes on to the next frame, or else the tail from that place. (Put where it is called: a call would hand the row on through memory.)
    #[inline(always)]
    pub(crate) fn found_at(file: &'f [u8], at: &mut usize, found: Option<Found<'f>>) -> Piece<'f>
        ensures { MatchOption found.entry ((told result ≡ rest_at at.old file.now) × (at.new ≡ at.old)) (λ f. (told result ≡ row (row_of f)) × (at.new ≡ f.next)) }
    {
        match found {
            Some(
                Found {
                    start,
                    bytes,
                    mark,
                    next,
                },
            ) => {
                *at = next;
                Piece::Row { start, bytes, mark }
            }
            None => Piece::tail_from(file, *at),
        }
    }
}
