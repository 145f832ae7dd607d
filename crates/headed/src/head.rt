// The header rule: one row behind a header of four bytes 00.
ghost use Rattle.std.specs.Prelude.{◌≡◌, false};
ghost use Rattle.headed.specs.Heads.{headed_from, headed_meaning};
ghost use Rattle.headed.specs.HeadCuts.{headed_lawful};

use rows::piece::{Mark, Piece};
use rows::refusal::Refusal;
use rows::rule::RowRule;

// The length of a header.
pub const HEADER: usize = 4;

// `done` tells whether the row was handed out: two states with nothing beside them, so that an enum would be no plainer.
#[derive(Clone, Copy)]
pub struct Headed {
    done: bool,
}

impl Headed {
    // The rule before its row.
    pub fn new() -> Headed
        ensures { result.done ≡ false }
    {
        Headed { done: false }
    }
}

impl RowRule for Headed {
    ghost means = { λ _. headed_meaning };

    ghost ahead = { λ s. headed_from s.done };

    ghost lawful = { λ _. headed_lawful };

    fn set(&mut self, _file: &[u8]) {
        self.done = false;
    }

    fn next<'f>(&mut self, file: &'f [u8]) -> Piece<'f> {
        match file.strip_prefix(&[0; HEADER]) {
            None => Piece::tail_from(file, 0),
            Some(_) if self.done => Piece::tail_from(file, file.len()),
            Some(row) => {
                self.done = true;
                Piece::Row {
                    start: HEADER,
                    bytes: row,
                    mark: Mark::Ended,
                }
            }
        }
    }

    fn carries(&self, _row: &[u8], mark: Mark) -> bool {
        mark == Mark::Ended
    }

    fn frame_length(&self, row: &[u8], _mark: Mark) -> usize {
        row.len().saturating_add(HEADER)
    }

    fn frame_in(&self, buffer: &mut [u8], length: usize, _mark: Mark) -> Result<usize, Refusal> {
        let end = length.saturating_add(HEADER);
        if end > buffer.len() {
            return Err(Refusal::BufferTooShort);
        }
        buffer[..end].rotate_right(HEADER);
        buffer[..HEADER].fill(0);
        Ok(end)
    }
}
