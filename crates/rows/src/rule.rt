// A row rule: what it means, what it owes, and the calls on it.
ghost use Rattle.std.specs.Prelude.{◌≡◌, ℕ, List, length};
ghost use Rattle.rows.specs.Cuts.{Cut};
ghost use Rattle.rows.specs.Frames.{measured, framed};
ghost use Rattle.rows.specs.Rules.{Meaning, Lawful};
ghost use Rattle.rows.specs.Steps.{SetOn, Asked};
ghost use Rattle.rows.specs.Told.{told};

use crate::piece::{Mark, Piece};
use crate::refusal::Refusal;

// The rules of this crate state the clauses of `set` and `next` once more, in their own definitions, so that their ghost members cannot drift.
pub trait RowRule {
    // how the rule cuts any file, and its frames and carried rows: its fixed part, the same at every moment
    ghost means: { Self → Meaning };

    // the rows of a file still to come at this moment, and the tail
    ghost ahead: { Self → List ℕ → Cut };

    // Sets the rule on a file: all its rows are to come.
    fn set(&mut self, file: &[u8])
        ensures { SetOn file.now (means self.old) (means self.new) (ahead self.new) };

    // The next piece: the first row to come, which is then handed out, or else the tail, which changes nothing.
    fn next<'f>(&mut self, file: &'f [u8]) -> Piece<'f>
        ensures { Asked file.now (told result) (means self.old) (means self.new) (ahead self.old) (ahead self.new) };

    // Whether the rule carries a row under a mark. (A row and its mark stay two arguments: a frame is made of a row that lies in a buffer, where there is no slice to put beside the mark.)
    fn carries(&self, row: &[u8], mark: Mark) -> bool
        ensures { result ≡ (means self.now).carries row.now mark };

    // The length of a row's frame.
    fn frame_length(&self, row: &[u8], mark: Mark) -> usize
        ensures { result ≡ measured (length ((means self.now).frame row.now mark)) };

    // Turns the row in a buffer's first `length` bytes into its frame, at the buffer's beginning, and answers the frame's length. It works in place: the caller's buffer is the only memory.
    fn frame_in(&self, buffer: &mut [u8], length: usize, mark: Mark) -> Result<usize, Refusal>
        ensures { (result, buffer.new) ≡ framed (λ row. (means self.now).frame row mark) length buffer.old };

    ghost lawful: { (s : Self) → Lawful (means s) };
}
