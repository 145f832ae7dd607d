// The fixed width rule: each so many bytes are a row.
ghost use Rattle.std.specs.Prelude.{◌≡◌, ℕ, ◌≤◌, List, IfOk, MatchResult};
ghost use Rattle.rows.specs.Finds.{Finds};
ghost use Rattle.rows.specs.Steps.{SetOn, Asked};
ghost use Rattle.rows.specs.Told.{told};
ghost use Rattle.rows.specs.declared.refusal.Refusal.TheVariants.{OutOfRange};
ghost use Rattle.rows.specs.Widths.{fixed_at, fixed_meaning};
ghost use Rattle.rows.specs.Words.{FixedRows};
ghost use Rattle.rows.specs.WidthCuts.{fixed_lawful};

use crate::frames::row_and;
use crate::piece::{Found, Mark, Piece};
use crate::refusal::Refusal;
use crate::rule::RowRule;

// The greatest width of a row.
pub const WIDEST: usize = 4_096;

// A width of 1 to 4,096 bytes, and `at`, where the first row to come begins.
#[derive(Clone, Copy)]
pub struct FixedWidth {
    width: usize,
    at: usize,
    ghost in_range: { (1 ≤ width) × (width ≤ 4096) },
}

impl FixedWidth {
    // The rule before its first row, or a refusal of the width. Of every file it cuts the rows that the clause `words` tells.
    pub fn new(width: usize) -> Result<FixedWidth, Refusal>
        ensures value { MatchResult result (λ f. (f.width ≡ width) × (f.at ≡ 0)) (λ e. (e ≡ OutOfRange) × ((1 ≤ width) × (width ≤ 4096) → ⊥)) }
        ensures words { IfOk result (λ f. (file : List ℕ) → FixedRows f.width file) }
    {
        if width == 0 || width > WIDEST {
            return Err(Refusal::OutOfRange);
        }
        Ok(FixedWidth { width, at: 0 })
    }

    // The row to come, or none where fewer bytes than the width are left.
    fn row_at<'f>(&self, file: &'f [u8]) -> Option<Found<'f>>
        ensures { Finds (fixed_at self.now.width) self.now.at file.now result }
    {
        let bytes = file.get(self.at..)?.get(..self.width)?;
        Some(Found {
            start: self.at,
            bytes,
            mark: Mark::Ended,
            next: self.at + self.width,
        })
    }
}

impl RowRule for FixedWidth {
    ghost means = { λ s. fixed_meaning s.width };

    ghost ahead = { λ s. fixed_at s.width s.at };

    ghost lawful = { λ s. fixed_lawful s.width s.in_range.0 };

    fn set(&mut self, _file: &[u8])
        ensures { SetOn _file.now (fixed_meaning self.old.width) (fixed_meaning self.new.width) (fixed_at self.new.width self.new.at) }
    {
        self.at = 0;
    }

    fn next<'f>(&mut self, file: &'f [u8]) -> Piece<'f>
        ensures { Asked file.now (told result) (fixed_meaning self.old.width) (fixed_meaning self.new.width) (fixed_at self.old.width self.old.at) (fixed_at self.new.width self.new.at) }
    {
        let found = self.row_at(file);
        Piece::found_at(file, &mut self.at, found)
    }

    fn carries(&self, row: &[u8], mark: Mark) -> bool {
        match mark {
            Mark::Ended => row.len() == self.width,
            Mark::Unended => false,
        }
    }

    fn frame_length(&self, row: &[u8], _mark: Mark) -> usize {
        row.len()
    }

    fn frame_in(&self, buffer: &mut [u8], length: usize, _mark: Mark) -> Result<usize, Refusal> {
        row_and(buffer, length, &[])
    }
}
