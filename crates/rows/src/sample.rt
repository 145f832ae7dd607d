// The sample rule: the first so many rows of the rule below.
ghost use Rattle.std.specs.Prelude.{◌≡◌, ℕ, ◌+◌, ◌-◌, ◌<◌, ◌≤◌, List, IfOk, MatchResult};
ghost use Rattle.rows.specs.Cuts.{File};
ghost use Rattle.rows.specs.declared.refusal.Refusal.TheVariants.{OutOfRange};
ghost use Rattle.rows.specs.Samples.{HandedOn};
ghost use Rattle.rows.specs.Frames.{measured};
ghost use Rattle.rows.specs.Steps.{SetOn, Asked};
ghost use Rattle.rows.specs.Told.{told};
ghost use Rattle.rows.specs.Words.{SampleRows};

use crate::piece::{Mark, Piece};
use crate::refusal::Refusal;
use crate::rule::RowRule;

// The greatest sample: no file has more rows, since no file has more bytes.
pub const LARGEST: usize = 16_777_216;

// The first `limit` rows of the rule below; `left` of them are to come, and `end` is where the frames of those handed out end.
#[derive(Drop)]
pub struct Sample<R> {
    limit: usize,
    left: usize,
    end: usize,
    below: R,
    ghost in_range: { (limit ≤ 16777216) × (left ≤ limit) },
}

impl<R: RowRule + Drop> Sample<R> {
    // The sample, or a refusal of the number. Set on a file, it cuts the rows that the clause `words` tells.
    pub fn new(limit: usize, below: R) -> Result<Sample<R>, Refusal>
        ensures value { MatchResult result (λ s. (s.limit ≡ limit) × (s.left ≡ limit) × (s.end ≡ 0) × (s.below ≡ below)) (λ e. (e ≡ OutOfRange) × (16777216 < limit)) }
        ensures words { IfOk result (λ s. (file : List ℕ) → File file → SampleRows s.limit (R.RowRule.means below) file) }
    {
        if limit > LARGEST {
            return Err(Refusal::OutOfRange);
        }
        Ok(Sample {
            limit,
            left: limit,
            end: 0,
            below,
        })
    }
}

impl<R> Sample<R> {
    // One row was handed out, with a frame of so many bytes.
    fn count(&mut self, frame: usize)
        requires { 0 < self.old.left }
        ensures left { self.new.left ≡ self.old.left - 1 }
        ensures end { self.new.end ≡ measured (self.old.end + frame) }
        ensures same { (self.new.limit ≡ self.old.limit) × (self.new.below ≡ self.old.below) }
    {
        self.left -= 1;
        self.end = self.end.saturating_add(frame);
    }
}

impl<R: RowRule> Sample<R> {
    ghost use Rattle.rows.specs.SampleStates.{sample_means, sample_ahead};

    // The next row below, if one more is wanted and there is one.
    fn row_below<'f>(&mut self, file: &'f [u8]) -> Option<Piece<'f>>
        ensures hands { HandedOn file.now result self.new.end (sample_ahead R.RowRule.means R.RowRule.ahead self.old) (sample_ahead R.RowRule.means R.RowRule.ahead self.new) }
        ensures kept { sample_means R.RowRule.means self.new ≡ sample_means R.RowRule.means self.old }
    {
        if self.left == 0 {
            return None;
        }
        let piece = self.below.next(file);
        let Piece::Row { bytes, mark, .. } = piece else {
            return None;
        };
        let frame = self.below.frame_length(bytes, mark);
        self.count(frame);
        Some(piece)
    }
}

impl<R: RowRule> RowRule for Sample<R> {
    ghost use Rattle.rows.specs.SampleStates.{sample_means, sample_ahead};
    ghost use Rattle.rows.specs.SampleCuts.{sample_lawful};

    ghost means = { sample_means R.RowRule.means };

    ghost ahead = { sample_ahead R.RowRule.means R.RowRule.ahead };

    ghost lawful = { λ s. sample_lawful (R.RowRule.means s.below) (R.RowRule.lawful s.below) s.limit };

    fn set(&mut self, file: &[u8])
        ensures { SetOn file.now (sample_means R.RowRule.means self.old) (sample_means R.RowRule.means self.new) (sample_ahead R.RowRule.means R.RowRule.ahead self.new) }
    {
        self.left = self.limit;
        self.end = 0;
        self.below.set(file);
    }

    fn next<'f>(&mut self, file: &'f [u8]) -> Piece<'f>
        ensures { Asked file.now (told result) (sample_means R.RowRule.means self.old) (sample_means R.RowRule.means self.new) (sample_ahead R.RowRule.means R.RowRule.ahead self.old) (sample_ahead R.RowRule.means R.RowRule.ahead self.new) }
    {
        self.row_below(file)
            .unwrap_or_else(|| Piece::tail_from(file, self.end))
    }

    fn carries(&self, row: &[u8], mark: Mark) -> bool {
        self.below.carries(row, mark)
    }

    fn frame_length(&self, row: &[u8], mark: Mark) -> usize {
        self.below.frame_length(row, mark)
    }

    fn frame_in(&self, buffer: &mut [u8], length: usize, mark: Mark) -> Result<usize, Refusal> {
        self.below.frame_in(buffer, length, mark)
    }
}
