// A rule that is one of two, chosen when the program runs: it means what the one that it is means.
ghost use Rattle.either.specs.Either.{either};
ghost use Rattle.either.specs.declared.Either.TheVariants.{Left, Right};
ghost use Rattle.rows.specs.Steps.{SetOn, Asked};
ghost use Rattle.rows.specs.Told.{told};

use crate::piece::{Mark, Piece};
use crate::refusal::Refusal;
use crate::rule::RowRule;
use either::{Either, for_both};

impl<A: RowRule, B: RowRule> RowRule for Either<A, B> {
    ghost means = { either A.RowRule.means B.RowRule.means };

    ghost ahead = { either A.RowRule.ahead B.RowRule.ahead };

    ghost lawful = { elim [
      | Left a ↦ A.RowRule.lawful a
      | Right b ↦ B.RowRule.lawful b
    ] };

    fn set(&mut self, file: &[u8])
        ensures { SetOn file.now (either A.RowRule.means B.RowRule.means self.old) (either A.RowRule.means B.RowRule.means self.new) (either A.RowRule.ahead B.RowRule.ahead self.new) }
    {
        for_both!(self, rule => rule.set(file))
    }

    fn next<'f>(&mut self, file: &'f [u8]) -> Piece<'f>
        ensures { Asked file.now (told result) (either A.RowRule.means B.RowRule.means self.old) (either A.RowRule.means B.RowRule.means self.new) (either A.RowRule.ahead B.RowRule.ahead self.old) (either A.RowRule.ahead B.RowRule.ahead self.new) }
    {
        for_both!(self, rule => rule.next(file))
    }

    fn carries(&self, row: &[u8], mark: Mark) -> bool {
        for_both!(self, rule => rule.carries(row, mark))
    }

    fn frame_length(&self, row: &[u8], mark: Mark) -> usize {
        for_both!(self, rule => rule.frame_length(row, mark))
    }

    fn frame_in(&self, buffer: &mut [u8], length: usize, mark: Mark) -> Result<usize, Refusal> {
        for_both!(self, rule => rule.frame_in(buffer, length, mark))
    }
}
