// A pair of families is a family: kinds 0 to 31 are the first's, 32 to 63 the second's less 32.
ghost use Rattle.std.specs.Prelude.{◌≡◌, ◌-◌, length, nat_lt};
ghost use Rattle.fields.specs.Buffers.{written};
ghost use Rattle.fields.specs.Cursors.{unread, Moved};
ghost use Rattle.fields.specs.Known.{Halves};
ghost use Rattle.fields.specs.Pairs.{pair_means};
ghost use Rattle.std.proofs.lemmas.Bool.{cond_both};
ghost use Rattle.fields.specs.Laws.{Lawful};
ghost use Rattle.fields.specs.Fairs.{unknown_lawful};

use crate::cause::{Cause, Reading, Sort};
use crate::cursor::Cursor;
use crate::family::{Family, Kind, TooShort};

// Two families side by side.
#[derive(Clone, Copy)]
pub struct Pair<A, B> {
    first: A,
    second: B,
}

impl<A: Family, B: Family> Pair<A, B> {
    pub fn new(first: A, second: B) -> Pair<A, B>
        ensures { (result.first ≡ first) × (result.second ≡ second) }
    {
        Pair { first, second }
    }
}

// (Which half has a kind is asked in four calls: a value that holds either half with its kind would need as many cases to be taken apart.)
impl<A: Family, B: Family> Family for Pair<A, B> {
    ghost means = { λ s. pair_means (A.Family.means s.first) (B.Family.means s.second) };

    ghost lawful = { λ s k p.
        cond_both (nat_lt k 32) _ _ Lawful (λ _. A.Family.lawful s.first k p)
        (λ _. cond_both (nat_lt k 64) _ _ Lawful (λ _. B.Family.lawful s.second (k - 32) p) (λ _. unknown_lawful)) };

    fn sort(&self, kind: Kind) -> Sort
        ensures means { result ≡ (pair_means (A.Family.means self.now.first) (B.Family.means self.now.second) kind.code kind.parameter).sort }
        ensures halves { Halves (λ k q. (A.Family.means self.now.first k q).sort) (λ k q. (B.Family.means self.now.second k q).sort) kind.code kind.parameter result }
    {
        match kind.code {
            0..=31 => self.first.sort(kind),
            32..=63 => self.second.sort(kind.less(32)),
            _ => Sort::Unknown,
        }
    }

    fn read(&self, kind: Kind, cursor: &mut Cursor) -> Reading
        ensures answer { result ≡ (pair_means (A.Family.means self.now.first) (B.Family.means self.now.second) kind.code kind.parameter).reads (unread cursor.old) }
        ensures place { Moved result cursor.old cursor.new }
    {
        match kind.code {
            0..=31 => self.first.read(kind, cursor),
            32..=63 => self.second.read(kind.less(32), cursor),
            _ => Err(Cause::Form),
        }
    }

    fn spelled_length(&self, kind: Kind, number: i64) -> usize
        ensures { result ≡ length ((pair_means (A.Family.means self.now.first) (B.Family.means self.now.second) kind.code kind.parameter).spells number) }
    {
        match kind.code {
            0..=31 => self.first.spelled_length(kind, number),
            32..=63 => self.second.spelled_length(kind.less(32), number),
            _ => 0,
        }
    }

    // (Put where it is called, as in the ASCII family.)
    #[inline(always)]
    fn spell(&self, kind: Kind, number: i64, out: &mut [u8]) -> Result<usize, TooShort>
        ensures { (result, out.new) ≡ written ((pair_means (A.Family.means self.now.first) (B.Family.means self.now.second) kind.code kind.parameter).spells number) out.old }
    {
        match kind.code {
            0..=31 => self.first.spell(kind, number, out),
            32..=63 => self.second.spell(kind.less(32), number, out),
            _ => Ok(0),
        }
    }
}
