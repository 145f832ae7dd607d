// The words FAMILY of a command, and the family that they stand for.
ghost use Rattle.std.specs.Prelude.{◌≡◌, ℕ};
ghost use Rattle.fields.specs.Meanings.{Meaning};
ghost use Rattle.fields.specs.Pairs.{pair_means};
ghost use Rattle.cli.specs.Kinds.{family_means, words_mean, ascii_word, binary_word, kind_word, kind_name};

use either::{Either, Left, Right};
use fields::ascii::Ascii;
use fields::binary::Binary;
use fields::pair::Pair;
use std::str::Split;

// A family that is no pair.
pub type PlainFamily = Either<Ascii, Binary>;

// A plain family, or a pair of two.
pub type AnyFamily = Either<PlainFamily, Pair<PlainFamily, PlainFamily>>;

// What the words say: one plain family, or the two whose kinds a pair reaches.
#[derive(Clone, Copy)]
pub struct FamilyWords {
    pub first: PlainFamily,
    pub second: Option<PlainFamily>,
}

// The family that the words stand for.
impl From<FamilyWords> for AnyFamily {
    ghost from_gives = { λ words family. family_means family ≡ words_mean words };

    fn from(words: FamilyWords) -> AnyFamily {
        match words.second {
            Some(second) => Right(Pair::new(words.first, second)),
            None => Left(words.first),
        }
    }
}

// Of nested pairs only the first family of each side is in reach.
pub fn nested_pairs()
    ensures { (a b c d : ℕ → ℕ → Meaning) (k p : ℕ) → pair_means (pair_means a b) (pair_means c d) k p ≡ pair_means a c k p }
{}

// The plain family that one word names.
fn plain_family(word: &str) -> Option<PlainFamily> {
    match word {
        "ascii" => Some(Left(Ascii)),
        "binary" => Some(Right(Binary)),
        _ => None,
    }
}

// Takes the words of one family, and gives the first plain family in it.
fn one_family(words: &mut Split<'_, char>) -> Option<PlainFamily> {
    let mut first = None;
    // a pair wants one family more
    let mut wanted: usize = 1;
    for word in words {
        if word == "pair" {
            wanted = wanted.saturating_add(1);
            continue;
        }
        let family = plain_family(word)?;
        first = first.or(Some(family));
        // it is above 0 here, which plain subtraction would need an invariant for
        wanted = wanted.saturating_sub(1);
        if wanted == 0 {
            return first;
        }
    }
    None
}

// What the words `ascii`, `binary` or `pair:FAMILY:FAMILY` say, or none. (No `FromStr`: there is one fault, and the caller tells it with the words.)
pub fn family_of(words: &str) -> Option<FamilyWords> {
    let mut words = words.split(':');
    let family = match words.next()? {
        "pair" => FamilyWords {
            first: one_family(&mut words)?,
            second: Some(one_family(&mut words)?),
        },
        word => FamilyWords {
            first: plain_family(word)?,
            second: None,
        },
    };
    words.next().is_none().then_some(family)
}

// What a kind of a plain family is called; a kind's number is the family's own, and its name does not hang on the parameter.
pub fn kind_word(family: PlainFamily, kind: u8) -> &'static str
    ensures { result.now ≡ kind_word family kind }
{
    match family {
        Left(_) => ascii_word(kind),
        Right(_) => binary_word(kind),
    }
}

fn ascii_word(kind: u8) -> &'static str
    ensures { result.now ≡ ascii_word kind }
{
    match kind {
        1 => "whole number",
        2 => "amount",
        4 => "text",
        6 => "date",
        _ => "field",
    }
}

fn binary_word(kind: u8) -> &'static str
    ensures { result.now ≡ binary_word kind }
{
    match kind {
        1 => "unsigned",
        2 => "signed",
        3 => "bytes",
        _ => "field",
    }
}

impl FamilyWords {
    // What a kind is called: in a pair, kinds 32 and above are those of the second family less 32.
    pub fn kind_name(self, kind: u8) -> &'static str
        ensures { result.now ≡ kind_name self kind }
    {
        match self.second {
            Some(second) if kind >= 32 => kind_word(second, kind - 32),
            _ => kind_word(self.first, kind),
        }
    }
}
