// The command `field`: reads one field of some text, and says what that gives.
use crate::failure::Failure;
use cli::families::{AnyFamily, family_of};
use cli::numbers::number_of;
use cli::problems::Problem;
use cli::readings::Reading;
use fields::cause::Sort;
use fields::family::{Family, Kind};
use fields::start::read_start;

// A number from a word, if it is at most so large.
fn small_number(word: &str, most: u8) -> Option<u8> {
    let number = u8::try_from(number_of(word)?).ok()?;
    (number <= most).then_some(number)
}

// What reading the text as a field of a kind gives; `name` is what the kind is called.
fn reading<'a, F: Family>(family: &F, name: &'a str, kind: Kind, text: &str) -> Reading<'a> {
    let size = text.len();
    match read_start(family, kind, text.as_bytes()) {
        Ok((length, number)) => match family.sort(kind) {
            Sort::Kept => Reading::Kept { name, length, size },
            _ => Reading::Number {
                name,
                number,
                length,
                size,
            },
        },
        Err(cause) => Reading::Fault { name, cause },
    }
}

// Reads a field of the family that the words stand for, and writes one line.
pub fn read_field<'a>(
    rt: &HostRuntime,
    family: &'a str,
    kind: &'a str,
    p: &'a str,
    text: &str,
) -> Result<(), Failure<'a>> {
    let words = family_of(family).ok_or(Problem::NoFamily(family))?;
    let kind = Kind {
        code: small_number(kind, 63).ok_or(Problem::NoNumber(kind))?,
        parameter: small_number(p, 255).ok_or(Problem::NoNumber(p))?,
    };
    let chosen = AnyFamily::from(words);
    if chosen.sort(kind) == Sort::Unknown {
        return Err(Problem::UnknownKind(family).into());
    }
    rt.println(reading(&chosen, words.kind_name(kind.code), kind, text))?;
    Ok(())
}
