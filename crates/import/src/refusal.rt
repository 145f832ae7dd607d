// Why a call on an import is refused.
ghost use Rattle.std.specs.Prelude.{◌≡◌, Some};
ghost use Rattle.import.specs.Refusals.{number_of, of_reading, text_of};

use layout::refusal::Refusal as LayoutRefusal;
use reader::refusal::Refusal as ReaderRefusal;
use rows::refusal::Refusal as RulesRefusal;
use std::error::Error;
use std::fmt;

// Each is known by its number; a refused call changes nothing.
#[derive(Clone, Copy, PartialEq, Eq, Debug)]
pub enum Refusal {
    // 1 to 7: what is wrong with the layout file
    Layout(LayoutRefusal),
    // 8 of new: a file of more than 16,777,216 bytes
    FileTooLong,
    // 8 of the other calls: a file of another length than the one that new took
    OtherLength,
    // 9: a row of more than 4,096 bytes
    RowTooLong,
    // 10: a reading that would have more than 512 lines stand at one time
    ReachTooFar,
    // 12: a call at the wrong moment, or on an empty import
    WrongMoment,
    // 13: a slip of another row than the open one
    OtherRow,
    // 14: a row with faults is not kept
    RowHasFaults,
    // 15: a buffer that is too short for what goes into it
    BufferTooShort,
}

impl Refusal {
    // The refusal of a row by the reader.
    pub(crate) fn of_reading(why: ReaderRefusal) -> Refusal
        ensures { result ≡ of_reading why }
    {
        match why {
            ReaderRefusal::RowTooLong => Refusal::RowTooLong,
            ReaderRefusal::TooManyLines => Refusal::ReachTooFar,
        }
    }

    // The number by which a refusal is known.
    pub fn number(self) -> u8
        ensures { result ≡ number_of self }
    {
        match self {
            Refusal::Layout(why) => why.number(),
            Refusal::FileTooLong | Refusal::OtherLength => 8,
            Refusal::RowTooLong => 9,
            Refusal::ReachTooFar => 10,
            Refusal::WrongMoment => 12,
            Refusal::OtherRow => 13,
            Refusal::RowHasFaults => 14,
            Refusal::BufferTooShort => 15,
        }
    }
}

// (Written out: a derive would not state the bytes.)
impl fmt::Display for Refusal {
    ghost output = { λ refusal. Some (text_of refusal) };

    fn fmt<W: fmt::Write>(&self, f: &mut fmt::Formatter<W>) -> fmt::Result {
        match *self {
            Refusal::Layout(why) => write!(f, "{why}"),
            Refusal::FileTooLong => f.write_str(RulesRefusal::FileTooLong.reason()),
            Refusal::OtherLength => {
                f.write_str("the file has another length than the one that was taken")
            }
            Refusal::RowTooLong => write!(f, "{}", ReaderRefusal::RowTooLong),
            Refusal::ReachTooFar => write!(f, "{}", ReaderRefusal::TooManyLines),
            Refusal::WrongMoment => f.write_str("the call comes at the wrong moment"),
            Refusal::OtherRow => f.write_str("the slip is another row's"),
            Refusal::RowHasFaults => f.write_str("a row with faults is not kept"),
            Refusal::BufferTooShort => f.write_str(RulesRefusal::BufferTooShort.reason()),
        }
    }
}

impl Error for Refusal {}
