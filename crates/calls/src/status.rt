// How a call ends.
ghost use Rattle.std.specs.Prelude.{◌≡◌};
ghost use Rattle.calls.specs.Statuses.{number_of};

use crate::words::NoWords;
use import::refusal::Refusal;
use tracing::stop::Stop;

// Each is known by its number. A call that does not end in done changes neither buffer nor length nor answer.
#[derive(Clone, Copy, PartialEq, Eq, Debug)]
pub enum Status {
    Done,
    // 1 to 10, and 15: what the library refuses
    Refused(Refusal),
    // 11: the words stand for no rule, or a number in them is out of range
    NoRule,
    // 254: the words stand for no family
    NoFamily,
    // 255: there is no memory
    NoMemory,
}

impl Status {
    // The number by which a status is known.
    pub fn number(self) -> u8
        ensures { result ≡ number_of self }
    {
        match self {
            Status::Done => 0,
            Status::Refused(why) => why.number(),
            Status::NoRule => 11,
            Status::NoFamily => 254,
            Status::NoMemory => 255,
        }
    }
}

// A pass over an export that stops. What it writes to is memory of the library's, which takes no more only where there is none.
impl From<Stop> for Status {
    ghost use Rattle.calls.specs.Lefts.{status_of};

    ghost from_gives = { λ stop status. status ≡ status_of stop };

    fn from(stop: Stop) -> Status {
        match stop {
            Stop::Refused(why) => Status::Refused(why),
            Stop::Unread { row: _, refusal } => Status::Refused(refusal),
            Stop::Output(_) => Status::NoMemory,
        }
    }
}

// Words that stand for nothing.
impl From<NoWords> for Status {
    ghost use Rattle.calls.specs.Lefts.{of_words};

    ghost from_gives = { λ fault status. status ≡ of_words fault };

    fn from(fault: NoWords) -> Status {
        match fault {
            NoWords::NoRule => Status::NoRule,
            NoWords::NoFamily => Status::NoFamily,
        }
    }
}
