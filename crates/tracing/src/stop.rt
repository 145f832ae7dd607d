// What stops a pass over an export.
use import::refusal::Refusal;
use std::io;

// Why a pass ends early.
#[derive(Drop)]
pub enum Stop {
    // the import does not take the export; nothing is written then
    Refused(Refusal),
    // the row of this number is not read
    Unread { row: u32, refusal: Refusal },
    // what is written to takes no more, or there is no memory
    Output(io::Error),
}

impl From<Refusal> for Stop {
    ghost use Rattle.std.specs.Prelude.{◌≡◌};
    ghost use Rattle.tracing.specs.declared.stop.Stop.TheVariants.{Refused};

    ghost from_gives = { λ e stop. stop ≡ Refused e };

    fn from(refusal: Refusal) -> Stop {
        Stop::Refused(refusal)
    }
}

impl From<io::Error> for Stop {
    ghost use Rattle.std.specs.Prelude.{◌≡◌};
    ghost use Rattle.tracing.specs.declared.stop.Stop.TheVariants.{Output};

    ghost from_gives = { λ e stop. stop ≡ Output e };

    fn from(error: io::Error) -> Stop {
        Stop::Output(error)
    }
}
