// What stops a command, and the line that tells it.
use cli::problems::Problem;
use std::io;
use std::io::ErrorKind;

// Why a command stopped.
#[derive(Drop)]
pub enum Failure<'a> {
    Problem(Problem<'a>),
    // the words of the command cannot be read
    BadWords(&'a anyhow::Error),
    // a file's name, and why it cannot be read
    Unreadable(&'a str, io::Error),
    // why standard output cannot be written
    Unwritten(io::Error),
    // anything else, such as want of memory
    Other(anyhow::Error),
}

impl<'a> From<Problem<'a>> for Failure<'a> {
    fn from(problem: Problem<'a>) -> Failure<'a> {
        Failure::Problem(problem)
    }
}

impl<'a> From<io::Error> for Failure<'a> {
    // files are read by calls that name them, so what fails here is writing, or taking memory
    fn from(error: io::Error) -> Failure<'a> {
        match error.kind() {
            ErrorKind::OutOfMemory => Failure::Other(anyhow::Error::from(error)),
            _ => Failure::Unwritten(error),
        }
    }
}

impl<'a> Failure<'a> {
    // Tells a problem on standard error; any other error is given back.
    pub fn tell(self, rt: &HostRuntime) -> anyhow::Result<()> {
        match self {
            Failure::Problem(problem) => eprintln!(rt; "{problem}")?,
            Failure::BadWords(error) => {
                let reason = error.to_string(rt.alloc())?;
                let problem = Problem::BadWords(reason.as_str());
                eprintln!(rt; "{problem}")?;
            }
            Failure::Unreadable(name, error) => {
                let reason = error.to_string(rt.alloc())?;
                let problem = Problem::Unreadable(name, reason.as_str());
                eprintln!(rt; "{problem}")?;
            }
            Failure::Unwritten(error) => {
                eprintln!(rt; "neskvaru: cannot write the output: {error}")?;
            }
            Failure::Other(error) => return Err(error),
        }
        Ok(())
    }
}
