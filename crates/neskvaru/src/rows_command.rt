// The command `rows`: lists the rows of a file.
use crate::export::rule_named;
use crate::failure::Failure;
use crate::files::read_file;
use cli::listing::Listing;
use cli::problems::Problem;
use rows::refusal::Refusal;
use rows::rule::RowRule;
use std::io;
use std::io::{BufWriter, Write};

// Writes every line of a listing to standard output.
fn write_listing<R: RowRule + Drop>(rt: &HostRuntime, listing: Listing<'_, R>) -> io::Result<()> {
    let mut out = BufWriter::new(rt.alloc(), rt.stdout())?;
    for line in listing {
        writeln!(out, "{line}")?;
    }
    out.flush()
}

// Cuts the file by the rule that the words stand for, and lists what came.
pub fn list_rows<'a>(rt: &HostRuntime, words: &'a str, name: &'a str) -> Result<(), Failure<'a>> {
    let rule = rule_named(words)?;
    let bytes = read_file(rt, name)
        .map_err(|error| Failure::Unreadable(name, error))?
        .ok_or(Problem::Refused(Refusal::FileTooLong, name))?;
    let listing = Listing::new(rule, bytes.as_slice()).map_err(|refusal| Problem::Refused(
        refusal, name,
    ))?;
    write_listing(rt, listing)?;
    Ok(())
}
