// The command `explain`: says why rows of an export are set aside, and what became of all of them.
use crate::export::{Words, empty_import, export_named, failure_of};
use crate::failure::Failure;
use cli::families::family_of;
use cli::problems::Problem;
use explaining::explain::write_explanation;
use std::io::{BufWriter, Write};

// Reads every row of the export that the words name, and writes its explanation to standard output.
pub fn explain_export<'a>(rt: &HostRuntime, words: Words<'a>) -> Result<(), Failure<'a>> {
    let export = export_named(rt, words)?;
    let family = family_of(words.family).ok_or(Problem::NoFamily(words.family))?;
    let mut import = empty_import(rt, export.family)?;
    let mut out = BufWriter::new(rt.alloc(), rt.stdout())?;
    let done = write_explanation(
        &mut import,
        export.rule,
        &export.layout,
        family,
        &export.file,
        &mut out,
    );
    out.flush()?;
    done.map_err(|stop| failure_of(stop, words))
}
