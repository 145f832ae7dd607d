// The command `print`: writes an export again, from the reports of its rows alone.
use crate::export::{Words, empty_import, export_named, failure_of};
use crate::failure::Failure;
use std::io::{BufWriter, Write};
use tracing::print::print_file;

// Writes every row's frame and then the tail to standard output, up to the first row that is not read.
pub fn print_export<'a>(rt: &HostRuntime, words: Words<'a>) -> Result<(), Failure<'a>> {
    let export = export_named(rt, words)?;
    let mut import = empty_import(rt, export.family)?;
    let mut out = BufWriter::new(rt.alloc(), rt.stdout())?;
    let done = print_file(
        rt.alloc(),
        &mut import,
        export.rule,
        &export.layout,
        &export.file,
        &mut out,
    );
    // the rows before one that is not read are written
    out.flush()?;
    done.map_err(|stop| failure_of(stop, words))
}
