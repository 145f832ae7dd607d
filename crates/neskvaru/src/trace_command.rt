// The command `trace`: writes the records of every row, each with its report and how it is filed, of the tail, and of the counts.
use crate::export::{Words, empty_import, export_named, failure_of};
use crate::failure::Failure;
use std::io::{BufWriter, Write};
use tracing::trace::write_trace;

// Reads every row of the export that the words name, and writes its trace to standard output.
pub fn trace_export<'a>(rt: &HostRuntime, words: Words<'a>) -> Result<(), Failure<'a>> {
    let export = export_named(rt, words)?;
    let mut import = empty_import(rt, export.family)?;
    let mut out = BufWriter::new(rt.alloc(), rt.stdout())?;
    let done = write_trace(
        &mut import,
        export.rule,
        &export.layout,
        &export.file,
        &mut out,
    );
    out.flush()?;
    done.map_err(|stop| failure_of(stop, words))
}
