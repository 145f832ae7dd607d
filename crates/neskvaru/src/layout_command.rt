// The command `layout`: loads a layout file, and prints its tree.
use crate::failure::Failure;
use crate::files::read_up_to;
use cli::families::{AnyFamily, FamilyWords, family_of};
use cli::problems::Problem;
use layout::header::longest_file;
use layout::table::Layout;
use outlines::tree::tree_lines;
use std::io;
use std::io::{BufWriter, Write};

// Writes a line for each node to standard output.
fn write_tree(rt: &HostRuntime, family: FamilyWords, layout: &Layout) -> io::Result<()> {
    let mut out = BufWriter::new(rt.alloc(), rt.stdout())?;
    for line in tree_lines(rt.alloc(), family, layout)? {
        writeln!(out, "{line}")?;
    }
    out.flush()
}

// Loads the layout file under the family that the words stand for, and prints what it says.
pub fn print_layout<'a>(
    rt: &HostRuntime,
    words: &'a str,
    name: &'a str,
) -> Result<(), Failure<'a>> {
    let family = family_of(words).ok_or(Problem::NoFamily(words))?;
    // a byte more than the longest is refused like the whole of a longer file
    let bytes = read_up_to(rt, name, longest_file() + 1).map_err(|error| Failure::Unreadable(
        name, error,
    ))?;
    let mut layout = Layout::new(rt.alloc()).map_err(io::Error::from)?;
    layout
        .load(&AnyFamily::from(family), bytes.as_slice())
        .map_err(|refusal| Problem::RefusedLayout(refusal, name))?;
    write_tree(rt, family, &layout)?;
    Ok(())
}
