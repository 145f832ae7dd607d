// The lines of a layout's tree.
ghost use Rattle.std.specs.Prelude.{◌≡◌, map, IfOk};
ghost use Rattle.outlines.specs.Lines.{line_text, tree_lines};

use crate::line::NodeLine;
use cli::families::FamilyWords;
use layout::table::Layout;
use std::alloc::{AllocError, Global};

// A line for each node of the tree, in the order of reading.
pub fn tree_lines<'t>(
    heap: Global,
    family: FamilyWords,
    layout: &'t Layout,
) -> Result<Vec<NodeLine<'t>>, AllocError>
    ensures { IfOk result (λ lines. map line_text lines.items ≡ tree_lines family layout.now.nodes.items layout.now.constants.items) }
{
    let outline = layout.outline(heap)?;
    let mut lines = Vec::new(heap);
    // tried `map` and `collect`: a line borrows, so what a proof can name of it is its text and not the line itself
    for entry in outline.iter() {
        lines.push(NodeLine {
            entry: *entry,
            shape: layout.node(entry.number).shape,
            family,
            constants: layout.constants(),
        })?;
    }
    Ok(lines)
}
