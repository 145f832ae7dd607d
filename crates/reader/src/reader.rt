// A reader: the memory of a reading, taken once and used for one row after another.
ghost use Rattle.std.specs.Prelude.{◌≤◌, vec_capacity};

use crate::open::{Open, Told};

mod keeping;
mod reading;
mod recovering;
mod stepping;
mod turning;
mod writing;

// The greatest depth of a node in a layout.
pub(crate) const DEEPEST: usize = 16;

#[derive(Drop)]
pub struct Reader {
    // the open nodes, the innermost last
    stack: Vec<Open>,
    place: usize,
    // what the innermost open node is told
    told: Told,
    // the most lines that stood so far
    reach: usize,
    ghost room: { 16 ≤ vec_capacity stack },
}
