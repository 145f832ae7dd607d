// The accepted table of a layout: nodes that hang together as one tree, and constants.
ghost use Rattle.std.specs.Prelude.{◌≡◌, ◌≤◌, false, vec_len, vec_capacity};
ghost use Rattle.std.specs.List.{list_any};
ghost use Rattle.layout.specs.Links.{hang_ill};
ghost use Rattle.layout.specs.Shapes.{links, names_none, misplaced};

use crate::node::Node;

// Its memory is taken once, when it is made: loading takes none. So nodes name each other by number in one list, and no node owns those below it; the reader goes through them in one loop.
#[derive(Drop)]
pub struct Layout {
    nodes: Vec<Node>,
    constants: Vec<i64>,
    ghost room: { (200 ≤ vec_capacity nodes) × (64 ≤ vec_capacity constants) },
    ghost few: { (1 ≤ vec_len nodes) × (vec_len nodes ≤ 200) },
    ghost hangs: { hang_ill 16 (links nodes.items) ≡ false },
    ghost numbered: { list_any (λ n. names_none n.next) nodes.items ≡ false },
    ghost placed: { list_any (λ n. misplaced 32 (vec_len constants) n.shape) nodes.items ≡ false },
}

mod loading;
pub mod looking;
