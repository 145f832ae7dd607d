// How deep the nodes of a table lie, in one pass over their numbers.
ghost use Rattle.std.specs.Prelude.{◌≡◌, ◌<◌, ◌≤◌, false, length};
ghost use Rattle.layout.specs.Links.{any_node, ill_linked, stranded, too_deep};
ghost use Rattle.layout.specs.Shapes.{link_in, links_in};

use packed::record::NodeRecord;

// The most nodes that a table has.
pub(crate) const MOST_NODES: usize = 200;

// The greatest depth of a node.
const DEEPEST: u16 = 16;

// Whether some node lies too deep. A node's depth is noted before its number comes, since links rise: so the depths stand in an array of their own, of a fixed size, as loading takes no memory.
pub(crate) fn is_too_deep(nodes: &[NodeRecord]) -> bool
    requires some { 0 < length nodes.now }
    requires few { length nodes.now ≤ 200 }
    requires rising { any_node (λ i r. ill_linked (links_in nodes.now) i (link_in r)) nodes.now ≡ false }
    requires once { any_node (λ i r. stranded (links_in nodes.now) i (link_in r)) nodes.now ≡ false }
    ensures { result ≡ too_deep 16 (links_in nodes.now) }
{
    // by node number; what is noted of number 0 is never read
    let mut depths = [0; MOST_NODES + 1];
    depths[1] = 1;
    for (i, node) in nodes.iter().enumerate() {
        let depth = depths[i + 1];
        if depth > DEEPEST {
            return true;
        }
        depths[usize::from(node.child)] = depth + 1;
        depths[usize::from(node.next)] = depth;
    }
    false
}
