// Tests of one node of a table: each refusal but that of the depth is a test that some node meets. (A slice and the number of one of its nodes are two arguments: a type for both would be made anew for each node.)
ghost use Rattle.std.specs.Prelude.{◌≡◌, ◌≤◌, length};
ghost use Rattle.std.specs.List.{list_any};
ghost use Rattle.layout.specs.Links.{any_node, astray, ill_filled, ill_linked, is_set, link_at, links_to, no_link, stranded};
ghost use Rattle.layout.specs.Shapes.{stray, link_in, links_in, sorts, unknown, is_side, outside};

use crate::node::Shape;
use crate::shapes::shape_of;
use fields::cause::Sort;
use fields::family::Family;
use packed::record::NodeRecord;

// Columns count from 1 to this number.
pub(crate) const COLUMNS: u8 = 32;

// Whether some node has an unknown shape, or a bit that is not zero and should be.
pub(crate) fn any_stray_bits(nodes: &[NodeRecord]) -> bool
    ensures { result ≡ list_any stray nodes.now }
{
    nodes.iter().any(has_stray_bits)
}

// Whether a node has an unknown shape, or a bit that is not zero and should be.
fn has_stray_bits(node: &NodeRecord) -> bool
    ensures { result ≡ stray node.now }
{
    let beside = match shape_of(node) {
        None => return true,
        Some(Shape::Field { .. } | Shape::Check { .. }) => node.child != 0,
        Some(Shape::Mark { .. }) => node.kind != 0 || node.column != 0 || node.child != 0,
        Some(_) => node.kind != 0 || node.parameter != 0 || node.column != 0,
    };
    beside || node.rest != 0
}

// Whether some node's links lead nowhere or back, its child is missing, or it has a next where none may be.
pub(crate) fn any_ill_linked(nodes: &[NodeRecord]) -> bool
    ensures { result ≡ any_node (λ i r. ill_linked (links_in nodes.now) i (link_in r)) nodes.now }
{
    nodes
        .iter()
        .enumerate()
        .any(|(i, node)| is_ill_linked(nodes, i + 1, node))
}

// Whether a link of a node, of so many, is set and leads nowhere or back.
fn is_astray(count: usize, number: usize, link: u16) -> bool
    ensures { result ≡ astray count number link }
{
    let link = usize::from(link);
    link != 0 && (link <= number || link > count)
}

// Whether the node of a number, if there is one, has a next.
fn has_next(nodes: &[NodeRecord], number: u16) -> bool
    ensures { result ≡ is_set (link_at (links_in nodes.now) number).next }
{
    let at = usize::from(number).saturating_sub(1);
    nodes.get(at).is_some_and(|node| node.next != 0)
}

// Whether what is below a node is not as it should be.
fn is_ill_filled(nodes: &[NodeRecord], node: &NodeRecord) -> bool
    ensures { result ≡ ill_filled (links_in nodes.now) (link_in node.now).arity node.now.child }
{
    match shape_of(node) {
        Some(Shape::Sequence { child } | Shape::Choice { child }) => child == 0,
        Some(Shape::Optional { child }) => child == 0 || has_next(nodes, child),
        _ => false,
    }
}

// Whether a node's links lead nowhere or back, its child is missing, or it has a next where none may be.
fn is_ill_linked(nodes: &[NodeRecord], number: usize, node: &NodeRecord) -> bool
    ensures { result ≡ ill_linked (links_in nodes.now) number (link_in node.now) }
{
    let count = nodes.len();
    let astray = is_astray(count, number, node.child) || is_astray(count, number, node.next);
    let followed_root = number == 1 && node.next != 0;
    astray || followed_root || is_ill_filled(nodes, node)
}

// Whether some node past the root is not child or next of exactly one.
pub(crate) fn any_stranded(nodes: &[NodeRecord]) -> bool
    ensures { result ≡ any_node (λ i r. stranded (links_in nodes.now) i (link_in r)) nodes.now }
{
    nodes
        .iter()
        .enumerate()
        .any(|(i, _)| is_stranded(nodes, i + 1))
}

// Whether a node past the root is not child or next of exactly one.
fn is_stranded(nodes: &[NodeRecord], number: usize) -> bool
    ensures { result ≡ stranded (links_in nodes.now) number no_link }
{
    number > 1 && count_links(nodes, number) != 1
}

// How often a node is child or next of a node: one that is both of one node counts twice.
#[tactic(auto, using(crate::proofs::Views::links_counted))]
fn count_links(nodes: &[NodeRecord], number: usize) -> usize
    ensures { result ≡ links_to number (links_in nodes.now) }
{
    let is_child = nodes
        .iter()
        .filter(|node| usize::from(node.child) == number)
        .count();
    let is_next = nodes
        .iter()
        .filter(|node| usize::from(node.next) == number)
        .count();
    is_child + is_next
}

// Whether some node is a field whose kind with its parameter the family does not know.
pub(crate) fn any_unknown_kind<F: Family>(family: &F, nodes: &[NodeRecord]) -> bool
    ensures { result ≡ list_any (unknown (sorts (F.Family.means family.now))) nodes.now }
{
    nodes.iter().any(|node| has_unknown_kind(family, node))
}

// Whether a node is a field whose kind with its parameter the family does not know.
fn has_unknown_kind<F: Family>(family: &F, node: &NodeRecord) -> bool
    ensures { result ≡ unknown (sorts (F.Family.means family.now)) node.now }
{
    match shape_of(node) {
        Some(Shape::Field { kind, .. }) => family.sort(kind) == Sort::Unknown,
        _ => false,
    }
}

// Whether some node's column, relation or right side is out of range.
pub(crate) fn any_outside(constants: usize, nodes: &[NodeRecord]) -> bool
    ensures { result ≡ list_any (outside 32 constants) nodes.now }
{
    nodes.iter().any(|node| is_outside(constants, node))
}

// Whether a parameter is a right side: a column, or one of the constants, by their numbers in a file.
fn is_side(constants: usize, parameter: u8) -> bool
    ensures { result ≡ is_side 32 constants parameter }
{
    match parameter {
        1..=COLUMNS => true,
        64..=127 => usize::from(parameter - 64) < constants,
        _ => false,
    }
}

// Whether a node's column, relation or right side is out of range.
fn is_outside(constants: usize, node: &NodeRecord) -> bool
    ensures { result ≡ outside 32 constants node.now }
{
    match shape_of(node) {
        Some(Shape::Field { .. }) => node.column > COLUMNS,
        Some(Shape::Check { left, .. }) => {
            !matches!(node.kind, 1..=4)
                || !matches!(left, 1..=COLUMNS)
                || !is_side(constants, node.parameter)
        }
        _ => false,
    }
}
