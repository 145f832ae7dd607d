// What the numbers of a packed node say. A node is read before it is judged, so each number has a meaning here, even one that is refused later: a public From or TryFrom would promise that meaning to others.
ghost use Rattle.std.specs.Prelude.{◌≡◌};
ghost use Rattle.layout.specs.Shapes.{relation_of, side_of, shape_of, node_of};

use crate::node::{Node, Relation, Shape, Side};
use fields::family::Kind;
use packed::record::NodeRecord;

// 1 equal, 2 unequal, 3 less, 4 at most.
fn relation_of(kind: u8) -> Relation
    ensures { result ≡ relation_of kind }
{
    match kind {
        1 => Relation::Equal,
        2 => Relation::Unequal,
        3 => Relation::Less,
        _ => Relation::AtMost,
    }
}

// From 64 on a constant, below that a column.
fn side_of(parameter: u8) -> Side
    ensures { result ≡ side_of parameter }
{
    match parameter {
        64..=255 => Side::Constant(parameter - 64),
        _ => Side::Column(parameter),
    }
}

// The shape that a record has, if its number is that of one.
pub(crate) fn shape_of(node: &NodeRecord) -> Option<Shape>
    ensures { result ≡ shape_of node.now }
{
    match node.shape {
        1 => Some(Shape::Field {
            kind: Kind {
                code: node.kind,
                parameter: node.parameter,
            },
            column: (node.column != 0).then_some(node.column),
        }),
        2 => Some(Shape::Mark {
            byte: node.parameter,
        }),
        3 => Some(Shape::Sequence { child: node.child }),
        4 => Some(Shape::Choice { child: node.child }),
        5 => Some(Shape::Optional { child: node.child }),
        7 => Some(Shape::Check {
            relation: relation_of(node.kind),
            left: node.column,
            right: side_of(node.parameter),
        }),
        _ => None,
    }
}

// The node that a judged record stands for.
pub(crate) fn node_of(node: &NodeRecord) -> Node
    ensures { result ≡ node_of node.now }
{
    let shape = shape_of(node).unwrap_or(Shape::Mark { byte: 0 });
    Node {
        shape,
        next: (node.next != 0).then_some(node.next),
    }
}
