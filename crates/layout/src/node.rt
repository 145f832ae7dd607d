// The nodes of a layout: what each is, and how they hang together by their numbers.
ghost use Rattle.std.specs.Prelude.{◌≡◌};
ghost use Rattle.layout.specs.Trees.{child_of};

use fields::family::Kind;

// How the left side of a check has to stand to the right side.
#[derive(Clone, Copy, PartialEq, Eq, Debug)]
pub enum Relation {
    Equal,
    Unequal,
    Less,
    AtMost,
}

// The right side of a check.
#[derive(Clone, Copy, PartialEq, Eq, Debug)]
pub enum Side {
    // what stands in a column, 1 to 32
    Column(u8),
    // one of the layout's constants, counted from 0
    Constant(u8),
}

// What a node is. Nodes count from 1, the root; a child is the first of the nodes below, and in a table it is always there.
#[derive(Clone, Copy, PartialEq, Eq, Debug)]
pub enum Shape {
    // a field of the family; its number goes to the column, 1 to 32, if there is one
    Field {
        kind: Kind,
        column: Option<u8>,
    },
    // one byte that has to stand there
    Mark {
        byte: u8,
    },
    // all parts, one behind the other
    Sequence {
        child: u16,
    },
    // the first of the parts that fits
    Choice {
        child: u16,
    },
    // one part, if it fits
    Optional {
        child: u16,
    },
    // a test of a column's value; it takes no bytes
    Check {
        relation: Relation,
        left: u8,
        right: Side,
    },
}

// A node, and the number of its following sibling.
#[derive(Clone, Copy, PartialEq, Eq, Debug)]
pub struct Node {
    pub shape: Shape,
    pub next: Option<u16>,
}

// A mark of byte 00 without a next.
pub(crate) const BLANK: Node = Node {
    shape: Shape::Mark { byte: 0 },
    next: None,
};

// A node's place in the tree: its number and its depth, which is 1 for the root.
#[derive(Clone, Copy, PartialEq, Eq, Debug)]
pub struct Entry {
    pub number: u16,
    pub depth: u16,
}

impl Shape {
    // The number of the first node below, of a shape that has parts.
    pub fn child(self) -> Option<u16>
        ensures { result ≡ child_of self }
    {
        match self {
            Shape::Sequence { child } | Shape::Choice { child } | Shape::Optional { child } => {
                Some(child)
            }
            Shape::Field { .. } | Shape::Mark { .. } | Shape::Check { .. } => None,
        }
    }
}
