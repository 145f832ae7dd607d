// The nodes that are being read.
ghost use Rattle.std.specs.Prelude.{◌<◌};
ghost use Rattle.std.specs.Option.{unwrap_or};

// How the parts of an open node are read.
#[derive(Clone, Copy, PartialEq, Eq, Debug)]
pub(crate) enum Way {
    // a sequence outside of all trials
    Sequence,
    // a sequence in a trial
    Tried,
    Choice,
    Optional,
}

impl Way {
    ghost use Rattle.std.specs.Prelude.{◌≡◌};
    ghost use Rattle.reader.specs.Turns.{sequence_way};

    // How a sequence is read, in a trial or open.
    pub(crate) fn of_sequence(trial: bool) -> Way
        ensures { result ≡ sequence_way trial }
    {
        if trial { Way::Tried } else { Way::Sequence }
    }
}

// A node whose parts are being read, and where it stands among them.
#[derive(Clone, Copy, PartialEq, Eq, Debug)]
pub(crate) struct Open {
    pub(crate) way: Way,
    pub(crate) node: u16,
    // which line is its own
    pub(crate) at: usize,
    // where in the row it begins
    pub(crate) start: usize,
    // the part that was read last; before the first, the node itself
    pub(crate) last: u16,
    // the first of the parts still to come
    pub(crate) rest: Option<u16>,
    // how many branches of a choice were begun; since numbers rise from sibling to sibling, the next has a greater one
    pub(crate) branch: u16,
    ghost counted: { branch < unwrap_or rest 65536 },
}

// What the innermost open node is told.
#[derive(Clone, Copy, PartialEq, Eq, Debug)]
pub(crate) enum Told {
    // it begins
    Begin,
    // its part is read
    Clean,
    // its part broke, or is given up
    Fault,
    // a mark is sought among its parts
    Seek,
    // the sought mark is not there: the parts left are passed over
    Skip,
}

impl Told {
    ghost use Rattle.std.specs.Prelude.{◌≡◌};
    ghost use Rattle.reader.specs.Models.{broke};

    // Whether the part that was read last broke, or is given up.
    pub(crate) fn broke(self) -> bool
        ensures { result ≡ broke self }
    {
        matches!(self, Told::Fault | Told::Seek | Told::Skip)
    }
}

impl Open {
    ghost use Rattle.std.specs.Prelude.{◌≡◌, ℕ, ℤ, List};
    ghost use Rattle.layout.specs.declared.node.Node.{Node};
    ghost use Rattle.layout.specs.Trees.{part_at};
    ghost use Rattle.reader.specs.Turns.{moved as moved_on};
    ghost use Rattle.reader.specs.Models.{pending_of, parts_from};

    // The same node once a part is begun, or passed over: `rest` is the first of those behind it.
    pub(crate) fn moved(self, last: u16, rest: Option<u16>, branch: u16) -> Open
        requires { branch < unwrap_or rest 65536 }
        ensures { (nodes : List Node) (constants : List ℤ) → pending_of nodes constants result ≡ moved_on (pending_of nodes constants self) (part_at nodes constants last) (parts_from nodes constants rest) branch }
    {
        Open {
            way: self.way,
            node: self.node,
            at: self.at,
            start: self.start,
            last,
            rest,
            branch,
        }
    }
}
