// The beginning of a layout file: how many nodes and constants follow, and where they stand.
ghost use Rattle.std.specs.Prelude.{◌≡◌, ℕ, ◌+◌, ◌*◌, ◌<◌, true, List, length, take, drop, MatchOption};
ghost use Rattle.layout.specs.Files.{wrong_size, Sized};

use crate::levels::MOST_NODES;

// The most constants that a layout has.
pub(crate) const MOST_CONSTANTS: usize = 64;

// The two counts take a byte each.
const HEADER: usize = 2;

// A node or a constant takes eight bytes.
const RECORD: usize = 8;

// The most bytes that a layout file has. One with more is refused for its size, whatever they are: so nobody has to read further than one byte past the longest.
pub fn longest_file() -> usize
    ensures value { result ≡ 2114 }
    ensures longer { (bytes : List ℕ) → result < length bytes → wrong_size 200 64 bytes ≡ true }
{
    HEADER + RECORD * (MOST_NODES + MOST_CONSTANTS)
}

#[derive(Clone, Copy)]
pub(crate) struct Header {
    pub nodes: usize,
    pub constants: usize,
}

impl Header {
    // The counts of a file, if they are in range and its length is theirs. (None stands for one refusal, which the one caller names.)
    pub(crate) fn of(bytes: &[u8]) -> Option<Header>
        ensures { MatchOption result (wrong_size 200 64 bytes.now ≡ true) (λ h. Sized bytes.now h.nodes h.constants) }
    {
        let [nodes, constants, rest @ ..] = bytes else {
            return None;
        };
        let nodes = usize::from(*nodes);
        let constants = usize::from(*constants);
        if nodes < 1 || nodes > MOST_NODES || constants > MOST_CONSTANTS {
            return None;
        }
        if rest.len() != RECORD * nodes + RECORD * constants {
            return None;
        }
        Some(Header { nodes, constants })
    }

    // The packed nodes of a file with these counts, and its packed constants.
    pub(crate) fn records<'f>(&self, bytes: &'f [u8]) -> (&'f [u8], &'f [u8])
        requires { Sized bytes.now self.now.nodes self.now.constants }
        ensures nodes { result.0.now ≡ take (8 * self.now.nodes) (drop 2 bytes.now) }
        ensures constants { result.1.now ≡ drop (2 + 8 * self.now.nodes) bytes.now }
    {
        bytes[HEADER..].split_at(RECORD * self.nodes)
    }
}
