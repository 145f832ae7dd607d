// A node of a layout as its eight bytes say it, before it is judged.
ghost use Rattle.std.specs.Prelude.{◌≡◌, true};
ghost use Rattle.packed.specs.BitFields.{fitting, joined};
ghost use Rattle.packed.specs.NodeForm.{widths, fields_of, unpacked, packed, PackLaws};

use crate::eight::{bytes_of, number};
use crate::loader::Packed;

// Node numbers have 16 bits here; how many the packed form has is known only in this file and in the widths that it cites.
// All fields stay numbers, as the eight bytes have them: they may name no shape, a child or next of 0 is none only where a shape allows one, and what kind and parameter are hangs on the shape. That is for the layout to judge, each refusal on all nodes before the next, which an enum here would forestall.
#[derive(Clone, Copy, PartialEq, Eq, Debug)]
pub struct NodeRecord {
    pub shape: u8,
    pub kind: u8,
    pub parameter: u8,
    pub column: u8,
    pub child: u16,
    pub next: u16,
    // further bits, zero in a proper node
    pub rest: u32,
}

impl NodeRecord {
    // The eight bytes of the node, or none where a field has more bits than the packed form.
    #[tactic(auto, using(crate::proofs::NodeLaws::pack_laws))]
    pub fn pack(self) -> Option<[u8; 8]>
        ensures value { result ≡ packed self }
        ensures laws { PackLaws }
    {
        if self.fits() {
            Some(bytes_of(self.joined_bits()))
        } else {
            None
        }
    }

    // Whether every field fits its bits.
    fn fits(&self) -> bool
        ensures { result ≡ fitting widths (fields_of self.now) }
    {
        self.shape < 16
            && self.kind < 64
            && (self.parameter as u16) < 256
            && self.column < 64
            && self.child < 256
            && self.next < 256
            && self.rest < 1 << 24
    }

    // The fields side by side in one number.
    fn joined_bits(&self) -> u64
        requires { fitting widths (fields_of self.now) ≡ true }
        ensures { result ≡ joined widths (fields_of self.now) }
    {
        (u64::from(self.shape) << 60)
            + (u64::from(self.kind) << 54)
            + (u64::from(self.parameter) << 46)
            + (u64::from(self.column) << 40)
            + (u64::from(self.child) << 32)
            + (u64::from(self.next) << 24)
            + u64::from(self.rest)
    }
}

impl Packed for NodeRecord {
    ghost decode = { unpacked };

    fn unpack(eight: &[u8; 8]) -> NodeRecord
        ensures { result ≡ unpacked eight.now }
    {
        let n = number(eight);
        NodeRecord {
            shape: (n >> 60) as u8,
            kind: ((n >> 54) % 64) as u8,
            parameter: ((n >> 46) % 256) as u8,
            column: ((n >> 40) % 64) as u8,
            child: ((n >> 32) % 256) as u16,
            next: ((n >> 24) % 256) as u16,
            rest: (n % (1 << 24)) as u32,
        }
    }
}
