// Loading a layout file into a table.
ghost use Rattle.std.specs.Prelude.{◌≡◌, ◌*◌, ◌≤◌, [], ◌∷◌, map, length, IfOk, vec_capacity, MatchResult};
ghost use Rattle.packed.specs.Pieces.{records as records_of};
ghost use Rattle.packed.specs.Constants.{constant_of};
ghost use Rattle.layout.specs.Shapes.{node_of, sorts};
ghost use Rattle.layout.specs.Trees.{blank, TreeOf};
ghost use Rattle.layout.specs.Loading.{Loaded, RoomStays, DepthTold};
ghost use Rattle.layout.specs.Files.{Sized, nodes_in, constants_in, refusal, answer};

use crate::header::{Header, MOST_CONSTANTS};
use crate::judge::judge;
use crate::levels::MOST_NODES;
use crate::node::{BLANK, Node};
use crate::refusal::Refusal;
use crate::shapes::node_of;
use crate::table::Layout;
use fields::family::Family;
use packed::loader::load;
use packed::record::NodeRecord;
use std::alloc::{AllocError, Global};

// What records hold until they are loaded.
const UNREAD: NodeRecord = NodeRecord {
    shape: 0,
    kind: 0,
    parameter: 0,
    column: 0,
    child: 0,
    next: 0,
    rest: 0,
};

// Puts the nodes of judged records in the place of a table's. There is room, so that pushing takes no memory and cannot fail; `extend` would answer whether it did.
fn put_nodes(out: &mut Vec<Node>, records: &[NodeRecord])
    requires { length records.now ≤ vec_capacity out.old }
    ensures items { out.new.items ≡ map node_of records.now }
    ensures capacity { vec_capacity out.new ≡ vec_capacity out.old }
{
    out.clear();
    for record in records {
        out.push_reserved(node_of(record));
    }
}

// Puts items in the place of a list's own, for which there is room: `extend_from_slice` does not say that the room stays what it was.
fn refill<T: Copy>(out: &mut Vec<T>, items: &[T])
    requires { length items.now ≤ vec_capacity out.old }
    ensures items { out.new.items ≡ items.now }
    ensures capacity { vec_capacity out.new ≡ vec_capacity out.old }
{
    out.clear();
    for item in items {
        out.push_reserved(*item);
    }
}

// Puts packed constants in the place of a table's, which has room for them; `numbers` has room for just these.
fn put_constants(out: &mut Vec<i64>, bytes: &[u8], numbers: &mut [i64])
    requires fit { length bytes.now ≡ 8 * length numbers.old }
    requires room { length numbers.old ≤ vec_capacity out.old }
    ensures items { out.new.items ≡ records_of constant_of bytes.now }
    ensures capacity { vec_capacity out.new ≡ vec_capacity out.old }
{
    load(bytes, numbers);
    refill(out, numbers);
}

impl Layout {
    // A layout of one mark, byte 00, with memory for any layout.
    pub fn new(heap: Global) -> Result<Layout, AllocError>
        ensures { IfOk result (λ l. (l.nodes.items ≡ blank ∷ []) × (l.constants.items ≡ [])) }
    {
        let mut nodes = Vec::with_capacity(heap, MOST_NODES)?;
        let constants = Vec::with_capacity(heap, MOST_CONSTANTS)?;
        nodes.push_reserved(BLANK);
        Ok(Layout { nodes, constants })
    }

    // Loads a file whose counts are right; `records` has room for just its nodes.
    fn load_records<F: Family>(
        &mut self,
        family: &F,
        bytes: &[u8],
        header: Header,
        records: &mut [NodeRecord],
    ) -> Result<(), Refusal>
        requires sized { Sized bytes.now header.nodes header.constants }
        requires room { length records.old ≡ header.nodes }
        ensures value { result ≡ answer (refusal (sorts (F.Family.means family.now)) bytes.now) }
        ensures after { MatchResult result (λ _. (self.new.nodes.items ≡ nodes_in bytes.now) × (self.new.constants.items ≡ constants_in bytes.now)) (λ _. self.new ≡ self.old) }
        ensures room { RoomStays self.old self.new }
    {
        let (nodes, constants) = header.records(bytes);
        load(nodes, records);
        judge(family, records, header.constants)?;
        let mut numbers = [0; MOST_CONSTANTS];
        put_nodes(&mut self.nodes, records);
        put_constants(
            &mut self.constants,
            constants,
            &mut numbers[0..header.constants],
        );
        Ok(())
    }

    // Loads a file in the place of what was loaded before, or refuses it with the first refusal that applies and changes nothing. It takes no memory: the room of the table stays what it was.
    pub fn load<F: Family>(&mut self, family: &F, bytes: &[u8]) -> Result<(), Refusal>
        ensures value { result ≡ answer (refusal (sorts (F.Family.means family.now)) bytes.now) }
        ensures after { MatchResult result (λ _. Loaded (sorts (F.Family.means family.now)) bytes.now self.new.nodes.items self.new.constants.items) (λ _. self.new ≡ self.old) }
        ensures room { RoomStays self.old self.new }
        ensures tree { TreeOf 16 self.new.nodes.items self.new.constants.items }
        ensures depth { DepthTold bytes.now result }
    {
        let header = Header::of(bytes).ok_or(Refusal::Size)?;
        let count = header.nodes;
        let mut records = [UNREAD; MOST_NODES];
        self.load_records(family, bytes, header, &mut records[0..count])
    }
}
