// Looking a table up: its nodes, its constants, and its tree.
ghost use Rattle.std.specs.Prelude.{◌≡◌, ◌<◌, ◌≤◌, false, ◌++◌, length, IfOk, OnOk};
ghost use Rattle.layout.specs.Shapes.{names_none};
ghost use Rattle.layout.specs.Trees.{or_zero, node_at, parts_at, tree_of, outline as outline_from, outline_of, TreeOf};

use crate::node::{BLANK, Entry, Node};
use crate::table::Layout;
use std::alloc::{AllocError, Global};

impl Layout {
    // Every table stands for one tree, whatever was loaded or refused: a law of the type, which runs nothing.
    pub fn tree_law(&self)
        ensures { TreeOf 16 self.now.nodes.items self.now.constants.items }
    {}

    // The nodes by number; the first is node 1, the root.
    pub fn nodes(&self) -> &[Node]
        ensures { result.now ≡ self.now.nodes.items }
    {
        self.nodes.as_slice()
    }

    // The constants, from number 0 on.
    pub fn constants(&self) -> &[i64]
        ensures { result.now ≡ self.now.constants.items }
    {
        self.constants.as_slice()
    }

    // The node of a number, from 1; past the table a blank mark. (0 is taken for 1: a type without 0 would ask more of callers.)
    pub fn node(&self, number: u16) -> Node
        ensures { result ≡ node_at self.now.nodes.items number }
    {
        let at = usize::from(number).saturating_sub(1);
        self.nodes.get(at).copied().unwrap_or(BLANK)
    }

    // Adds a node, its later siblings and what is below them, in the order of reading.
    fn add_from(
        &self,
        number: Option<u16>,
        depth: u16,
        out: &mut Vec<Entry>,
    ) -> Result<(), AllocError>
        requires inside { or_zero number ≤ length self.now.nodes.items }
        requires low { 0 < or_zero number → depth ≤ or_zero number }
        requires named { names_none number ≡ false }
        ensures { OnOk result (out.new.items ≡ out.old.items ++ outline_of depth (parts_at self.now.nodes.items self.now.constants.items (or_zero number))) }
    {
        let Some(number) = number else {
            return Ok(());
        };
        out.push(Entry { number, depth })?;
        let node = self.node(number);
        self.add_from(node.shape.child(), depth + 1, out)?;
        self.add_from(node.next, depth, out)
    }

    // The nodes of the tree in the order of reading, each before those below it.
    pub fn outline(&self, heap: Global) -> Result<Vec<Entry>, AllocError>
        ensures { IfOk result (λ v. v.items ≡ outline_from 1 (tree_of self.now.nodes.items self.now.constants.items)) }
    {
        let mut out = Vec::new(heap);
        self.add_from(Some(1), 1, &mut out)?;
        Ok(out)
    }
}
