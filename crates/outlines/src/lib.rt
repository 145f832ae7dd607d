// The tree of a layout in words, one line for each node.
#![tactic(auto)]

pub mod line;
pub mod tree;
pub mod words;
