// Packed lists: records of eight bytes, one loader for all of them, and the packed forms of nodes and constants.
#![tactic(auto)]

pub mod constant;
mod eight;
pub mod loader;
pub mod record;
