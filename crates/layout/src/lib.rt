// Layout files: a file of packed nodes and constants becomes a checked table, or is refused with the first number that applies.
#![tactic(auto)]

mod faults;
pub mod header;
mod judge;
mod levels;
pub mod node;
pub mod refusal;
mod shapes;
pub mod table;
