// The memory of a report: taken once, and used for one row after another.
#![tactic(auto)]

pub mod memory;
