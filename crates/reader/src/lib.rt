// Reading: one loop over a list of open nodes makes the report of a row.
#![tactic(auto)]

pub(crate) mod open;
pub mod reader;
pub mod refusal;
mod source;
