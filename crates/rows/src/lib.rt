// Row rules: how a bank's export is cut into rows.
#![tactic(auto)]

mod choice;
pub mod file;
mod frames;
pub mod newline;
pub mod piece;
pub mod refusal;
pub mod rule;
pub mod sample;
pub mod width;
