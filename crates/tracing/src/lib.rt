// Passes over an export: its trace, and the export written again from the reports of its rows.
#![tactic(auto)]

pub mod print;
pub mod stop;
pub mod trace;
