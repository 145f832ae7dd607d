// The calls of the C library, on bytes: an export is checked, traced, written again and matched in one call each.
#![tactic(auto)]

pub mod buffer;
pub mod check;
pub mod matching;
pub mod print;
pub mod status;
pub mod trace;
pub mod words;
