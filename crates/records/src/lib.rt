// The records of a trace: what `neskvaru trace` writes, one a line.
#![tactic(auto)]

mod hex;
pub mod record;
