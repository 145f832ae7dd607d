// One row after another through an import: each is opened, read, and filed.
#![tactic(auto)]

pub mod pass;
