// The words of the program `neskvaru`: what its options mean, and the lines that it writes.
#![tactic(auto)]

pub mod families;
pub mod listing;
pub mod numbers;
pub mod problems;
pub mod readings;
pub mod rules;
pub mod texts;
