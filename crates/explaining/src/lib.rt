// What is said of an export to a person: why rows are set aside, and how a resent export differs.
#![tactic(auto)]

mod cause;
pub mod explain;
mod faults;
pub mod matched;
mod reports;
pub mod row;
mod shown;
pub mod texts;
