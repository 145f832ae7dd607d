// The import: an export is cut into rows, each row is handed out under a slip, read, and filed once.
#![tactic(auto)]

pub mod answer;
pub mod import;
pub mod refusal;
pub mod slip;
pub mod stage;
