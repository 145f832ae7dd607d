// Reports: what reading a row under a layout and a family gives, and what holds of it whatever the layout, the family and the row.
#![tactic(auto)]

pub mod check;
pub mod laws;
pub mod line;
pub mod outcome;
pub mod worked;
