// A row rule whose frame puts bytes before the row.
#![tactic(auto)]

pub mod head;
#[cfg(test)]
mod tests;
