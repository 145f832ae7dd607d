// Field families: what the kinds of a layout mean on the bytes of a row, how they are read and how they are spelled.
#![tactic(auto)]

mod amount;
pub mod ascii;
pub mod binary;
pub mod cause;
mod choice;
pub mod cursor;
mod date;
mod digits;
pub mod family;
pub mod pair;
pub mod rules;
mod spelling;
pub mod start;
mod text;
mod whole;
mod width;
