// Printing a report back: the bytes of its row, or its frame, in a buffer of the caller's.
#![tactic(auto)]

mod frame;
mod length;
mod part;
mod parts;
mod row;
mod source;

pub use frame::print_framed;
pub use length::printed_length;
pub use row::print;
