//! Numbers in decimal digits: read from a field, and appended to a text.
#![tactic(auto)]

mod read;
mod write;

pub use read::{NumberRead, read_digits, read_number};
pub use write::{append_number, append_signed, push_number};
