//! The cell table: the kinds of cells that a circuit may use, read from comma-separated text.
#![tactic(auto)]

mod cell;
mod digits;
mod kind;
mod pins;
pub mod read;
mod times;
