//! The printed form of a syntax tree of the structural Verilog subset.
//!
//! `print` writes a text whose tokens spell the tree again: each word of the tree with one blank
//! behind it.
#![tactic(auto)]

mod laws;
mod phrase;
mod print_items;
mod print_phrases;
mod printer;
mod printing;

pub use laws::printed_trees_are_read_back;
pub use printing::print;
