//! The names of one module: what each is, and which is given twice.
#![tactic(auto)]

mod again;
mod checks;
mod crossing;
mod index;
mod keys;
mod laws;
mod links;
mod outside;
mod ports;
mod ranges;
mod scope;
mod written;

pub use again::find_bit_again;
pub use laws::ranges_are_one;
pub use ranges::{select, width_of};
pub use scope::Scope;
