//! The clock of a circuit: which nets carry it, and that it goes to the clock pins of the gates and nowhere else.
//!
//! [`classify`] tells the nets of the clock, or shows the first offence against the rules on clocks.
#![tactic(auto)]

mod back;
mod clocked;
pub mod laws;
mod marks;
mod rules;

pub use clocked::{Clocked, classify};
