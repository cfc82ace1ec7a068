//! The texts of answers that concern a netlist: so far the line of one that is refused.
#![tactic(auto)]

mod line;
mod refused;

pub use refused::refusal_line;
