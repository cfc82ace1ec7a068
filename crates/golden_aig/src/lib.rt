//! The golden circuit: an and-inverter graph, its values, and which ports of a netlist its inputs and outputs stand for.
//!
//! [`eval`] answers the values of the outputs under a word, and [`match_ports`] pairs the two sides of the graph with the
//! data inputs and the outputs of a circuit. What a value is and what a pairing is stand in `specs/`.
#![tactic(auto)]

mod evaluation;
mod graph;
mod laws;
mod matching;
mod pairing;

pub use evaluation::eval;
pub use graph::{Aig, And};
pub use laws::{golden_values, values_are_determined};
pub use matching::match_ports;
pub use pairing::{Match, PortFault};
