//! The graph of a circuit: one reader for each net, no loop, and an order of the cells along the pulses.
//!
//! [`build`] makes a [`Graph`] of a well-formed circuit, or shows a net with two readers or cells in a loop.
#![tactic(auto)]

mod building;
mod ends;
mod graph;
pub mod laws;
mod loops;
mod readers;
mod ready;
mod rows;
mod sorting;
mod starts;
mod wiring;

pub use building::build;
pub use graph::Graph;
