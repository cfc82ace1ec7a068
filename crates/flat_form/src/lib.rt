//! Which circuits are JTL wires: what the first stage of the sign-off takes.
//!
//! [`find_wires`] finds the clock's port and an order of the cells of a well-formed circuit of JTLs, and none exactly where no input is named
//! `clk`, the clock is read, a net has two readers or JTLs form a ring. [`wire_bench`] gives the bench on which such a circuit is timed.
#![tactic(auto)]

mod bench;
mod clock;
mod order;
mod readers;
mod wires;

pub use bench::{wire_bench, wire_table};
pub use wires::{Wires, find_wires};

#[cfg(test)]
mod tests;
