//! The timing paths of a circuit, as lanes that share their beginnings.
#![tactic(auto)]

mod fault;
mod forest;
mod growing;
mod growth;
mod lanes;
pub mod laws;
mod node;
mod order;

pub use fault::LaneFault;
pub use growing::grow;
pub use lanes::{Arcs, Lanes};
pub use node::{LaneNode, PassedGate};
