//! Flattening: the circuit without hierarchy that a bound source comes to.
//!
//! The printed names of places in refusals are those of `flat_names`.
#![tactic(auto)]

mod assigns;
mod ends;
mod fault;
mod flattening;
mod offsets;
mod shape;
mod solid;
mod wiring;

pub use fault::FlatFault;
pub use flattening::flatten;
