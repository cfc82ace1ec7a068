//! The timing table: when a circuit's ports get and give their pulses, read from comma-separated text and bound to the ports.
#![tactic(auto)]

pub mod bind;
mod bit_names;
pub mod env;
pub mod fault;
mod line;
pub mod read;
pub mod role;
mod uses;
