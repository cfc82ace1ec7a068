//! From the bytes of a netlist to its circuit: tokens, tree, bound source, flat circuit, and the refusal of the first stage that has none.
#![tactic(auto)]

mod load;
mod refusal;

pub use load::load_circuit;
pub use refusal::Refusal;
