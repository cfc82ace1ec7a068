//! The truth tables of gates: a row's digit, and the clauses that say the same of literals.
#![tactic(auto)]

pub mod clause;
pub mod pins;
pub mod truth;
