//! The laws that lead from paths to the values in a run.
#![tactic(auto)]

pub mod examples;
pub mod laws;
pub mod plain;
