//! The clauses of a formula and those that a proof adds, by their ids.
#![tactic(auto)]

mod guesses;
mod table;

pub use table::ClauseTable;
