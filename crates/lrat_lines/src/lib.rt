//! The lines of a proof in the LRAT text format: additions of clauses with their hints, and deletions.
#![tactic(auto)]

mod field;
mod laws;
mod line;

pub use laws::lines_are_spelled;
pub use line::{Form, Numbers};
