//! A log of proof steps over a formula, each of which holds.
//!
//! A step adds a clause, and names by its hints the earlier clauses from which the clause follows. The log's type keeps that each step
//! holds against the clauses before it, so a log that ends in the empty clause shows that no assignment satisfies the formula.
#![tactic(auto)]

mod answer;
mod hint;
mod laws;
mod log;
mod marks;
mod step;

pub use answer::Answer;
pub use hint::HintReading;
pub use laws::{denials_are_sound, readings_are_sound};
pub use log::ProofLog;
pub use marks::Marks;
pub use step::step_holds;
