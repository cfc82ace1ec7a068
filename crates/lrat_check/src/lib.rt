//! Checking proofs in the LRAT text format, and the program that does so.
//!
//! A proof adds clauses line by line, each with hints: earlier clauses from which it follows by unit propagation. A proof that holds and adds
//! the empty clause shows that no assignment satisfies the formula.
#![tactic(auto)]

mod check;
mod fault;
mod laws;
mod reach;
mod report;
mod run;
mod words;
mod write;

pub use check::check_text;
pub use fault::{LratFault, LratWhy};
pub use laws::{
    additions_are_steps, ended_log_is_accepted, faults_break, refused_words_ask_for_nothing,
};
pub use run::lrat_run;
pub use write::write_lrat;
