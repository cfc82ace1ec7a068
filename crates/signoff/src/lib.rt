//! The sign-off of one netlist: from the words of the command line to the report on the sink.
//!
//! `sign_off_run` does all the work. Its contract says when each answer comes and what then stands on the sink; its clause
//! `answer` carries the whole meaning, and the others follow from it.
#![tactic(auto)]

mod run;
mod steady;
mod text;
mod verdict;
mod words;

pub use run::sign_off_run;
pub use steady::sign_off_status;
