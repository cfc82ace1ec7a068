//! The hierarchy of the modules of a text: what the kinds of instances mean, which module is the top, which modules it reaches,
//! in which order they can be taken from the bottom up, and the first ring of modules that instantiate each other.
//!
//! A module is told by its place in text order, from 0. Where two modules have one name, the first is meant.
#![tactic(auto)]

mod duplicates;
mod graph;
mod kinds;
mod reaching;
mod top;

pub use duplicates::first_duplicate;
pub use graph::module_graph;
pub use kinds::{Kinds, Meaning};
pub use reaching::{Reach, reach_from};
pub use top::{TopFault, named_top, single_top};
