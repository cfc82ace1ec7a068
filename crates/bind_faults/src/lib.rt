//! Which fault of a source is answered: the causes are looked for in their order, each over the modules that the top reaches.
#![tactic(auto)]

mod check;
mod doubles;
mod find;
mod kinds;
mod lookup;
mod ports;
mod rings;
mod scan;
mod tops;
mod widths;

pub use find::{Reached, find_fault};
