//! The sites of a module of a Verilog source: all that stands in it, as one list in text order.
//!
//! [`Sites::of`] lists them. What a site is, and what the names of a module are by its sites, stands in `specs/`.
#![tactic(auto)]

mod listing;
mod numbers;
mod site;
mod sort;

pub use listing::Sites;
pub use numbers::numbers_are_small;
pub use site::{Operand, Site};
pub use sort::Sort;
