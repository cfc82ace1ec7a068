//! Variables by their scores: which of those that are present has the greatest one.
#![tactic(auto)]

mod order;

pub use order::{Seat, VariableOrder};
