//! The formula that has a solution exactly where a circuit and its golden circuit differ, and the formula of a launch.
#![tactic(auto)]

mod cells;
mod facts;
mod golden;
mod made;
mod making;
mod naming;
mod outputs;

pub use made::{MiterCnf, Sorts};
pub use making::{launches, miter};
