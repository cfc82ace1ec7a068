//! What the cell table and the timing table share: records by csv's rules, and the checks of their fields.
#![tactic(auto)]

pub mod checks;
pub mod names;
pub mod records;
