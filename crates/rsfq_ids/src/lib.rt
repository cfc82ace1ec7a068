//! The words that every part of the sign-off shares: ids, names, lists, circuits, paths and offences.
#![tactic(auto)]

pub mod circuit;
pub mod id;
pub mod limits;
pub mod list;
pub mod name;
pub mod offence;
pub mod table;
pub mod table_fault;
