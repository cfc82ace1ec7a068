//! Golden circuits read from AIGER files (Biere, Heljanko, Wieringa: AIGER 1.9 And Beyond, 2011).
//!
//! [`read_aiger`] reads both forms, with their symbols: the graph, or the first fault with its place.
#![tactic(auto)]

mod ascii;
mod binary;
mod definitions;
mod forms;
mod laws;
mod lines;
mod text;

pub use aiger_parts::{AigerFault, AigerWhy};
pub use forms::read_aiger;
pub use laws::{
    ands_are_read, breaks_are_faults, differences_are_read, faults_break, files_are_spelled,
    files_break_once, numbers_are_read, one_graph_is_spelled, spelled_files_break_nowhere,
};
