//! The parts of an AIGER file (Biere, Heljanko, Wieringa: AIGER 1.9 And Beyond, 2011), each read from the left.
//!
//! A reader takes the bytes from a place in the file to its end, and answers the part that stands at the front or the first fault. But for
//! the symbols, which are the last part, it answers the bytes behind the part too. What each part is stands in `specs/`.
#![tactic(auto)]

mod ands;
mod fault;
mod fields;
mod header;
mod outputs;
mod symbols;

pub use ands::take_ands;
pub use fault::{AigerFault, AigerWhy, ReadStop, Stop, fault_of};
pub use fields::take_number;
pub use header::{Form, Header, take_header};
pub use outputs::{end_line, take_literal, take_outputs};
pub use symbols::{Symbols, take_symbols};
