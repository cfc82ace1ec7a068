//! The text of a formula in the DIMACS format: the head `p cnf V C`, and for each clause a line of its literals that ends in ` 0`.
#![tactic(auto)]

mod clauses;
mod fault;
mod head;
mod laws;
mod number;
mod parts;
mod read;
mod write;

pub use fault::{TextFault, TextWhy};
pub use laws::{one_formula_is_spelled, readings_are_spelled, texts_say_formulas};
pub use number::{Signed, read_signed};
pub use parts::{line_end, next_field};
pub use read::read_dimacs;
pub use write::{append_literals, write_dimacs};
