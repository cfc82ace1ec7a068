//! The graph as it is handed about: inputs, ANDs in an order of use, and output literals.
//!
//! Variable 0 is the constant false. Variables are numbered from 1, the inputs first and then the ANDs in their order. A
//! literal is twice a variable, or that plus 1 for its negation, as in the AIGER format (Biere, Heljanko, Wieringa:
//! AIGER 1.9 And Beyond, 2011).

use rsfq_ids::list::List;
use rsfq_ids::name::Name;

/// An AND of two literals.
#[derive(Clone, Copy, Debug, PartialEq, Eq, Drop)]
pub struct And {
    /// The even literal that the AND makes.
    pub lhs: u32,
    pub rhs0: u32,
    pub rhs1: u32,
}

/// An and-inverter graph without latches.
#[derive(Debug, Drop)]
pub struct Aig {
    /// How many inputs there are. Input `k`, from 0, is variable `k + 1`.
    pub inputs: u32,
    /// The AND at place `k`, from 0, is variable `inputs + k + 1` and uses lower variables alone.
    pub ands: List<And>,
    /// One literal for each output.
    pub outputs: List<u32>,
    /// The symbol of each input, if it has one.
    pub in_names: List<Option<Name>>,
    /// The symbol of each output, if it has one.
    pub out_names: List<Option<Name>>,
}
