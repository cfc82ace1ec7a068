//! Cell tables: the kinds of cells that a circuit may use.
use crate::list::List;
use crate::name::Name;

/// What a cell does with pulses.
#[derive(Clone, Copy, Debug, PartialEq, Eq)]
pub enum Kind {
    /// Passes each pulse on.
    Jtl,
    /// Passes each pulse on to two outputs.
    Split,
    /// Passes the pulses of two inputs on to one output.
    Merge,
    /// Answers each clock pulse by its truth table.
    Gate,
}

/// A row of a cell table: a kind of cell with its pins and its times.
#[derive(Debug, Drop)]
pub struct CellRow {
    pub name: Name,
    pub kind: Kind,
    /// The input pins, numbered from 0.
    pub inputs: List<Name>,
    /// The clock pin of a gate, numbered after the inputs.
    pub clock: Option<Name>,
    /// The output pins, numbered apart from 0.
    pub outputs: List<Name>,
    /// Bit `r` is the output at row `r` of the truth table; the first input is bit 0 of the row. 0 on a passive cell.
    pub truth: u16,
    /// The least delay from an input, or at a gate from the clock, to an output, in femtoseconds.
    pub low: i64,
    /// The greatest such delay, in femtoseconds.
    pub high: i64,
    /// How long before a clock pulse no data pulse may come, in femtoseconds. 0 on a passive cell.
    pub setup: i64,
    /// How long after a clock pulse no data pulse may come, in femtoseconds. 0 on a passive cell.
    pub hold: i64,
    /// The least distance of two pulses at the inputs of a passive cell, or of two clock pulses of a gate, in femtoseconds.
    pub dead: i64,
}

/// The kinds of cells that a circuit may use.
#[derive(Debug, Drop)]
pub struct CellTable {
    pub rows: List<CellRow>,
}
