//! Circuits without hierarchy, the benches that they stand on, and formulas.
ghost use Rattle.std.specs.Prelude.{◌≡◌};

use crate::id::{CellId, Lit, NetId, PinId, PortId};
use crate::list::{IdVec, List};
use crate::name::Name;

/// What drives a net.
#[derive(Clone, Copy, Debug, PartialEq, Eq)]
pub enum Driver {
    /// An input bit.
    Port(PortId),
    /// An output of a cell, by its number among the outputs.
    Out(CellId, u8),
}

/// What reads a net.
#[derive(Clone, Copy, Debug, PartialEq, Eq)]
pub enum Reader {
    /// A pin of a cell, the inputs first and then the clock.
    Pin(CellId, u8),
    /// An output bit.
    Port(PortId),
}

/// One bit of a port.
#[derive(Debug, Drop)]
pub struct PortBit {
    /// The printed name, as `a` or `a[3]`.
    pub name: Name,
    /// An output of the circuit; else an input.
    pub output: bool,
}

/// A cell, by the row of the cell table that it is of.
#[derive(Debug, Drop)]
pub struct FlatCell {
    /// The instance names from the top down, parted by dots.
    pub path: Name,
    /// The place of its row in the cell table.
    pub row: u32,
}

/// A place that reads a net.
#[derive(Clone, Copy, Debug, PartialEq, Eq)]
pub struct Pin {
    pub reader: Reader,
    pub net: NetId,
}

/// A circuit without hierarchy. Each net has one driver; `nets` holds it.
#[derive(Debug, Drop)]
pub struct Flat {
    pub ports: IdVec<PortId, PortBit>,
    pub cells: IdVec<CellId, FlatCell>,
    pub nets: IdVec<NetId, Driver>,
    pub pins: IdVec<PinId, Pin>,
}

/// When an output is read in each period, and the zone around that time that pulses keep out of.
#[derive(Clone, Copy, Debug, PartialEq, Eq)]
pub struct Strobe {
    /// How long after its tick each strobe comes, in femtoseconds, less than the period.
    pub offset: i64,
    /// How long before a strobe no pulse may come, in femtoseconds.
    pub setup: i64,
    /// How long after a strobe no pulse may come, in femtoseconds.
    pub hold: i64,
}

/// What a port bit is used for.
#[derive(Clone, Copy, Debug, PartialEq, Eq)]
pub enum PortUse {
    /// The clock.
    Clock,
    /// Data: a 1 in a word is a pulse from `low` to `high` femtoseconds after the tick of the word.
    Arrival { low: i64, high: i64 },
    /// An output, which is read at a strobe.
    Strobed(Strobe),
}

impl PortUse {
    ghost use Rattle.rsfq_ids.specs.Bench.{is_data};

    /// Whether the port is a data input.
    pub fn is_data(&self) -> bool
        ensures { result ≡ is_data self.now }
    {
        match self {
            PortUse::Arrival { low: _, high: _ } => true,
            PortUse::Clock => false,
            PortUse::Strobed(_) => false,
        }
    }
}

/// How a circuit is driven and read. Tick `k` of the source clock is at `k` periods.
#[derive(Debug, Drop)]
pub struct Bench {
    /// In femtoseconds, at least 1.
    pub period: i64,
    /// How long after its tick a pulse of the clock port may come at most, in femtoseconds.
    pub jitter: i64,
    /// The one port whose use is `Clock`.
    pub clock: PortId,
    /// The use of each port, in port order.
    pub uses: IdVec<PortId, PortUse>,
}

/// A formula in conjunctive form: all of the clauses hold, each by one of its literals.
#[derive(Debug, Drop)]
pub struct Cnf {
    /// How many variables there are, numbered from 0.
    pub vars: u32,
    pub clauses: List<List<Lit>>,
}
