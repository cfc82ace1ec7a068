//! Offences against the rules of sign-off, with the paths and pulses that show them.

ghost use Rattle.rsfq_ids.specs.declared.offence.RuleFault.TheVariants.{Memory};
ghost use Rattle.std.specs.Prelude.{◌≡◌};

use crate::circuit::Reader;
use crate::id::{CellId, NetId, PinId, PortId};
use crate::list::{List, NoMemory};
use thiserror::Error;

/// One arc of a timing path.
#[derive(Clone, Copy, Debug, PartialEq, Eq)]
pub enum PathArc {
    /// From an input bit; the first arc of a path, and no other.
    Port(PortId),
    /// Through a cell, from a pin to an output.
    Through { cell: CellId, pin: u8, out: u8 },
}

/// A pulse on a timing path, with the delays that it takes.
#[derive(Debug, Drop)]
pub struct PathPick {
    /// The path, from its port on.
    pub arcs: List<PathArc>,
    /// The delay on each arc, in femtoseconds.
    pub delays: List<i64>,
    /// The number of the tick behind which the pulse starts: that of its word, or of the clock pulse.
    pub number: u64,
    /// The pin where it ends.
    pub ends: PinId,
}

/// What a pulse is held against.
#[derive(Debug, Drop)]
pub enum Against {
    /// A pulse at the clock pin of the gate.
    Clock(PathPick),
    /// A strobe of the output, by its number.
    Strobe(u64),
}

/// A path to a pin with its steps.
#[derive(Debug, Drop)]
pub struct TrailHop {
    pub arcs: List<PathArc>,
    pub pin: PinId,
    /// How many clock pulses of the gate, or strobes of the output, a pulse lies behind that of its own number.
    pub steps: i64,
}

/// Hops from a data input, each through the gate at which the one before ended.
#[derive(Debug, Drop)]
pub struct Trail {
    pub hops: List<TrailHop>,
}

/// A broken rule, with what shows it.
#[derive(Debug, Drop)]
pub enum Offence {
    /// Two pins read one net.
    Fanout {
        net: NetId,
        first: PinId,
        second: PinId,
    },
    /// Each cell reads from the one before it, and the first from the last.
    Loop {
        cells: List<CellId>,
    },
    /// A route leads to a gate's clock pin from a data input, or through a merger or a gate.
    DataOnClock {
        pin: PinId,
        path: List<PathArc>,
    },
    /// A route from the clock port through JTLs and splitters alone leads to a gate's data pin.
    ClockOnData {
        pin: PinId,
        path: List<PathArc>,
    },
    /// Such a route leads to a merger's pin.
    ClockMerged {
        pin: PinId,
        path: List<PathArc>,
    },
    /// Such a route leads to an output.
    ClockOut {
        pin: PinId,
        path: List<PathArc>,
    },
    /// Two different pulses come to one cell too near to each other.
    Dead {
        cell: CellId,
        first: PathPick,
        second: PathPick,
    },
    /// A pulse comes within the setup or hold of a clock pulse or strobe.
    Window {
        pin: PinId,
        pulse: PathPick,
        against: Against,
    },
    /// A pulse of number 1 comes not later than clock pulse 0 or strobe 0.
    Ahead {
        pin: PinId,
        pulse: PathPick,
        against: Against,
    },
    /// Two trails lead to one gate, written as its pin 0, or output with different sums of steps.
    Unequal {
        reader: Reader,
        first: Trail,
        second: Trail,
    },
    /// Under a word an output has another value than the golden circuit says.
    Differ {
        output: PortId,
        word: List<bool>,
        netlist: bool,
        golden: bool,
    },
}

/// Why a rule has no Ok.
#[derive(Debug, Drop, Error)]
pub enum RuleFault {
    /// The rule is broken, as the offence shows.
    #[error("a rule is broken")]
    Offends(Offence),
    #[error("out of memory")]
    Memory,
}

impl From<NoMemory> for RuleFault {
    ghost from_gives = { λ _ e. e ≡ Memory };

    fn from(_: NoMemory) -> Self {
        RuleFault::Memory
    }
}
