//! One lane, as it is stored.
use rsfq_ids::id::{CellId, LaneId};
use rsfq_ids::offence::PathArc;

/// A lane: a parent lane, and one arc more.
#[derive(Clone, Copy, Debug, PartialEq, Eq)]
pub struct LaneNode {
    /// The last arc.
    pub last: PathArc,
    /// The lane of the arcs before the last. It ends at the pin that the last arc reads. There is none exactly where the lane has one arc.
    pub parent: Option<LaneId>,
    /// The number of its arcs.
    pub length: u32,
    /// The sum of the least delays of its arcs, in femtoseconds.
    pub low: i64,
    /// The sum of the greatest delays of its arcs, in femtoseconds.
    pub high: i64,
}

/// A gate that a lane passes: from this pin, the clock pin of the gate, to this output.
#[derive(Clone, Copy, Debug, PartialEq, Eq)]
pub struct PassedGate {
    /// The gate.
    pub cell: CellId,
    /// Its clock pin.
    pub pin: u8,
    /// Its output, counted from 0.
    pub out: u8,
}

/// The least and the greatest delay of an arc, in femtoseconds.
#[derive(Clone, Copy, Debug)]
pub(crate) struct DelayRange {
    pub(crate) low: i64,
    pub(crate) high: i64,
}
