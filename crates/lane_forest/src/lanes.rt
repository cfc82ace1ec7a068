//! The timing paths to all pins of a circuit.
ghost use Rattle.std.specs.Prelude.{◌≡◌, ◌-◌, ◌<◌, ◌≤◌, ℤ, [], take, drop, map, length, slice_get, slice_index_or, Some, IfOk};
ghost use Rattle.std.specs.Iterator.{YieldsFirst, item_count};
ghost use Rattle.std.specs.List.{All, range_with_len};
ghost use Rattle.rsfq_ids.specs.Design.{Design};
ghost use Rattle.rsfq_ids.specs.Time.{IsWithin};
ghost use Rattle.pulse_laws.specs.Spread.{IsSpread, IsReached};
ghost use Rattle.lane_forest.specs.Gates.{IsGateOf, gate_in};
ghost use Rattle.lane_forest.specs.Forest.{arcs_at};
ghost use Rattle.lane_forest.specs.Table.{AreLanes, IsBoundedLane, IsBoundedSpread};
ghost use Rattle.lane_forest.specs.Pulses.{PulsesKeepApart};
ghost use Rattle.lane_forest.specs.Growth.{IsSpan, span_lanes};

use crate::forest::Forest;
use crate::growth::{Growth, Span};
use crate::node::{LaneNode, PassedGate};
use pulse_laws::laws::{runs_keep_spreads, spreads_fill};
use rsfq_ids::id::{Id, LaneId, PinId};
use rsfq_ids::list::NoMemory;
use rsfq_ids::offence::PathArc;
use std::alloc::Global;
use std::marker::Model;

/// The timing paths to all pins of a circuit, as lanes that share their beginnings.
///
/// Contracts see what is stored of each lane, its arcs and the gate that it passes, and the lanes of each pin. Its calls take no memory.
#[derive(Drop)]
pub struct Lanes {
    forest: Forest,
    spans: Vec<Span>,
    ids: Vec<LaneId>,
}

impl Model for Lanes {
    ghost use Rattle.lane_forest.specs.Table.{LaneTable};

    ghost Value = { LaneTable };

    ghost use Rattle.lane_forest.specs.Kept.{table_of, AreKept};

    ghost view = { table_of };

    ghost invariant = { AreKept };
}

/// The ids below a number, in order.
fn all_ids(alloc: Global, count: u32) -> Result<Vec<LaneId>, NoMemory>
    ensures { IfOk result (λ ids. ids.items ≡ range_with_len 0 count) }
{
    let mut ids = Vec::new(alloc);
    for lane in 0..count {
        ids.push(LaneId::of(lane))?;
    }
    Ok(ids)
}

/// The ids from one place up to another.
fn part_of<'a>(ids: &'a [LaneId], span: &Span) -> &'a [LaneId]
    requires order { span.now.from ≤ span.now.to }
    requires inside { span.now.to ≤ length ids.now }
    ensures { result.now ≡ take (span.now.to - span.now.from) (drop span.now.from ids.entry.now) }
{
    &ids[span.from as usize..span.to as usize]
}

impl Lanes {
    /// The lanes that have grown.
    pub(crate) fn new(alloc: Global, growth: Growth) -> Result<Lanes, NoMemory>
        requires { All (IsSpan (length growth.forest.nodes)) growth.spans.items }
        ensures { IfOk result (λ lanes. lanes ≡ record { nodes = growth.forest.nodes; arcs = growth.forest.arcs; gates = growth.forest.gates; pins = map span_lanes growth.spans.items }) }
    {
        let ids = all_ids(alloc, growth.forest.len())?;
        Ok(Lanes {
            forest: growth.forest,
            spans: growth.spans,
            ids,
        })
    }

    /// How many lanes there are: the timing paths to all pins.
    pub fn len(&self) -> u32
        ensures { result ≡ length self.now.nodes }
    {
        self.forest.len()
    }

    /// The lanes of a pin in order: at a merger those of its first pin before those of its second, and else in the order of the pin
    /// before.
    pub fn lanes(&self, pin: PinId) -> &[LaneId]
        ensures { result.now ≡ slice_index_or self.now.pins pin [] }
    {
        let ids = self.ids.as_slice();
        let place = pin.index();
        if place < self.spans.len() {
            part_of(ids, &self.spans[place])
        } else {
            &ids[0..0]
        }
    }

    /// What is stored of a lane. It has at most 100,001 arcs, and sums of at most 100,001 microseconds.
    pub fn node(&self, lane: LaneId) -> &LaneNode
        requires { lane < length self.now.nodes }
        ensures node { slice_get self.now.nodes lane ≡ Some result.now }
        ensures bounded { (design : Design) → AreLanes design self.now → IsBoundedLane result.now }
    {
        self.forest.node(lane)
    }

    /// The gate that a lane passes from its clock pin, and `None` exactly where it passes none. It is stored, so it takes one step.
    pub fn gate(&self, lane: LaneId) -> Option<PassedGate>
        requires { lane < length self.now.nodes }
        ensures gate { result ≡ gate_in self.now.gates lane }
        ensures exact { (design : Design) → AreLanes design self.now → IsGateOf design (arcs_at self.now.arcs lane) result }
    {
        self.forest.gate(lane)
    }

    /// The arcs of a lane, from the source on. Each takes steps logarithmic in the length of the lane.
    pub fn arcs(&self, lane: LaneId) -> Arcs<'_>
        requires { lane < length self.now.nodes }
        ensures { result ≡ arcs_at self.now.arcs lane }
    {
        Arcs {
            forest: &self.forest,
            lane,
            place: 0,
        }
    }

    /// The least and the greatest difference, in femtoseconds, of the delay sums of two lanes. With `same` the arcs with which they
    /// begin alike have the same delays in both, as where a pulse of one number passes them. Lanes of two sources share no arc, so
    /// `same` makes no difference there.
    ///
    /// Both ends are differences of some delays, and so is each whole number between. None is above 100,001 microseconds. It takes
    /// steps logarithmic in the lengths of the lanes.
    pub fn spread(&self, a: LaneId, b: LaneId, same: bool) -> (i64, i64)
        requires first { a < length self.now.nodes }
        requires second { b < length self.now.nodes }
        ensures spread { (design : Design) → AreLanes design self.now → IsSpread design same (arcs_at self.now.arcs a) (arcs_at self.now.arcs b) result.0 result.1 }
        ensures every { (design : Design) (difference : ℤ) → AreLanes design self.now → IsWithin result.0 result.1 difference → IsReached design same (arcs_at self.now.arcs a) (arcs_at self.now.arcs b) difference }
        ensures bounded { (design : Design) → AreLanes design self.now → IsBoundedSpread result.0 result.1 }
        ensures pulses { (design : Design) → AreLanes design self.now → PulsesKeepApart design self.now a b same result.0 result.1 }
    {
        runs_keep_spreads();
        spreads_fill();
        self.forest.spread(a, b, same)
    }
}

/// The arcs of a lane that are left, from the source on. Each is found by going up from the lane, in time logarithmic in its length.
#[derive(Drop)]
pub struct Arcs<'a> {
    forest: &'a Forest,
    lane: LaneId,
    place: u32,
}

impl<'a> Model for Arcs<'a> {
    ghost use Rattle.std.specs.Prelude.{List};
    ghost use Rattle.rsfq_ids.specs.declared.offence.PathArc.{PathArc};

    ghost Value = { List PathArc };

    ghost use Rattle.lane_forest.specs.Left.{arcs_left, AreLeft};

    ghost view = { arcs_left };

    ghost invariant = { AreLeft };
}

impl<'a> Iterator for Arcs<'a> {
    type Item = PathArc;

    ghost next_gives = { YieldsFirst (λ s. s) };

    ghost remaining = { item_count (λ s. s) };

    fn next(&mut self) -> Option<PathArc> {
        if self.place == self.forest.node(self.lane).length {
            return None;
        }
        self.place += 1;
        let at = self.forest.ancestor(self.lane, self.place);
        Some(self.forest.node(at).last)
    }
}
