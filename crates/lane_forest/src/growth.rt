//! Lanes that grow pin by pin.
ghost use Rattle.std.specs.Prelude.{◌≡◌, ℕ, ◌+◌, ◌<◌, [], length, replicate, slice_get, Some, IfOk, OnOk, IfErr};
ghost use Rattle.rsfq_ids.specs.declared.id.CellId.{CellId};
ghost use Rattle.rsfq_ids.specs.declared.circuit.Pin.{Pin};
ghost use Rattle.rsfq_ids.specs.declared.circuit.Driver.TheVariants as driver;
ghost use Rattle.rsfq_ids.specs.declared.offence.PathArc.TheVariants as arc;
ghost use Rattle.rsfq_ids.specs.Circuit.{IsDrivenBy, is_gate};
ghost use Rattle.rsfq_ids.specs.WellFormed.{IsRow, IsBench};
ghost use Rattle.clock_tree.specs.Clock.{design_of};
ghost use Rattle.lane_forest.specs.Growth.{IsPassedRange, HasDelayRange, HasReadyRank, IsSafe, IsServed, IsMade, IsPinOrder, IsGrown};
ghost use Rattle.lane_forest.specs.Faults.{IsLaneFault};

use crate::fault::LaneFault;
use crate::forest::Forest;
use crate::node::DelayRange;
use net_graph::Graph;
use rsfq_ids::circuit::{Bench, Driver, PortUse};
use rsfq_ids::id::{CellId, Id, NetId, PinId, PortId};
use rsfq_ids::limits::{LANE_LIMIT, PIN_LANE_LIMIT};
use rsfq_ids::list::NoMemory;
use rsfq_ids::offence::PathArc;
use rsfq_ids::table::{CellRow, Kind};
use std::alloc::Global;

/// The lanes of a pin: those from one id up to another.
#[derive(Clone, Copy)]
pub(crate) struct Span {
    pub(crate) from: u32,
    pub(crate) to: u32,
}

/// Lanes, and those of each pin.
#[derive(Drop)]
pub(crate) struct Growth {
    pub(crate) forest: Forest,
    pub(crate) spans: Vec<Span>,
}

/// Whether a cell is clocked.
fn is_clocked(row: &CellRow) -> bool
    ensures { result ≡ is_gate row.now.kind }
{
    match row.kind {
        Kind::Gate => true,
        Kind::Jtl | Kind::Split | Kind::Merge => false,
    }
}

/// The first pin from which pulses pass to the outputs of a cell, and how many such pins follow each other: the clock pin of a gate, all
/// inputs of any other cell.
fn passed_pins(row: &CellRow) -> (u8, u8)
    requires { IsRow row.now }
    ensures { IsPassedRange row.now result.0 result.1 }
{
    let inputs = row.inputs.len() as u8;
    if is_clocked(row) {
        (inputs, 1)
    } else {
        (0, inputs)
    }
}

/// The least and the greatest delay of the arc from a port that drives a net, in fs.
fn interval_of(graph: &Graph<'_>, bench: &Bench, net: NetId, port: PortId) -> DelayRange
    requires ready { HasReadyRank (design_of graph.now bench.now) }
    requires bench { IsBench graph.now.flat bench.now }
    requires driven { IsDrivenBy graph.now.flat net (driver.Port port) }
    ensures { HasDelayRange (design_of graph.now bench.now) (arc.Port port) result }
{
    match bench.uses.get(port) {
        Some(PortUse::Arrival { low, high }) => DelayRange {
            low: *low,
            high: *high,
        },
        Some(PortUse::Clock) => DelayRange {
            low: 0,
            high: bench.jitter,
        },
        Some(PortUse::Strobed(_)) => unreachable!(),
        None => unreachable!(),
    }
}

/// The least and the greatest delay of the arcs through a cell, in fs.
fn delay_of(row: &CellRow) -> DelayRange
    ensures low { result.low ≡ row.now.low }
    ensures high { result.high ≡ row.now.high }
{
    DelayRange {
        low: row.low,
        high: row.high,
    }
}

impl Growth {
    /// No lanes of so many pins.
    pub(crate) fn new(alloc: Global, pins: usize) -> Result<Growth, NoMemory>
        ensures nodes { IfOk result (λ growth. growth.forest.nodes ≡ []) }
        ensures arcs { IfOk result (λ growth. growth.forest.arcs ≡ []) }
        ensures gates { IfOk result (λ growth. growth.forest.gates ≡ []) }
        ensures spans { IfOk result (λ growth. growth.spans.items ≡ replicate pins (record { from = 0; to = 0 })) }
    {
        let spans = vec![in alloc; Span { from: 0, to: 0 }; pins]?;
        Ok(Growth {
            forest: Forest::new(alloc),
            spans,
        })
    }

    /// Makes the one lane to a net that a port drives.
    fn begin_at(
        &mut self,
        graph: &Graph<'_>,
        bench: &Bench,
        net: NetId,
        port: PortId,
    ) -> Result<(), NoMemory>
        requires ready { HasReadyRank (design_of graph.now bench.now) }
        requires bench { IsBench graph.now.flat bench.now }
        requires driven { IsDrivenBy graph.now.flat net (driver.Port port) }
        requires safe { IsSafe (design_of graph.now bench.now) self.old }
        ensures { OnOk result (IsMade (design_of graph.now bench.now) net self.old self.new) }
    {
        let delay = interval_of(graph, bench, net, port);
        self.forest.plant(PathArc::Port(port), &delay)?;
        Ok(())
    }

    /// Makes the lanes to a net that a cell drives, from those of the pins of the cell.
    fn go_through(
        &mut self,
        graph: &Graph<'_>,
        bench: &Bench,
        net: NetId,
        cell: CellId,
        out: u8,
    ) -> Result<(), NoMemory>
        requires ready { HasReadyRank (design_of graph.now bench.now) }
        requires driven { IsDrivenBy graph.now.flat net (driver.Out cell out) }
        requires safe { IsSafe (design_of graph.now bench.now) self.old }
        requires served { IsServed (design_of graph.now bench.now) cell self.old }
        ensures { OnOk result (IsMade (design_of graph.now bench.now) net self.old self.new) }
    {
        graph.facts();
        let row = graph.row(cell);
        let delay = delay_of(row);
        let (first, count) = passed_pins(row);
        let gated = is_clocked(row);
        'pins: for pin in first..first + count {
            let span = self.spans[graph.pin(cell, pin).index()];
            let last = PathArc::Through { cell, pin, out };
            self.forest
                .extend_all(span.from, span.to, &last, &delay, gated)?;
        }
        Ok(())
    }

    /// Makes the lanes of a pin, from those of the cell that drives its net.
    fn make(&mut self, graph: &Graph<'_>, bench: &Bench, pin: PinId) -> Result<(), NoMemory>
        requires ready { HasReadyRank (design_of graph.now bench.now) }
        requires bench { IsBench graph.now.flat bench.now }
        requires pin { pin < length graph.now.flat.pins }
        requires safe { IsSafe (design_of graph.now bench.now) self.old }
        requires served { (end : Pin) (cell : CellId) (out : ℕ) → slice_get graph.now.flat.pins pin ≡ Some end → IsDrivenBy graph.now.flat end.net (driver.Out cell out) → IsServed (design_of graph.now bench.now) cell self.old }
        ensures { OnOk result ((end : Pin) → slice_get graph.now.flat.pins pin ≡ Some end → IsMade (design_of graph.now bench.now) end.net self.old self.new) }
    {
        graph.facts();
        let flat = graph.flat();
        let net = flat.pins.get(pin).unwrap().net;
        match flat.nets.get(net).unwrap() {
            Driver::Port(port) => self.begin_at(graph, bench, net, *port),
            Driver::Out(cell, out) => self.go_through(graph, bench, net, *cell, *out),
        }
    }

    /// Makes the lanes of the pin at a place of the list.
    pub(crate) fn add_pin(
        &mut self,
        graph: &Graph<'_>,
        bench: &Bench,
        pins: &[PinId],
        place: usize,
    ) -> Result<(), LaneFault>
        requires ready { HasReadyRank (design_of graph.now bench.now) }
        requires bench { IsBench graph.now.flat bench.now }
        requires order { IsPinOrder (design_of graph.now bench.now) graph.now.order pins.now }
        requires place { place < length pins.now }
        requires grown { IsGrown (design_of graph.now bench.now) pins.now place self.old }
        ensures grown { OnOk result (IsGrown (design_of graph.now bench.now) pins.now (place + 1) self.new) }
        ensures fault { IfErr result (IsLaneFault (design_of graph.now bench.now) graph.now.order) }
    {
        let pin = pins[place];
        let from = self.forest.len();
        self.make(graph, bench, pin)?;
        let to = self.forest.len();
        let count = (to - from) as u64;
        if count > PIN_LANE_LIMIT {
            return Err(LaneFault::Pin { pin, count });
        }
        let count = to as u64;
        if count > LANE_LIMIT {
            return Err(LaneFault::Total { count });
        }
        self.spans[pin.index()] = Span { from, to };
        Ok(())
    }
}
