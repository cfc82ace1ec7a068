//! The nets of the clock of a circuit whose clock goes to the clock pins of its gates and nowhere else.

ghost use Rattle.std.specs.Prelude.{◌≡◌, ◌↔◌, ℕ, ◌<◌, IsTrue, false, length, slice_get, slice_index_or, Some, IfOk, IfErr, OnOk};
ghost use Rattle.rsfq_ids.specs.declared.circuit.Pin.{Pin};
ghost use Rattle.rsfq_ids.specs.declared.id.PinId.{PinId};
ghost use Rattle.rsfq_ids.specs.Design.{Design};
ghost use Rattle.rsfq_ids.specs.WellFormed.{IsBench};
ghost use Rattle.rsfq_ids.specs.Circuit.{IsPin};
ghost use Rattle.clock_tree.specs.Clock.{design_of, AreClockNets, IsClockNet, OffendsAt, IsClocked, IsClockFault};
ghost use Rattle.clock_tree.specs.Rules.{IsBrokenBy, IsFine};

use crate::back::trace_back;
use crate::marks::mark_clock;
use crate::rules::{ClockRule, broken_by};
use net_graph::Graph;
use rsfq_ids::circuit::{Bench, Pin};
use rsfq_ids::id::{Id, NetId, PinId};
use rsfq_ids::list::NoMemory;
use rsfq_ids::offence::RuleFault;
use std::alloc::Global;
use std::marker::Model;

/// Which nets carry the clock. Contracts see a mark for each net.
#[derive(Debug, Drop)]
pub struct Clocked {
    marks: Vec<bool>,
}

impl Model for Clocked {
    ghost use Rattle.std.specs.Prelude.{List, Bool};

    ghost Value = { List Bool };

    ghost view = { λ c. c.marks.items };
}

impl Clocked {
    /// Whether a net carries the clock. It takes no memory.
    pub fn is_clock(&self, net: NetId) -> bool
        ensures mark { result ≡ slice_index_or self.now net false }
        ensures clock { (design : Design) → IsClocked design self.now → IsTrue result ↔ IsClockNet design net }
    {
        match self.marks.get(net.index()) {
            Some(mark) => *mark,
            None => false,
        }
    }
}

/// The offence at a place where a rule is broken.
fn show(
    alloc: Global,
    graph: &Graph<'_>,
    bench: &Bench,
    place: usize,
    pin: Pin,
    rule: ClockRule,
) -> RuleFault
    requires bench { IsBench graph.now.flat bench.now }
    requires pin { slice_get graph.now.flat.pins place ≡ Some pin }
    requires rule { IsBrokenBy (design_of graph.now bench.now) pin.reader pin.net rule }
    requires first { (earlier : PinId) → earlier < place → ¬ OffendsAt (design_of graph.now bench.now) earlier }
    ensures { IsClockFault (design_of graph.now bench.now) result }
{
    graph.facts();
    let _ends = graph.flat().pins.len();
    match trace_back(alloc, graph, bench, pin.net) {
        Ok(path) => RuleFault::Offends(rule.offence(PinId::of(place as u32), path)),
        Err(NoMemory) => RuleFault::Memory,
    }
}

/// Looks at each place that reads, in pin order.
fn check_pins(
    alloc: Global,
    graph: &Graph<'_>,
    bench: &Bench,
    marks: &[bool],
) -> Result<(), RuleFault>
    requires bench { IsBench graph.now.flat bench.now }
    requires nets { length marks.now ≡ length graph.now.flat.nets }
    requires clocks { AreClockNets (design_of graph.now bench.now) marks.now }
    ensures fine { OnOk result ((place : ℕ) (pin : Pin) → slice_get graph.now.flat.pins place ≡ Some pin → IsFine (design_of graph.now bench.now) pin.reader pin.net) }
    ensures fault { IfErr result (IsClockFault (design_of graph.now bench.now)) }
{
    graph.facts();
    for (place, pin) in graph.flat().pins.as_slice().iter().enumerate() {
        let broken = broken_by(graph, bench, marks, place, pin.reader, pin.net);
        if let Some(rule) = broken {
            return Err(show(alloc, graph, bench, place, *pin, rule));
        }
    }
    Ok(())
}

/// The nets of the clock: those to which a route leads from the clock port through JTLs and splitters alone. Linear in the size of
/// the circuit.
///
/// # Errors
///
/// `Offends` exactly where another net is on a gate's clock pin, or a net of the clock on a gate's data pin, on a merger's pin or
/// on an output: the first in pin order, with the path back from the net that the pin reads, through the first input of each merger
/// and the clock pin of each gate. `Memory` where memory could not be had.
pub fn classify(alloc: Global, graph: &Graph<'_>, bench: &Bench) -> Result<Clocked, RuleFault>
    requires { IsBench graph.now.flat bench.now }
    ensures clocked { IfOk result (IsClocked (design_of graph.now bench.now)) }
    ensures fault { IfErr result (IsClockFault (design_of graph.now bench.now)) }
{
    graph.facts();
    let marks = mark_clock(alloc, graph, bench)?;
    check_pins(alloc, graph, bench, marks.as_slice())?;
    Ok(Clocked { marks })
}
