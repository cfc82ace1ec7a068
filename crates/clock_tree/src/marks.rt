//! The nets that the clock port reaches through JTLs and splitters.

ghost use Rattle.std.specs.Prelude.{◌≡◌, ◌<◌, ◌↔◌, ℕ, IsTrue, length, option_to_list, ◌+◌, IfOk};
ghost use Rattle.rsfq_ids.specs.declared.id.NetId.{NetId};
ghost use Rattle.rsfq_ids.specs.declared.circuit.Bench.{Bench};
ghost use Rattle.rsfq_ids.specs.declared.circuit.Driver.TheVariants as driver;
ghost use Rattle.rsfq_ids.specs.WellFormed.{IsRow, IsBench};
ghost use Rattle.rsfq_ids.specs.Circuit.{IsDrivenBy, is_copying};
ghost use Rattle.net_graph.specs.Graph.{IsRowOf};
ghost use Rattle.clock_tree.specs.Clock.{design_of, AreClockNets, IsClockNet};
ghost use Rattle.clock_tree.specs.Marks.{IsMarked, Grows, OnlyOutputs, IsClosedAt};

use net_graph::Graph;
use rsfq_ids::circuit::{Bench, Driver};
use rsfq_ids::id::{CellId, Id, NetId};
use rsfq_ids::list::NoMemory;
use rsfq_ids::table::{CellRow, Kind};
use std::alloc::Global;

/// Whether a kind of cell passes each pulse of its one input on.
fn is_copying(kind: Kind) -> bool
    ensures { result ≡ is_copying kind }
{
    match kind {
        Kind::Jtl => true,
        Kind::Split => true,
        Kind::Merge => false,
        Kind::Gate => false,
    }
}

/// Whether a driver is this port.
fn is_port(from: Driver, port: u32) -> bool
    ensures { IsTrue result ↔ (from ≡ driver.Port port) }
{
    match from {
        Driver::Port(other) => other.index() as u32 == port,
        Driver::Out(_, _) => false,
    }
}

/// Marks the net of the clock port.
fn mark_port(alloc: Global, graph: &Graph<'_>, bench: &Bench) -> Result<Vec<bool>, NoMemory>
    ensures nets { IfOk result (λ marks. length marks.items ≡ length graph.now.flat.nets) }
    ensures port { IfOk result (λ marks. (net : NetId) → IsMarked marks.items net ↔ IsDrivenBy graph.now.flat net (driver.Port bench.now.clock)) }
{
    let mut marks = Vec::new(alloc);
    let clock = bench.clock.index() as u32;
    for driver in graph.flat().nets.as_slice() {
        marks.push(is_port(*driver, clock))?;
    }
    Ok(marks)
}

/// Marks the outputs of a cell.
fn mark_outputs(
    graph: &Graph<'_>,
    bench: &Bench,
    marks: &mut Vec<bool>,
    cell: CellId,
    row: &CellRow,
)
    requires nets { length marks.old.items ≡ length graph.now.flat.nets }
    requires row { IsRowOf graph.now cell row.now }
    requires fits { IsRow row.now }
    ensures nets { length marks.new.items ≡ length marks.old.items }
    ensures grows { Grows marks.old.items marks.new.items }
    ensures only { OnlyOutputs (design_of graph.now bench.now) cell marks.old.items marks.new.items }
    ensures all { (out : ℕ) (next : NetId) → IsDrivenBy graph.now.flat next (driver.Out cell out) → IsMarked marks.new.items next }
{
    graph.facts();
    let _ = bench;
    for out in 0..row.outputs.len() as u8 {
        marks[graph.net(cell, out).index()] = true;
    }
}

/// Marks the outputs of a JTL or splitter whose input is marked.
fn mark_cell(graph: &Graph<'_>, bench: &Bench, marks: &mut Vec<bool>, cell: CellId)
    requires nets { length marks.old.items ≡ length graph.now.flat.nets }
    requires cell { cell < length graph.now.flat.cells }
    requires sound { (net : NetId) → IsMarked marks.old.items net → IsClockNet (design_of graph.now bench.now) net }
    ensures sound { (net : NetId) → IsMarked marks.new.items net → IsClockNet (design_of graph.now bench.now) net }
    ensures nets { length marks.new.items ≡ length marks.old.items }
    ensures grows { Grows marks.old.items marks.new.items }
    ensures only { OnlyOutputs (design_of graph.now bench.now) cell marks.old.items marks.new.items }
    ensures closed { IsClosedAt (design_of graph.now bench.now) marks.new.items cell }
{
    graph.facts();
    let row = graph.row(cell);
    if is_copying(row.kind) {
        let net = graph.net_read(cell, 0);
        if marks[net.index()] {
            mark_outputs(graph, bench, marks, cell, row);
        }
    }
}

/// Whether each net carries the clock.
pub(crate) fn mark_clock(
    alloc: Global,
    graph: &Graph<'_>,
    bench: &Bench,
) -> Result<Vec<bool>, NoMemory>
    ensures nets { IfOk result (λ marks. length marks.items ≡ length graph.now.flat.nets) }
    ensures clocks { IfOk result (λ marks. AreClockNets (design_of graph.now bench.now) marks.items) }
{
    graph.facts();
    let mut marks = mark_port(alloc, graph, bench)?;
    for cell in graph.order() {
        mark_cell(graph, bench, &mut marks, *cell);
    }
    Ok(marks)
}
