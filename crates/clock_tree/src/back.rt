//! The path back from a net.

ghost use Rattle.std.specs.Prelude.{◌≡◌, ◌<◌, ◌≤◌, length, IfOk};
ghost use Rattle.rsfq_ids.specs.WellFormed.{IsRow};
ghost use Rattle.clock_tree.specs.Clock.{design_of, back_pin, IsPathBack};

use net_graph::Graph;
use rsfq_ids::circuit::{Bench, Driver};
use rsfq_ids::id::{Id, NetId};
use rsfq_ids::list::{List, NoMemory};
use rsfq_ids::offence::PathArc;
use rsfq_ids::table::{CellRow, Kind};
use std::alloc::Global;

/// The pin from which a path goes back through a cell: the clock pin of a gate, the first input of any other cell.
fn back_pin(row: &CellRow) -> u8
    requires { IsRow row.now }
    ensures { result ≡ back_pin row.now }
{
    match row.kind {
        Kind::Gate => row.inputs.len() as u8,
        Kind::Jtl | Kind::Split | Kind::Merge => 0,
    }
}

/// The path back from a net: through each merger from its first input, and each gate from its clock pin, to a port. Linear in its
/// arcs.
pub(crate) fn trace_back(
    alloc: Global,
    graph: &Graph<'_>,
    bench: &Bench,
    net: NetId,
) -> Result<List<PathArc>, NoMemory>
    requires { net < length graph.now.flat.nets }
    ensures { IfOk result (λ arcs. IsPathBack (design_of graph.now bench.now) arcs net) }
{
    graph.facts();
    let _ = bench;
    let flat = graph.flat();
    let mut arcs = Vec::new(alloc);
    let mut at = net;
    'back: loop {
        match flat.nets.as_slice()[at.index()] {
            Driver::Port(port) => {
                arcs.push(PathArc::Port(port))?;
                arcs.reverse();
                return Ok(List::of(arcs));
            }
            Driver::Out(cell, out) => {
                let pin = back_pin(graph.row(cell));
                arcs.push(PathArc::Through { cell, pin, out })?;
                at = graph.net_read(cell, pin);
            }
        }
    }
}
