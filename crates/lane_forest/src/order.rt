//! The pins of a circuit in the order in which their lanes grow.
ghost use Rattle.std.specs.Prelude.{◌≡◌, ◌<◌, ◌++◌, length, IfOk, OnOk};
ghost use Rattle.clock_tree.specs.Clock.{design_of};
ghost use Rattle.lane_forest.specs.Growth.{IsPinOrder};
ghost use Rattle.lane_forest.specs.Pins.{AddsPinsOf, port_pins};

use net_graph::Graph;
use rsfq_ids::circuit::{Bench, Flat, Reader};
use rsfq_ids::id::{CellId, Id, PinId};
use rsfq_ids::list::NoMemory;
use std::alloc::Global;

/// Adds the pins of a cell.
fn push_pins(
    pins: &mut Vec<PinId>,
    graph: &Graph<'_>,
    bench: &Bench,
    cell: CellId,
) -> Result<(), NoMemory>
    requires { cell < length graph.now.flat.cells }
    ensures { OnOk result (AddsPinsOf (design_of graph.now bench.now) cell pins.old.items pins.new.items) }
{
    for pin in 0..graph.pin_count(cell) {
        pins.push(graph.pin(cell, pin))?;
    }
    Ok(())
}

/// Adds the pins of the output bits.
fn push_outputs(pins: &mut Vec<PinId>, flat: &Flat) -> Result<(), NoMemory>
    ensures { OnOk result (pins.new.items ≡ pins.old.items ++ port_pins 0 flat.now.pins) }
{
    for (place, pin) in flat.pins.as_slice().iter().enumerate() {
        if let Reader::Port(_) = pin.reader {
            pins.push(PinId::of(place as u32))?;
        }
    }
    Ok(())
}

/// All pins: those of the cells in the order of the graph, each cell's in pin order, and then those of the output bits.
pub(crate) fn pins_along(
    alloc: Global,
    graph: &Graph<'_>,
    bench: &Bench,
) -> Result<Vec<PinId>, NoMemory>
    ensures { IfOk result (λ pins. IsPinOrder (design_of graph.now bench.now) graph.now.order pins.items) }
{
    graph.facts();
    let mut pins = Vec::new(alloc);
    for cell in graph.order() {
        push_pins(&mut pins, graph, bench, *cell)?;
    }
    push_outputs(&mut pins, graph.flat())?;
    Ok(pins)
}
