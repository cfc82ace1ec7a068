//! Where the pins and the nets of each cell begin.

ghost use Rattle.std.specs.Prelude.{◌≡◌, ◌+◌, ◌*◌, ◌<◌, ◌≤◌, ◌^◌, length, IfOk};
ghost use Rattle.rsfq_ids.specs.WellFormed.{IsTable, IsFlat, reading_pins};
ghost use Rattle.net_graph.specs.Wiring.{counted, first_output, AreStarts, ArePortPins};

use crate::rows::{count_outputs, count_pins, row_of};
use rsfq_ids::circuit::Flat;
use rsfq_ids::id::{CellId, Id};
use rsfq_ids::list::NoMemory;
use rsfq_ids::table::CellTable;
use std::alloc::Global;

/// For each cell its first pin and its first net, and how many pins the cells have together.
#[derive(Drop)]
pub(crate) struct Starts {
    pub(crate) pins: Vec<usize>,
    pub(crate) nets: Vec<usize>,
    pub(crate) all_pins: usize,
}

/// The first net that a cell drives: the inputs drive those before it.
fn first_output(flat: &Flat) -> usize
    ensures first { result ≡ first_output flat.now }
    ensures small { result < 2 ^ 32 }
{
    let mut count = 0;
    for port in flat.ports.as_slice() {
        if !port.output {
            count += 1;
        }
    }
    count
}

/// Counts the pins and the outputs of the cells along.
pub(crate) fn find_starts(alloc: Global, flat: &Flat, table: &CellTable) -> Result<Starts, NoMemory>
    requires table { IsTable table.now }
    requires flat { IsFlat table.now flat.now }
    ensures starts { IfOk result (λ starts. AreStarts table.now flat.now (length flat.now.cells) starts.pins.items starts.nets.items) }
    ensures all_pins { IfOk result (λ starts. starts.all_pins ≡ counted (reading_pins table.now) flat.now.cells (length flat.now.cells)) }
    ensures few { IfOk result (λ starts. starts.all_pins ≤ 4 * length flat.now.cells) }
{
    let mut pins = Vec::new(alloc);
    let mut nets = Vec::new(alloc);
    let mut pin = 0;
    let mut net = first_output(flat);
    for cell in 0..flat.cells.len() {
        pins.push(pin)?;
        nets.push(net)?;
        let row = row_of(flat, table, CellId::of(cell as u32));
        pin += count_pins(row);
        net += count_outputs(row);
    }
    Ok(Starts {
        pins,
        nets,
        all_pins: pin,
    })
}

/// For each port bit how many pins stand before its own, where so many of cells come first.
pub(crate) fn find_port_pins(
    alloc: Global,
    flat: &Flat,
    first: usize,
) -> Result<Vec<usize>, NoMemory>
    requires { first ≤ 4 * length flat.now.cells }
    ensures { IfOk result (λ places. ArePortPins flat.now first (length flat.now.ports) places.items) }
{
    let _cells = flat.cells.len();
    let mut places = Vec::new(alloc);
    let mut pin = first;
    for port in flat.ports.as_slice() {
        places.push(pin)?;
        if port.output {
            pin += 1;
        }
    }
    Ok(places)
}
