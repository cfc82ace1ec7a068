//! Circuits that are read from text, and parts of them as text, for the tests of this layer.

ghost use Rattle.std.specs.Prelude.{IfSome};
ghost use Rattle.rsfq_ids.specs.Design.{design_of};
ghost use Rattle.rsfq_ids.specs.Ready.{IsSetUp};

use cell_table::read::read_cells;
use env_table::bind::bind_env;
use env_table::read::read_env;
use flattener::FlatFault;
use loading::{Refusal, load_circuit};
use rsfq_ids::circuit::{Bench, Driver, Flat, Reader};
use rsfq_ids::id::{CellId, NetId, PinId, PortId};
use rsfq_ids::limits::FILE_LIMIT;
use rsfq_ids::name::Name;
use rsfq_ids::offence::PathArc;
use rsfq_ids::table::{CellRow, CellTable};
use std::alloc::{AllocError, Global};

/// A JTL, a splitter, a merger and four gates, with their times in fs.
pub(crate) const CELLS: &[u8] = b"cell,kind,inputs,clock,outputs,function,lo,hi,setup,hold,dead
JTL,jtl,a,,q,,2000,3000,,,0
SPL,split,a,,q0 q1,,3000,4000,,,0
MRG,merge,a b,,q,,4000,5000,,,5000
DFF,gate,a,clk,q,01,5000,7000,2000,1000,10000
NOT,gate,a,clk,q,10,6000,8000,2000,1000,10000
AND,gate,a b,clk,q,0001,6000,8000,2000,1000,10000
XOR,gate,a b,clk,q,0110,6000,8000,2000,1000,10000
";

/// A clock without jitter and a period of 20,000 fs, one input and one output.
pub(crate) const ONE_INPUT: &[u8] = b"role,port,x,y,z
period,,20000,,
clock,clk,0,,
input,a,4000,6000,
output,y,0,1000,1000
";

/// The same with two inputs that arrive alike.
pub(crate) const TWO_INPUTS: &[u8] = b"role,port,x,y,z
period,,20000,,
clock,clk,0,,
input,a,4000,6000,
input,b,4000,6000,
output,y,0,1000,1000
";

/// The same with one input and two outputs.
pub(crate) const TWO_OUTPUTS: &[u8] = b"role,port,x,y,z
period,,20000,,
clock,clk,0,,
input,a,4000,6000,
output,y,0,1000,1000
output,z,0,1000,1000
";

/// A circuit, the table of its cells, and its bench.
#[derive(Drop)]
pub(crate) struct Parts {
    pub(crate) table: CellTable,
    pub(crate) flat: Flat,
    pub(crate) bench: Bench,
}

/// The circuit of three texts: a cell table, a netlist with one top, and a timing table. `None` where one of them is refused.
pub(crate) fn read_parts(alloc: Global, cells: &[u8], netlist: &[u8], times: &[u8]) -> Option<Parts>
    ensures { IfSome result (λ parts. IsSetUp (design_of parts.table parts.flat parts.bench)) }
{
    if netlist.len() > FILE_LIMIT {
        return None;
    }
    let Ok(table) = read_cells(alloc, cells) else {
        return None;
    };
    let Ok(flat) = load_circuit(alloc, netlist, &table, None) else {
        return None;
    };
    let Ok(env) = read_env(alloc, times) else {
        return None;
    };
    let Ok(bench) = bind_env(alloc, &env, &flat) else {
        return None;
    };
    Some(Parts { table, flat, bench })
}

/// Why a netlist has no circuit over these cells, with the names of a wire that two drivers drive and of the two.
pub(crate) fn refusal_text(
    alloc: Global,
    cells: &[u8],
    netlist: &[u8],
) -> Result<String, AllocError> {
    if netlist.len() > FILE_LIMIT {
        return String::from_str(alloc, "too long");
    }
    let Ok(table) = read_cells(alloc, cells) else {
        return String::from_str(alloc, "no cell table");
    };
    let Err(refusal) = load_circuit(alloc, netlist, &table, None) else {
        return String::from_str(alloc, "no refusal");
    };
    let mut text = format!(in alloc; "{refusal}")?;
    if let Refusal::Flat(FlatFault::TwoDrivers(wire, first, second)) = &refusal {
        for name in [wire, first, second] {
            text.push_str(" ")?;
            text.push_str(name.as_str())?;
        }
    }
    Ok(text)
}

/// A name of a list, or `?` where it has none there.
fn name_at(names: &[Name], place: usize) -> &str {
    match names.get(place) {
        Some(name) => name.as_str(),
        None => "?",
    }
}

fn row_of(parts: &Parts, cell: CellId) -> Option<&CellRow> {
    match parts.flat.cells.get(cell) {
        Some(found) => parts.table.rows.get(found.row as usize),
        None => None,
    }
}

/// The printed name of a port bit.
pub(crate) fn port_name(parts: &Parts, port: PortId) -> &str {
    match parts.flat.ports.get(port) {
        Some(bit) => bit.name.as_str(),
        None => "?",
    }
}

/// The path of a cell.
pub(crate) fn cell_name(parts: &Parts, cell: CellId) -> &str {
    match parts.flat.cells.get(cell) {
        Some(found) => found.path.as_str(),
        None => "?",
    }
}

fn pin_of_cell(row: &CellRow, at: u8) -> &str {
    let place = at as usize;
    if place < row.inputs.len() {
        return name_at(row.inputs.as_slice(), place);
    }
    match &row.clock {
        Some(name) => name.as_str(),
        None => "?",
    }
}

/// A reader as it is printed: `CELL.PIN`, or the port.
pub(crate) fn reader_text(
    alloc: Global,
    parts: &Parts,
    reader: Reader,
) -> Result<String, AllocError> {
    match reader {
        Reader::Pin(cell, at) => {
            let pin = match row_of(parts, cell) {
                Some(row) => pin_of_cell(row, at),
                None => "?",
            };
            format!(in alloc; "{}.{}", cell_name(parts, cell), pin)
        }
        Reader::Port(port) => String::from_str(alloc, port_name(parts, port)),
    }
}

/// A pin as it is printed.
pub(crate) fn pin_text(alloc: Global, parts: &Parts, pin: PinId) -> Result<String, AllocError> {
    match parts.flat.pins.get(pin) {
        Some(found) => reader_text(alloc, parts, found.reader),
        None => String::from_str(alloc, "?"),
    }
}

/// A driver as it is printed: the port, or `CELL.OUT`.
pub(crate) fn driver_text(
    alloc: Global,
    parts: &Parts,
    driver: Driver,
) -> Result<String, AllocError> {
    match driver {
        Driver::Port(port) => String::from_str(alloc, port_name(parts, port)),
        Driver::Out(cell, out) => {
            let name = match row_of(parts, cell) {
                Some(row) => name_at(row.outputs.as_slice(), out as usize),
                None => "?",
            };
            format!(in alloc; "{}.{}", cell_name(parts, cell), name)
        }
    }
}

/// A net as it is printed.
pub(crate) fn net_text(alloc: Global, parts: &Parts, net: NetId) -> Result<String, AllocError> {
    match parts.flat.nets.get(net) {
        Some(driver) => driver_text(alloc, parts, *driver),
        None => String::from_str(alloc, "?"),
    }
}

/// The net that an arc ends at, as it is printed.
pub(crate) fn arc_text(alloc: Global, parts: &Parts, arc: PathArc) -> Result<String, AllocError> {
    match arc {
        PathArc::Port(port) => driver_text(alloc, parts, Driver::Port(port)),
        PathArc::Through { cell, pin: _, out } => driver_text(alloc, parts, Driver::Out(cell, out)),
    }
}

/// The nets along a path, parted by spaces.
pub(crate) fn route_text(
    alloc: Global,
    parts: &Parts,
    arcs: &[PathArc],
) -> Result<String, AllocError> {
    let mut text = String::new(alloc);
    for arc in arcs {
        let net = arc_text(alloc, parts, *arc)?;
        if !text.is_empty() {
            text.push_str(" ")?;
        }
        text.push_str(net.as_str())?;
    }
    Ok(text)
}
