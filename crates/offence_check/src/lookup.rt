//! What the circuit says of one net, pin or cell.
ghost use Rattle.std.specs.Prelude.{◌≡◌, ◌↔◌, ◌≤◌, ℕ, ◌<◌, IsTrue, IfSome, IfNone, slice_get};
ghost use Rattle.std.specs.Option.{option_copied, option_and_then};
ghost use Rattle.rsfq_ids.specs.declared.circuit.Reader.{Reader};
ghost use Rattle.rsfq_ids.specs.declared.circuit.Reader.TheVariants as reader;
ghost use Rattle.rsfq_ids.specs.Circuit.{IsDrivenBy, IsPin, Reads, is_gate, is_copying};
ghost use Rattle.rsfq_ids.specs.Path.{IsPassedFrom};
ghost use Rattle.net_graph.specs.Graph.{StandsBefore, AreInOrder};

use rsfq_ids::circuit::{Driver, Flat, Reader};
use rsfq_ids::id::{CellId, Id, NetId, PinId};
use rsfq_ids::table::{CellRow, CellTable, Kind};

/// Whether a net is driven so.
pub fn is_driven_by(flat: &Flat, net: NetId, driver: Driver) -> bool
    ensures { IsTrue result ↔ IsDrivenBy flat.now net driver }
{
    match flat.nets.get(net) {
        Some(found) => *found == driver,
        None => false,
    }
}

/// Whether a pin reads a net.
pub fn reads_net(flat: &Flat, pin: PinId, net: NetId) -> bool
    ensures { IsTrue result ↔ ((by : Reader) × IsPin flat.now pin by net) }
{
    match flat.pins.get(pin) {
        Some(found) => found.net == net,
        None => false,
    }
}

/// Whether a reader stands before another in a circuit.
fn stands_before(first: Reader, second: Reader) -> bool
    ensures { IsTrue result ↔ StandsBefore first second }
{
    match first {
        Reader::Pin(cell, pin) => match second {
            Reader::Pin(other, spot) => cell < other || cell == other && pin < spot,
            Reader::Port(_) => true,
        },
        Reader::Port(port) => match second {
            Reader::Pin(_, _) => false,
            Reader::Port(other) => port < other,
        },
    }
}

/// The middle of two places, not the upper one.
fn middle(low: usize, high: usize) -> usize
    requires { low < high }
    ensures from { low ≤ result }
    ensures below { result < high }
{
    low + (high - low) / 2
}

/// The net that a reader reads, if there is such a reader. It halves the pins, which stand in order, until it is found.
pub fn net_of(flat: &Flat, reader: Reader) -> Option<NetId>
    requires { AreInOrder flat.now }
    ensures found { IfSome result (λ net. Reads flat.now reader net) }
    ensures none { IfNone result ((net : ℕ) → ¬ Reads flat.now reader net) }
{
    let mut low = 0;
    let mut high = flat.pins.len();
    'halve: while low < high {
        let place = middle(low, high);
        match flat.pins.get(PinId::of(place as u32)) {
            Some(pin) => {
                if pin.reader == reader {
                    return Some(pin.net);
                }
                if stands_before(pin.reader, reader) {
                    low = place + 1;
                } else {
                    high = place;
                }
            }
            None => return None,
        }
    }
    None
}

/// The row of the cell table that a cell is of.
pub fn row_of<'a>(table: &'a CellTable, flat: &Flat, cell: CellId) -> Option<&'a CellRow>
    ensures { option_copied result ≡ option_and_then (λ c. slice_get table.now.rows c.row) (slice_get flat.now.cells cell) }
{
    match flat.cells.get(cell) {
        Some(flat_cell) => table.rows.get(flat_cell.row as usize),
        None => None,
    }
}

/// Whether a kind is clocked.
pub fn is_gate(kind: Kind) -> bool
    ensures { result ≡ is_gate kind }
{
    match kind {
        Kind::Gate => true,
        Kind::Jtl => false,
        Kind::Split => false,
        Kind::Merge => false,
    }
}

/// Whether a kind of cell passes each pulse of its one input on: a JTL or a splitter.
pub fn is_copying(kind: Kind) -> bool
    ensures { result ≡ is_copying kind }
{
    match kind {
        Kind::Jtl => true,
        Kind::Split => true,
        Kind::Merge => false,
        Kind::Gate => false,
    }
}

/// Whether pulses pass from a pin to the outputs, in a cell of this row.
pub fn passes_at(row: &CellRow, pin: u8) -> bool
    ensures { IsTrue result ↔ IsPassedFrom (is_gate row.now.kind) row.now pin }
{
    if is_gate(row.kind) {
        pin as usize == row.inputs.len()
    } else {
        (pin as usize) < row.inputs.len()
    }
}

/// The cell, the number and the net of a cell's pin, if it is one.
pub fn cell_pin(flat: &Flat, pin: PinId) -> Option<(CellId, u8, NetId)>
    ensures some { IfSome result (λ found. IsPin flat.now pin (reader.Pin found.0 found.1) found.2) }
    ensures none { IfNone result ((cell at net : ℕ) → ¬ IsPin flat.now pin (reader.Pin cell at) net) }
{
    match flat.pins.get(pin) {
        Some(found) => match found.reader {
            Reader::Pin(cell, at) => Some((cell, at, found.net)),
            Reader::Port(_) => None,
        },
        None => None,
    }
}
