//! The offences on shape: fanout, loop and the four on clocks.
ghost use Rattle.std.specs.Prelude.{◌≡◌, ◌↔◌, ◌≢◌, ◌⊎◌, ◌∷◌, ℕ, ◌<◌, List, IsTrue, true, length, not};
ghost use Rattle.std.specs.List.{count_by};
ghost use Rattle.rsfq_ids.specs.declared.table.CellTable.{CellTable};
ghost use Rattle.rsfq_ids.specs.declared.circuit.Bench.{Bench};
ghost use Rattle.rsfq_ids.specs.declared.circuit.Driver.TheVariants as driver;
ghost use Rattle.rsfq_ids.specs.declared.offence.Offence.TheVariants as offence;
ghost use Rattle.rsfq_ids.specs.Circuit.{IsDrivenBy, is_copying};
ghost use Rattle.rsfq_ids.specs.Path.{IsClockRoute, IsFromData, passes};
ghost use Rattle.rsfq_ids.specs.Offence.{OffenceExists, IsClockPin, IsDataPin, IsMergerPin, IsDataOnClock, ReadsFrom, Closes, IsLoop};
ghost use Rattle.rsfq_ids.specs.WellFormed.{IsFlat};
ghost use Rattle.rsfq_ids.specs.Design.{design_of};
ghost use Rattle.net_graph.specs.Graph.{AreInOrder};
ghost use Rattle.offence_check.specs.Check.{HasFewPins, ReadsFromAt};

use crate::lookup::{cell_pin, is_gate, net_of, reads_net, row_of};
use crate::path::{count_joining, is_clock_route, is_from_data, is_route};
use rsfq_ids::circuit::{Bench, Driver, Flat, Pin, Reader};
use rsfq_ids::id::{CellId, Id, NetId, PinId};
use rsfq_ids::offence::PathArc;
use rsfq_ids::table::{CellTable, Kind};

/// Whether two pins show that a net has more than one reader.
pub fn is_fanout(flat: &Flat, net: NetId, first: PinId, second: PinId) -> bool
    ensures { (table : CellTable) (bench : Bench) → IsTrue result ↔ OffenceExists (design_of table flat.now bench) (offence.Fanout net first second) }
{
    if first == second {
        return false;
    }
    if !reads_net(flat, first, net) {
        return false;
    }
    reads_net(flat, second, net)
}

/// Whether a pin of a cell is the clock pin of a gate.
pub fn is_clock_pin(table: &CellTable, flat: &Flat, cell: CellId, at: u8) -> bool
    ensures { (bench : Bench) → IsTrue result ↔ IsClockPin (design_of table.now flat.now bench) cell at }
{
    match row_of(table, flat, cell) {
        Some(row) => is_gate(row.kind) && at as usize == row.inputs.len(),
        None => false,
    }
}

/// Whether a pin of a cell is a data pin of a gate.
pub fn is_data_pin(table: &CellTable, flat: &Flat, cell: CellId, at: u8) -> bool
    ensures { (bench : Bench) → IsTrue result ↔ IsDataPin (design_of table.now flat.now bench) cell at }
{
    match row_of(table, flat, cell) {
        Some(row) => is_gate(row.kind) && (at as usize) < row.inputs.len(),
        None => false,
    }
}

/// Whether a pin of a cell is a merger's.
pub fn is_merger_pin(table: &CellTable, flat: &Flat, cell: CellId, at: u8) -> bool
    ensures { (bench : Bench) → IsTrue result ↔ IsMergerPin (design_of table.now flat.now bench) cell at }
{
    match row_of(table, flat, cell) {
        Some(row) => row.kind == Kind::Merge && (at as usize) < row.inputs.len(),
        None => false,
    }
}

/// Whether a route begins at a data input, or passes a merger or a gate.
fn is_foreign(table: &CellTable, flat: &Flat, bench: &Bench, path: &[PathArc]) -> bool
    ensures { IsTrue result ↔ (IsFromData bench.now path.now ⊎ (0 < count_by (passes (λ k. not (is_copying k)) (design_of table.now flat.now bench.now)) path.now)) }
{
    if is_from_data(bench, path) {
        return true;
    }
    count_joining(table, flat, path) > 0
}

/// Whether a route with data leads to a clock pin.
fn is_data_on_clock_at(
    table: &CellTable,
    flat: &Flat,
    bench: &Bench,
    cell: CellId,
    at: u8,
    path: &[PathArc],
    net: NetId,
) -> bool
    requires { IsFlat table.now flat.now }
    ensures { IsTrue result ↔ IsDataOnClock (design_of table.now flat.now bench.now) cell at path.now net }
{
    if !is_clock_pin(table, flat, cell, at) {
        return false;
    }
    if !is_route(table, flat, path, net) {
        return false;
    }
    is_foreign(table, flat, bench, path)
}

/// Whether a route with data leads to the clock pin of a gate.
pub fn is_data_on_clock(
    table: &CellTable,
    flat: &Flat,
    bench: &Bench,
    pin: PinId,
    path: &[PathArc],
) -> bool
    requires { IsFlat table.now flat.now }
    ensures { IsTrue result ↔ OffenceExists (design_of table.now flat.now bench.now) (offence.DataOnClock pin path.now) }
{
    match cell_pin(flat, pin) {
        Some((cell, at, net)) => is_data_on_clock_at(table, flat, bench, cell, at, path, net),
        None => false,
    }
}

/// Whether a clock route leads to a pin, and this is that of the data pin of a gate.
fn is_clock_on_data_at(
    table: &CellTable,
    flat: &Flat,
    bench: &Bench,
    cell: CellId,
    at: u8,
    path: &[PathArc],
    net: NetId,
) -> bool
    requires { IsFlat table.now flat.now }
    ensures { IsTrue result ↔ (IsDataPin (design_of table.now flat.now bench.now) cell at × IsClockRoute (design_of table.now flat.now bench.now) path.now net) }
{
    if !is_data_pin(table, flat, cell, at) {
        return false;
    }
    is_clock_route(table, flat, bench, path, net)
}

/// Whether a clock route leads to the data pin of a gate.
pub fn is_clock_on_data(
    table: &CellTable,
    flat: &Flat,
    bench: &Bench,
    pin: PinId,
    path: &[PathArc],
) -> bool
    requires { IsFlat table.now flat.now }
    ensures { IsTrue result ↔ OffenceExists (design_of table.now flat.now bench.now) (offence.ClockOnData pin path.now) }
{
    match cell_pin(flat, pin) {
        Some((cell, at, net)) => is_clock_on_data_at(table, flat, bench, cell, at, path, net),
        None => false,
    }
}

/// Whether a clock route leads to a pin, and this is that of a merger.
fn is_clock_merged_at(
    table: &CellTable,
    flat: &Flat,
    bench: &Bench,
    cell: CellId,
    at: u8,
    path: &[PathArc],
    net: NetId,
) -> bool
    requires { IsFlat table.now flat.now }
    ensures { IsTrue result ↔ (IsMergerPin (design_of table.now flat.now bench.now) cell at × IsClockRoute (design_of table.now flat.now bench.now) path.now net) }
{
    if !is_merger_pin(table, flat, cell, at) {
        return false;
    }
    is_clock_route(table, flat, bench, path, net)
}

/// Whether a clock route leads to a merger.
pub fn is_clock_merged(
    table: &CellTable,
    flat: &Flat,
    bench: &Bench,
    pin: PinId,
    path: &[PathArc],
) -> bool
    requires { IsFlat table.now flat.now }
    ensures { IsTrue result ↔ OffenceExists (design_of table.now flat.now bench.now) (offence.ClockMerged pin path.now) }
{
    match cell_pin(flat, pin) {
        Some((cell, at, net)) => is_clock_merged_at(table, flat, bench, cell, at, path, net),
        None => false,
    }
}

/// Whether a clock route leads to an output.
pub fn is_clock_out(
    table: &CellTable,
    flat: &Flat,
    bench: &Bench,
    pin: PinId,
    path: &[PathArc],
) -> bool
    requires { IsFlat table.now flat.now }
    ensures { IsTrue result ↔ OffenceExists (design_of table.now flat.now bench.now) (offence.ClockOut pin path.now) }
{
    match flat.pins.get(pin) {
        Some(
            Pin {
                reader: Reader::Port(_),
                net,
            },
        ) => is_clock_route(table, flat, bench, path, *net),
        _ => false,
    }
}

/// Whether a cell has a pin that reads an output of another. No cell has more than four pins that read.
fn reads_from(flat: &Flat, cell: CellId, before: CellId) -> bool
    requires order { AreInOrder flat.now }
    requires few { HasFewPins flat.now }
    ensures { IsTrue result ↔ ReadsFrom flat.now cell before }
{
    for at in 0..4u8 {
        if reads_from_at(flat, cell, before, at) {
            return true;
        }
    }
    false
}

/// Whether a pin of a cell reads an output of another.
fn reads_from_at(flat: &Flat, cell: CellId, before: CellId, at: u8) -> bool
    requires { AreInOrder flat.now }
    ensures { IsTrue result ↔ ReadsFromAt flat.now cell before at }
{
    match net_of(flat, Reader::Pin(cell, at)) {
        Some(net) => is_output_of(flat, net, before),
        None => false,
    }
}

/// Whether an output of a cell drives a net.
fn is_output_of(flat: &Flat, net: NetId, before: CellId) -> bool
    ensures { IsTrue result ↔ ((out : ℕ) × IsDrivenBy flat.now net (driver.Out before out)) }
{
    match flat.nets.get(net) {
        Some(Driver::Out(cell, _)) => *cell == before,
        _ => false,
    }
}

/// Whether each of the cells reads from the one before it, the first from `before`, and `first` from the last.
fn closes(flat: &Flat, first: CellId, before: CellId, cells: &[CellId]) -> bool
    requires order { AreInOrder flat.now }
    requires few { HasFewPins flat.now }
    ensures { IsTrue result ↔ Closes flat.now first before cells.now }
{
    let mut last = before;
    for cell in cells {
        if !reads_from(flat, *cell, last) {
            return false;
        }
        last = *cell;
    }
    reads_from(flat, first, last)
}

/// Whether cells are in a ring.
pub fn is_loop(flat: &Flat, cells: &[CellId]) -> bool
    requires order { AreInOrder flat.now }
    requires few { HasFewPins flat.now }
    ensures { IsTrue result ↔ IsLoop flat.now cells.now }
{
    match cells {
        [] => false,
        [first, others @ ..] => closes(flat, *first, *first, others),
    }
}
