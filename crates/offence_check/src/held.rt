//! Pulses held against clock pulses and strobes: the offences window and ahead.
ghost use Rattle.std.specs.Prelude.{◌≡◌, ◌↔◌, ◌<◌, ◌≤ℤ◌, ℕ, IsTrue, true, length};
ghost use Rattle.rsfq_ids.specs.declared.table.CellTable.{CellTable};
ghost use Rattle.rsfq_ids.specs.declared.circuit.Flat.{Flat};
ghost use Rattle.rsfq_ids.specs.declared.circuit.Reader.TheVariants as reader;
ghost use Rattle.rsfq_ids.specs.declared.offence.Against.TheVariants as against;
ghost use Rattle.rsfq_ids.specs.declared.offence.Offence.TheVariants as offence;
ghost use Rattle.rsfq_ids.specs.Time.{IsInZone};
ghost use Rattle.rsfq_ids.specs.Circuit.{IsOf, clock_pin};
ghost use Rattle.rsfq_ids.specs.Path.{pick_time};
ghost use Rattle.rsfq_ids.specs.Offence.{OffenceExists, IsHeldAgainst};
ghost use Rattle.rsfq_ids.specs.WellFormed.{IsFlat, IsPositiveTime};
ghost use Rattle.rsfq_ids.specs.Design.{design_of};
ghost use Rattle.offence_check.specs.Check.{EndsAtClock, IsClockOf};

use crate::lookup::{cell_pin, is_gate, row_of};
use crate::pick::{agree, is_pick};
use crate::pulses::{is_in_clock_zone, is_in_strobe_zone, is_not_after, is_not_later};
use rsfq_ids::circuit::{Bench, Flat, PortUse, Reader};
use rsfq_ids::id::{CellId, PinId, PortId};
use rsfq_ids::offence::{Against, PathPick};
use rsfq_ids::table::{CellRow, CellTable};

/// Whether a pin, found to be of a cell at a number, is the clock pin of a cell of this row.
fn is_clock_pin_of(row: &CellRow, cell: CellId, found: CellId, at: u8) -> bool
    ensures { IsTrue result ↔ ((found ≡ cell) × (at ≡ clock_pin row.now)) }
{
    found == cell && at as usize == row.inputs.len()
}

/// Whether a pick ends at the clock pin of a cell.
fn ends_at_clock(flat: &Flat, cell: CellId, row: &CellRow, pick: &PathPick) -> bool
    ensures { IsTrue result ↔ EndsAtClock flat.now cell row.now pick.now }
{
    match cell_pin(flat, pick.ends) {
        Some((found, at, _)) => is_clock_pin_of(row, cell, found, at),
        None => false,
    }
}

/// Whether a pick is a clock pulse at a gate that a pulse at a data pin of the gate may find.
fn is_clock_of(
    table: &CellTable,
    flat: &Flat,
    bench: &Bench,
    cell: CellId,
    at: u8,
    row: &CellRow,
    pulse: &PathPick,
    clock: &PathPick,
) -> bool
    requires { IsFlat table.now flat.now }
    ensures { IsTrue result ↔ IsClockOf (design_of table.now flat.now bench.now) cell at row.now pulse.now clock.now }
{
    if !is_gate(row.kind) {
        return false;
    }
    if at as usize >= row.inputs.len() {
        return false;
    }
    if !is_pick(table, flat, bench, clock) {
        return false;
    }
    if !ends_at_clock(flat, cell, row, clock) {
        return false;
    }
    agree(pulse, clock)
}

/// Whether a pulse at a data pin of a gate comes in the zone around a clock pulse there.
fn breaks_clock_zone(
    table: &CellTable,
    flat: &Flat,
    bench: &Bench,
    cell: CellId,
    at: u8,
    pulse: &PathPick,
    clock: &PathPick,
) -> bool
    requires flat { IsFlat table.now flat.now }
    requires period { IsPositiveTime bench.now.period }
    ensures { IsTrue result ↔ IsHeldAgainst (design_of table.now flat.now bench.now) (reader.Pin cell at) pulse.now (against.Clock clock.now) (λ setup hold number time. IsInZone setup hold time (pick_time bench.now pulse.now)) }
{
    match row_of(table, flat, cell) {
        Some(row) => {
            if !is_clock_of(table, flat, bench, cell, at, row, pulse, clock) {
                return false;
            }
            is_in_clock_zone(bench, row, clock, pulse)
        }
        None => false,
    }
}

/// Whether a pulse at a data pin of a gate does not come later than clock pulse 0 there.
fn is_before_clock(
    table: &CellTable,
    flat: &Flat,
    bench: &Bench,
    cell: CellId,
    at: u8,
    pulse: &PathPick,
    clock: &PathPick,
) -> bool
    requires flat { IsFlat table.now flat.now }
    requires period { IsPositiveTime bench.now.period }
    ensures { IsTrue result ↔ IsHeldAgainst (design_of table.now flat.now bench.now) (reader.Pin cell at) pulse.now (against.Clock clock.now) (λ setup hold number time. (number ≡ 0) × (pick_time bench.now pulse.now ≤ℤ time)) }
{
    match row_of(table, flat, cell) {
        Some(row) => {
            if !is_clock_of(table, flat, bench, cell, at, row, pulse, clock) {
                return false;
            }
            if clock.number != 0 {
                return false;
            }
            is_not_later(bench, pulse, clock)
        }
        None => false,
    }
}

/// Whether a pulse at an output comes in the zone around a strobe.
fn breaks_strobe_zone(bench: &Bench, port: PortId, pulse: &PathPick, number: u64) -> bool
    requires { IsPositiveTime bench.now.period }
    ensures { (table : CellTable) (flat : Flat) → IsTrue result ↔ IsHeldAgainst (design_of table flat bench.now) (reader.Port port) pulse.now (against.Strobe number) (λ setup hold number time. IsInZone setup hold time (pick_time bench.now pulse.now)) }
{
    match bench.uses.get(port) {
        Some(PortUse::Strobed(strobe)) => is_in_strobe_zone(bench, strobe, number, pulse),
        _ => false,
    }
}

/// Whether a pulse at an output does not come later than strobe 0.
fn is_before_strobe(bench: &Bench, port: PortId, pulse: &PathPick, number: u64) -> bool
    requires { IsPositiveTime bench.now.period }
    ensures { (table : CellTable) (flat : Flat) → IsTrue result ↔ IsHeldAgainst (design_of table flat bench.now) (reader.Port port) pulse.now (against.Strobe number) (λ setup hold number time. (number ≡ 0) × (pick_time bench.now pulse.now ≤ℤ time)) }
{
    if number != 0 {
        return false;
    }
    match bench.uses.get(port) {
        Some(PortUse::Strobed(strobe)) => is_not_after(bench, pulse, strobe, number),
        _ => false,
    }
}

/// Whether a pulse at a reader comes in the zone around what it is held against.
fn breaks_zone(
    table: &CellTable,
    flat: &Flat,
    bench: &Bench,
    end: Reader,
    pulse: &PathPick,
    held: &Against,
) -> bool
    requires flat { IsFlat table.now flat.now }
    requires period { IsPositiveTime bench.now.period }
    ensures { IsTrue result ↔ IsHeldAgainst (design_of table.now flat.now bench.now) end pulse.now held.now (λ setup hold number time. IsInZone setup hold time (pick_time bench.now pulse.now)) }
{
    match end {
        Reader::Pin(cell, at) => match held {
            Against::Clock(clock) => breaks_clock_zone(table, flat, bench, cell, at, pulse, clock),
            Against::Strobe(_) => false,
        },
        Reader::Port(port) => match held {
            Against::Clock(_) => false,
            Against::Strobe(number) => breaks_strobe_zone(bench, port, pulse, *number),
        },
    }
}

/// Whether a pulse at a reader does not come later than what it is held against, which is of number 0.
fn is_before(
    table: &CellTable,
    flat: &Flat,
    bench: &Bench,
    end: Reader,
    pulse: &PathPick,
    held: &Against,
) -> bool
    requires flat { IsFlat table.now flat.now }
    requires period { IsPositiveTime bench.now.period }
    ensures { IsTrue result ↔ IsHeldAgainst (design_of table.now flat.now bench.now) end pulse.now held.now (λ setup hold number time. (number ≡ 0) × (pick_time bench.now pulse.now ≤ℤ time)) }
{
    match end {
        Reader::Pin(cell, at) => match held {
            Against::Clock(clock) => is_before_clock(table, flat, bench, cell, at, pulse, clock),
            Against::Strobe(_) => false,
        },
        Reader::Port(port) => match held {
            Against::Clock(_) => false,
            Against::Strobe(number) => is_before_strobe(bench, port, pulse, *number),
        },
    }
}

/// Whether a pulse comes in the zone around a clock pulse or strobe at its pin.
pub fn is_window(
    table: &CellTable,
    flat: &Flat,
    bench: &Bench,
    pin: PinId,
    pulse: &PathPick,
    held: &Against,
) -> bool
    requires flat { IsFlat table.now flat.now }
    requires period { IsPositiveTime bench.now.period }
    ensures { IsTrue result ↔ OffenceExists (design_of table.now flat.now bench.now) (offence.Window pin pulse.now held.now) }
{
    if pulse.ends != pin {
        return false;
    }
    if !is_pick(table, flat, bench, pulse) {
        return false;
    }
    match flat.pins.get(pin) {
        Some(end) => breaks_zone(table, flat, bench, end.reader, pulse, held),
        None => false,
    }
}

/// Whether a pulse of number 1 does not come later than clock pulse 0 or strobe 0 at its pin.
pub fn is_ahead(
    table: &CellTable,
    flat: &Flat,
    bench: &Bench,
    pin: PinId,
    pulse: &PathPick,
    held: &Against,
) -> bool
    requires flat { IsFlat table.now flat.now }
    requires period { IsPositiveTime bench.now.period }
    ensures { IsTrue result ↔ OffenceExists (design_of table.now flat.now bench.now) (offence.Ahead pin pulse.now held.now) }
{
    if pulse.number != 1 {
        return false;
    }
    if pulse.ends != pin {
        return false;
    }
    if !is_pick(table, flat, bench, pulse) {
        return false;
    }
    match flat.pins.get(pin) {
        Some(end) => is_before(table, flat, bench, end.reader, pulse, held),
        None => false,
    }
}
