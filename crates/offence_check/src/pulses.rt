//! The offences on pulses: dead, window and ahead.
ghost use Rattle.std.specs.Prelude.{◌≡◌, ◌↔◌, ◌^◌, ◌<◌, ◌<ℤ◌, ◌≤ℤ◌, ◌+ℤ◌, ◌-ℤ◌, ℕ, ℤ, pos, neg_ℤ, length, IsTrue, IfSome, IfNone, true};
ghost use Rattle.rsfq_ids.specs.declared.circuit.Strobe.{Strobe};
ghost use Rattle.rsfq_ids.specs.declared.circuit.PortUse.TheVariants as port_use;
ghost use Rattle.rsfq_ids.specs.declared.circuit.Reader.TheVariants as reader;
ghost use Rattle.rsfq_ids.specs.declared.offence.Offence.TheVariants as offence;
ghost use Rattle.rsfq_ids.specs.Time.{IsNear, IsInZone, IsWithin};
ghost use Rattle.rsfq_ids.specs.Circuit.{IsOf, IsPin, is_gate, clock_pin};
ghost use Rattle.rsfq_ids.specs.Bench.{IsUsed};
ghost use Rattle.rsfq_ids.specs.Path.{IsPick, Agree, pick_time, strobe_at};
ghost use Rattle.rsfq_ids.specs.Bench.{strobe_time};
ghost use Rattle.rsfq_ids.specs.Offence.{OffenceExists, IsDeadPin, EndsAtCell, MeetAt, IsDead};
ghost use Rattle.rsfq_ids.specs.WellFormed.{IsFlat, IsPositiveTime};
ghost use Rattle.rsfq_ids.specs.Design.{design_of};
ghost use Rattle.offence_check.specs.Check.{IsSpan};

use crate::lookup::{cell_pin, is_gate, row_of};
use crate::pick::{add_times, agree, differ, is_pick, pick_time, tick_time, widen};
use rsfq_ids::circuit::{Bench, Flat, Strobe};
use rsfq_ids::id::CellId;
use rsfq_ids::offence::PathPick;
use rsfq_ids::table::{CellRow, CellTable};

/// How much later the second of two times is, in fs.
fn later_by(first: i128, second: i128) -> i128
    requires first { IsSpan first }
    requires second { IsSpan second }
    ensures { result ≡ second -ℤ first }
{
    second - first
}

/// Whether a difference of times is below a distance, in fs.
fn is_below(difference: i128, distance: i64) -> bool
    ensures { IsTrue result ↔ (difference <ℤ distance) }
{
    difference < widen(distance)
}

/// Whether two pulses differ by less than the dead time of a row.
fn are_near(bench: &Bench, row: &CellRow, x: &PathPick, y: &PathPick) -> bool
    requires { IsPositiveTime bench.now.period }
    ensures { IsTrue result ↔ IsNear row.now.dead (pick_time bench.now x.now) (pick_time bench.now y.now) }
{
    let first = pick_time(bench, x);
    let second = pick_time(bench, y);
    if !is_below(later_by(first, second), row.dead) {
        return false;
    }
    is_below(later_by(second, first), row.dead)
}

/// Whether pulses at a pin of a cell of this row meet there: at an input of a cell that is no gate, or at the clock pin of a gate.
fn is_dead_pin(row: &CellRow, at: u8) -> bool
    ensures { IsTrue result ↔ IsDeadPin (is_gate row.now.kind) row.now at }
{
    if is_gate(row.kind) {
        at as usize == row.inputs.len()
    } else {
        (at as usize) < row.inputs.len()
    }
}

/// Whether a pin, where it is one of the cell, is such a pin.
fn is_dead_pin_of(row: &CellRow, cell: CellId, found: CellId, at: u8) -> bool
    ensures { IsTrue result ↔ ((found ≡ cell) × IsDeadPin (is_gate row.now.kind) row.now at) }
{
    if found != cell {
        return false;
    }
    is_dead_pin(row, at)
}

/// Whether a pick ends where pulses meet at a cell of this row.
fn ends_at_cell(flat: &Flat, cell: CellId, row: &CellRow, pick: &PathPick) -> bool
    ensures { IsTrue result ↔ EndsAtCell flat.now cell row.now pick.now }
{
    match cell_pin(flat, pick.ends) {
        Some((found, at, _)) => is_dead_pin_of(row, cell, found, at),
        None => false,
    }
}

/// Whether two different pulses that may come together meet at a cell of this row.
fn meet_at(
    table: &CellTable,
    flat: &Flat,
    bench: &Bench,
    cell: CellId,
    row: &CellRow,
    x: &PathPick,
    y: &PathPick,
) -> bool
    requires flat { IsFlat table.now flat.now }
    requires of { IsOf (design_of table.now flat.now bench.now) cell row.now }
    ensures { IsTrue result ↔ MeetAt (design_of table.now flat.now bench.now) cell row.now x.now y.now }
{
    if !is_pick(table, flat, bench, x) {
        return false;
    }
    if !is_pick(table, flat, bench, y) {
        return false;
    }
    if !agree(x, y) {
        return false;
    }
    if !differ(x, y) {
        return false;
    }
    if !ends_at_cell(flat, cell, row, x) {
        return false;
    }
    ends_at_cell(flat, cell, row, y)
}

/// Whether they meet, and too near.
fn is_dead_at(
    table: &CellTable,
    flat: &Flat,
    bench: &Bench,
    cell: CellId,
    row: &CellRow,
    x: &PathPick,
    y: &PathPick,
) -> bool
    requires flat { IsFlat table.now flat.now }
    requires period { IsPositiveTime bench.now.period }
    requires of { IsOf (design_of table.now flat.now bench.now) cell row.now }
    ensures { IsTrue result ↔ IsDead (design_of table.now flat.now bench.now) cell row.now x.now y.now }
{
    if !meet_at(table, flat, bench, cell, row, x, y) {
        return false;
    }
    are_near(bench, row, x, y)
}

/// Whether two different pulses come to a cell within its dead time.
pub fn is_dead(
    table: &CellTable,
    flat: &Flat,
    bench: &Bench,
    cell: CellId,
    x: &PathPick,
    y: &PathPick,
) -> bool
    requires flat { IsFlat table.now flat.now }
    requires period { IsPositiveTime bench.now.period }
    ensures { IsTrue result ↔ OffenceExists (design_of table.now flat.now bench.now) (offence.Dead cell x.now y.now) }
{
    match row_of(table, flat, cell) {
        Some(row) => is_dead_at(table, flat, bench, cell, row, x, y),
        None => false,
    }
}

/// Whether a pulse comes in the zone around a time, all in fs.
fn is_in_zone(setup: i64, hold: i64, at: i128, time: i128) -> bool
    requires at { IsSpan at }
    requires time { IsSpan time }
    ensures { IsTrue result ↔ ((at -ℤ time) <ℤ setup) × ((time -ℤ at) <ℤ hold) }
{
    if !is_below(later_by(time, at), setup) {
        return false;
    }
    is_below(later_by(at, time), hold)
}

/// Whether a pulse comes in the zone around a clock pulse.
pub fn is_in_clock_zone(bench: &Bench, row: &CellRow, clock: &PathPick, pulse: &PathPick) -> bool
    requires { IsPositiveTime bench.now.period }
    ensures { IsTrue result ↔ IsInZone row.now.setup row.now.hold (pick_time bench.now clock.now) (pick_time bench.now pulse.now) }
{
    is_in_zone(
        row.setup,
        row.hold,
        pick_time(bench, clock),
        pick_time(bench, pulse),
    )
}

/// Whether a pulse does not come later than another.
pub fn is_not_later(bench: &Bench, pulse: &PathPick, clock: &PathPick) -> bool
    requires { IsPositiveTime bench.now.period }
    ensures { IsTrue result ↔ (pick_time bench.now pulse.now ≤ℤ pick_time bench.now clock.now) }
{
    pick_time(bench, pulse) <= pick_time(bench, clock)
}

/// The time of a strobe of an output, in fs.
fn strobe_at(bench: &Bench, strobe: &Strobe, number: u64) -> i128
    requires { IsPositiveTime bench.now.period }
    ensures value { result ≡ strobe_at bench.now strobe.now number }
    ensures small { IsSpan result }
{
    add_times(widen(strobe.offset), tick_time(bench.period, number))
}

/// Whether a pulse comes in the zone around a strobe.
pub fn is_in_strobe_zone(bench: &Bench, strobe: &Strobe, number: u64, pulse: &PathPick) -> bool
    requires { IsPositiveTime bench.now.period }
    ensures { IsTrue result ↔ IsInZone strobe.now.setup strobe.now.hold (strobe_at bench.now strobe.now number) (pick_time bench.now pulse.now) }
{
    is_in_zone(
        strobe.setup,
        strobe.hold,
        strobe_at(bench, strobe, number),
        pick_time(bench, pulse),
    )
}

/// Whether a pulse does not come later than a strobe.
pub fn is_not_after(bench: &Bench, pulse: &PathPick, strobe: &Strobe, number: u64) -> bool
    requires { IsPositiveTime bench.now.period }
    ensures { IsTrue result ↔ (pick_time bench.now pulse.now ≤ℤ strobe_at bench.now strobe.now number) }
{
    pick_time(bench, pulse) <= strobe_at(bench, strobe, number)
}
