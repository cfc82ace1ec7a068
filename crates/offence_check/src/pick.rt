//! Picks: pulses on paths with the delays that they take, and their times.
ghost use Rattle.std.specs.Prelude.{◌≡◌, ◌↔◌, ℕ, ◌*◌, ◌^◌, ◌<◌, ◌+ℤ◌, ◌*ℤ◌, pos, neg_ℤ, length, IsTrue, true};
ghost use Rattle.std.specs.List.{AllZip};
ghost use Rattle.rsfq_ids.specs.declared.circuit.PortUse.{PortUse};
ghost use Rattle.rsfq_ids.specs.Time.{IsWithin, total};
ghost use Rattle.rsfq_ids.specs.Bench.{IsUsed};
ghost use Rattle.rsfq_ids.specs.Run.{IsPortDelay};
ghost use Rattle.rsfq_ids.specs.Path.{IsDelay, IsPick, Agree, SameDelays, pick_time};
ghost use Rattle.rsfq_ids.specs.Offence.{Differ};
ghost use Rattle.rsfq_ids.specs.WellFormed.{IsFlat, IsPositiveTime};
ghost use Rattle.rsfq_ids.specs.Design.{design_of};
ghost use Rattle.offence_check.specs.Check.{IsSpan};

use crate::lookup::row_of;
use crate::path::is_path;
use rsfq_ids::circuit::{Bench, Flat, PortUse};
use rsfq_ids::id::PortId;
use rsfq_ids::offence::{PathArc, PathPick};
use rsfq_ids::table::CellTable;

/// Whether a time is from `low` to `high`, all in fs.
fn is_within(low: i64, high: i64, time: i64) -> bool
    ensures { IsTrue result ↔ IsWithin low high time }
{
    low <= time && time <= high
}

/// Whether a pulse that comes in at a port may take this delay, in fs.
fn is_port_delay(bench: &Bench, port: PortId, delay: i64) -> bool
    ensures { IsTrue result ↔ ((used : PortUse) × IsUsed bench.now port used × IsPortDelay bench.now used delay) }
{
    match bench.uses.get(port) {
        Some(PortUse::Clock) => is_within(0, bench.jitter, delay),
        Some(PortUse::Arrival { low, high }) => is_within(*low, *high, delay),
        Some(PortUse::Strobed(_)) => false,
        None => false,
    }
}

/// Whether an arc may take this delay, in fs.
fn is_delay(table: &CellTable, flat: &Flat, bench: &Bench, arc: PathArc, delay: i64) -> bool
    ensures { IsTrue result ↔ IsDelay (design_of table.now flat.now bench.now) arc delay }
{
    match arc {
        PathArc::Port(port) => is_port_delay(bench, port, delay),
        PathArc::Through {
            cell,
            pin: _,
            out: _,
        } => match row_of(table, flat, cell) {
            Some(row) => is_within(row.low, row.high, delay),
            None => false,
        },
    }
}

/// Whether these are delays of the arcs, one for each.
fn are_delays(
    table: &CellTable,
    flat: &Flat,
    bench: &Bench,
    arcs: &[PathArc],
    delays: &[i64],
) -> bool
    ensures { IsTrue result ↔ AllZip (IsDelay (design_of table.now flat.now bench.now)) arcs.now delays.now }
{
    if arcs.len() != delays.len() {
        return false;
    }
    for i in 0..arcs.len() {
        if !is_delay(table, flat, bench, arcs[i], delays[i]) {
            return false;
        }
    }
    true
}

/// Whether a pick is one of the design: a path to the net of its end pin, with a delay for each arc.
pub fn is_pick(table: &CellTable, flat: &Flat, bench: &Bench, pick: &PathPick) -> bool
    requires { IsFlat table.now flat.now }
    ensures { IsTrue result ↔ IsPick (design_of table.now flat.now bench.now) pick.now }
{
    match flat.pins.get(pick.ends) {
        Some(end) => {
            if !is_path(table, flat, bench, pick.arcs.as_slice(), end.net) {
                return false;
            }
            are_delays(
                table,
                flat,
                bench,
                pick.arcs.as_slice(),
                pick.delays.as_slice(),
            )
        }
        None => false,
    }
}

/// Whether delays are equal as far as the arcs are.
fn same_delays(arcs: &[PathArc], delays: &[i64], others: &[PathArc], ends: &[i64]) -> bool
    ensures { IsTrue result ↔ SameDelays arcs.now delays.now others.now ends.now }
{
    let mut i = 0;
    'along: while i < arcs.len() && i < delays.len() && i < others.len() && i < ends.len() {
        if arcs[i] != others[i] {
            return true;
        }
        if delays[i] != ends[i] {
            return false;
        }
        i += 1;
    }
    true
}

/// Whether two picks agree: where they are of one number, they are one pulse as far as their paths are one.
pub fn agree(x: &PathPick, y: &PathPick) -> bool
    ensures { IsTrue result ↔ Agree x.now y.now }
{
    if x.number != y.number {
        return true;
    }
    same_delays(
        x.arcs.as_slice(),
        x.delays.as_slice(),
        y.arcs.as_slice(),
        y.delays.as_slice(),
    )
}

/// Whether two lists of arcs are one.
fn same_arcs(arcs: &[PathArc], others: &[PathArc]) -> bool
    ensures { IsTrue result ↔ (arcs.now ≡ others.now) }
{
    if arcs.len() != others.len() {
        return false;
    }
    for i in 0..arcs.len() {
        if arcs[i] != others[i] {
            return false;
        }
    }
    true
}

/// Whether two picks are of different pulses.
pub fn differ(x: &PathPick, y: &PathPick) -> bool
    ensures { IsTrue result ↔ Differ x.now y.now }
{
    if x.number != y.number {
        return true;
    }
    !same_arcs(x.arcs.as_slice(), y.arcs.as_slice())
}

/// A time as a wider number.
pub fn widen(time: i64) -> i128
    ensures { result ≡ time }
{
    time as i128
}

/// A sum of delays and one delay more, in fs.
fn add_delay(sum: i128, delay: i64) -> i128
    requires { IsWithin (neg_ℤ (pos (2 ^ 126))) (pos (2 ^ 126)) sum }
    ensures { result ≡ sum +ℤ delay }
{
    sum + widen(delay)
}

/// The sum of delays, in fs.
fn total(delays: &[i64]) -> i128
    ensures value { result ≡ total delays.now }
    ensures small { IsWithin (neg_ℤ (pos (length delays.now * 2 ^ 63))) (pos (length delays.now * 2 ^ 63)) result }
{
    let mut sum: i128 = 0;
    for delay in delays {
        sum = add_delay(sum, *delay);
    }
    sum
}

/// The time of a tick, in fs.
pub fn tick_time(period: i64, number: u64) -> i128
    requires { IsPositiveTime period }
    ensures value { result ≡ pos number *ℤ period }
    ensures small { IsWithin (pos 0) (pos (2 ^ 94)) result }
{
    number as i128 * widen(period)
}

/// The sum of two times, in fs.
pub fn add_times(first: i128, second: i128) -> i128
    requires first { IsSpan first }
    requires second { IsSpan second }
    ensures { result ≡ first +ℤ second }
{
    first + second
}

/// The time of a pick, in fs.
pub fn pick_time(bench: &Bench, pick: &PathPick) -> i128
    requires { IsPositiveTime bench.now.period }
    ensures value { result ≡ pick_time bench.now pick.now }
    ensures small { IsSpan result }
{
    add_times(
        tick_time(bench.period, pick.number),
        total(pick.delays.as_slice()),
    )
}
