//! Plain, slow programs that compute the definitions of runs and values as they are read.
//!
//! Faster bodies are held against them.

ghost use Rattle.std.specs.Prelude.{◌≤◌, ◌^◌, List, map, IfOk, ℤ, pos, ◌<◌, length, ◌≡◌, ◌↔◌, ℕ, IsTrue, IfSome, IfNone, IsOk, slice_index_or, slice_get, true, ◌&&◌, int_le, int_lt};
ghost use Rattle.std.specs.List.{All, list_any};
ghost use Rattle.rsfq_ids.specs.Time.{IsNear};
ghost use Rattle.rsfq_ids.specs.Run.{AreApart, is_present, row_number};
ghost use Rattle.rsfq_ids.specs.Circuit.{IsDrivenBy, Reads, PinsRead, InputNets};
ghost use Rattle.rsfq_ids.specs.Value.{value_of, value_made, port_value, Gives, AreValues};
ghost use Rattle.rsfq_ids.specs.Bench.{IsUsed, bit_of};
ghost use Rattle.rsfq_ids.specs.declared.circuit.PortUse.{PortUse};
ghost use Rattle.rsfq_ids.specs.Ready.{IsSetUp};
ghost use Rattle.std.specs.Option.{option_copied, option_and_then};

use rsfq_ids::circuit::{Bench, Driver, Flat, PortUse, Reader};
use rsfq_ids::id::{CellId, Id, NetId, PinId, PortId};
use rsfq_ids::list::{List, NoMemory};
use rsfq_ids::table::{CellRow, CellTable, Kind};
use std::alloc::Global;

fn is_near(distance: i64, first: i64, second: i64) -> bool
    ensures { IsTrue result ↔ IsNear distance first second }
{
    second as i128 - (first as i128) < distance as i128
        && first as i128 - (second as i128) < distance as i128
}

fn is_far_from_earlier(dead: i64, times: &[i64], i: usize) -> bool
    requires { i < length times.now }
    ensures { IsTrue result ↔ ((k : ℕ) → k < i → ¬ IsNear dead (slice_index_or times.now k (pos 0)) (slice_index_or times.now i (pos 0))) }
{
    for k in 0..i {
        if is_near(dead, times[k], times[i]) {
            return false;
        }
    }
    true
}

/// Whether the times, in femtoseconds, are at least so far apart, whichever two are taken.
pub fn is_apart(dead: i64, times: &[i64]) -> bool
    ensures { IsTrue result ↔ AreApart dead times.now }
{
    for i in 0..times.len() {
        if !is_far_from_earlier(dead, times, i) {
            return false;
        }
    }
    true
}

fn is_cleared(clock: &[i64], from: i64, to: i64) -> bool
    ensures { result ≡ list_any (λ b. int_le from b && int_lt b to) clock.now }
{
    clock.iter().any(|b| from <= *b && *b < to)
}

/// Whether a data pin is present at a clock entry.
pub fn is_present(arrived: &[i64], clock: &[i64], at: i64) -> bool
    ensures { result ≡ is_present arrived.now clock.now at }
{
    arrived
        .iter()
        .any(|t| *t <= at && !is_cleared(clock, *t, at))
}

/// The net that a reader reads, if there is such a reader.
pub fn net_of(flat: &Flat, reader: Reader) -> Option<NetId>
    ensures found { IfSome result (λ net. Reads flat.now reader net) }
    ensures none { IfNone result ((net : ℕ) → Reads flat.now reader net → ⊥) }
{
    for i in 0..flat.pins.len() {
        if let Some(pin) = flat.pins.get(PinId::of(i as u32)) {
            if pin.reader == reader {
                return Some(pin.net);
            }
        }
    }
    None
}

/// The value of a net that a reader reads, where it reads one.
fn value_read(flat: &Flat, values: &[bool], reader: Reader) -> bool
    ensures { (read : ℕ) → Reads flat.now reader read → (net : ℕ) × Reads flat.now reader net × (result ≡ value_of values.now net) }
{
    match net_of(flat, reader) {
        Some(net) => value_at(values, net),
        None => false,
    }
}

/// The value of a net, which is false past the end of the list.
fn value_at(values: &[bool], net: NetId) -> bool
    ensures { result ≡ value_of values.now net }
{
    match values.get(net.index()) {
        Some(value) => *value,
        None => false,
    }
}

/// The values that the first pins of a cell read, where each of them reads a net.
pub fn bits_read(
    alloc: Global,
    flat: &Flat,
    values: &[bool],
    cell: CellId,
    count: u8,
) -> Result<List<bool>, NoMemory>
    ensures count { IfOk result (λ bits. length bits ≡ count) }
    ensures read { IfOk result (λ bits. (read : List ℕ) → PinsRead flat.now cell count read → (nets : List ℕ) × PinsRead flat.now cell count nets × (bits ≡ map (value_of values.now) nets)) }
{
    let mut bits = List::new(alloc);
    for pin in 0..count {
        bits.push(value_read(flat, values, Reader::Pin(cell, pin)))?;
    }
    Ok(bits)
}

/// The number of a row of a truth table.
fn row_number(bits: &[bool]) -> u16
    requires { length bits.now ≤ 4 }
    ensures value { result ≡ row_number bits.now }
    ensures small { result < 2 ^ length bits.now }
{
    match bits {
        [] => 0,
        [bit, others @ ..] => *bit as u16 + 2 * row_number(others),
    }
}

/// What a cell makes of the values of its inputs.
pub fn made(row: &CellRow, out: u8, bits: &[bool]) -> bool
    requires { length bits.now ≤ 4 }
    ensures { result ≡ value_made row.now.kind row.now out bits.now }
{
    match row.kind {
        Kind::Gate => (row.truth >> row_number(bits)) % 2 == 1,
        Kind::Jtl => bits.iter().any(|bit| *bit),
        Kind::Split => bits.iter().any(|bit| *bit),
        Kind::Merge => bits.iter().any(|bit| *bit),
    }
}

/// The row of the cell table that a cell is of.
fn row_of<'a>(table: &'a CellTable, flat: &Flat, cell: CellId) -> Option<&'a CellRow>
    ensures { option_copied result ≡ option_and_then (λ c. slice_get table.now.rows c.row) (slice_get flat.now.cells cell) }
{
    match flat.cells.get(cell) {
        Some(flat_cell) => table.rows.get(flat_cell.row as usize),
        None => None,
    }
}

/// The value that a cell of this row gives one of its outputs, where its inputs read nets that have these values.
fn value_made(
    alloc: Global,
    flat: &Flat,
    row: &CellRow,
    values: &[bool],
    cell: CellId,
    out: u8,
) -> Result<bool, NoMemory>
    ensures { IfOk result (λ value. (read : List ℕ) → length row.now.inputs ≤ 3 → InputNets flat.now cell row.now read → (nets : List ℕ) × InputNets flat.now cell row.now nets × (value ≡ value_made row.now.kind row.now out (map (value_of values.now) nets))) }
{
    if row.inputs.len() > 3 {
        return Ok(false);
    }
    let bits = bits_read(alloc, flat, values, cell, row.inputs.len() as u8)?;
    Ok(made(row, out, bits.as_slice()))
}

/// The value that the driver of a net gives it under a word, where the nets have these values, in a well-formed design.
pub fn value_given(
    alloc: Global,
    table: &CellTable,
    flat: &Flat,
    bench: &Bench,
    word: &[bool],
    values: &[bool],
    driver: Driver,
) -> Result<bool, NoMemory>
    ensures { IfOk result (λ value. IsSetUp (record { table = table.now; flat = flat.now; bench = bench.now }) → (net : ℕ) → IsDrivenBy flat.now net driver → Gives (record { table = table.now; flat = flat.now; bench = bench.now }) word.now values.now driver value) }
{
    match driver {
        Driver::Out(cell, out) => match row_of(table, flat, cell) {
            Some(row) => value_made(alloc, flat, row, values, cell, out),
            None => Ok(false),
        },
        Driver::Port(port) => Ok(port_value(bench, word, port)),
    }
}

/// The value of a word at a port bit, where the port has a use.
fn port_value(bench: &Bench, word: &[bool], port: PortId) -> bool
    ensures { (used : PortUse) → IsUsed bench.now port used → result ≡ port_value used bench.now port word.now }
{
    match bench.uses.get(port) {
        Some(PortUse::Arrival { low: _, high: _ }) => bit_at(bench, word, port),
        _ => false,
    }
}

/// The bit of a word at a port.
fn bit_at(bench: &Bench, word: &[bool], port: PortId) -> bool
    requires { port < length bench.now.uses }
    ensures { result ≡ bit_of bench.now port word.now }
{
    let place = bench.uses.as_slice()[..port.index()]
        .iter()
        .filter(|used| used.is_data())
        .count();
    if place < word.len() {
        word[place]
    } else {
        false
    }
}

/// Whether these are the values of all nets under a word, in a well-formed design: each net has the value that its driver
/// gives it.
pub fn are_values(
    alloc: Global,
    table: &CellTable,
    flat: &Flat,
    bench: &Bench,
    word: &[bool],
    values: &[bool],
) -> Result<bool, NoMemory>
    ensures { IfOk result (λ holds. IsSetUp (record { table = table.now; flat = flat.now; bench = bench.now }) → IsTrue holds ↔ AreValues (record { table = table.now; flat = flat.now; bench = bench.now }) word.now values.now) }
{
    if values.len() != flat.nets.len() {
        return Ok(false);
    }
    for (i, driver) in flat.nets.as_slice().iter().enumerate() {
        if value_given(alloc, table, flat, bench, word, values, *driver)? != values[i] {
            return Ok(false);
        }
    }
    Ok(true)
}
