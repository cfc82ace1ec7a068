//! The texts of an accepted and of a rejected netlist.
//!
//! Times are summed in 128 bits: whatever the numbers of a pulse and its path are, its time is exact.
ghost use Rattle.std.specs.Prelude.{◌≡◌, ◌++◌, ◌<◌, ◌^◌, ◌*◌, ◌-ℤ◌, length, ℤ, pos, negsuc, ◌≤ℤ◌, ◌+ℤ◌, codes, IfOk, slice_index_or, decimal};
ghost use Rattle.std.specs.Option.{option_map_or};
ghost use Rattle.std.specs.Fmt.{signed_decimal};
ghost use Rattle.rsfq_ids.specs.Time.{IsWithin, total};
ghost use Rattle.rsfq_ids.specs.Bench.{tick_at};
ghost use Rattle.rsfq_ids.specs.WellFormed.{IsPositiveTime, IsTime};
ghost use Rattle.rsfq_ids.specs.Path.{pick_time, strobe_at};
ghost use Rattle.wire_timing.specs.Wires.{design_of};
ghost use Rattle.signoff.specs.Text.{port_name, cell_name, output_name, net_name, output_depth, depth_line, accepted_text, source_name, arc_line, arc_lines, pick_text, window_head, strobe_text, stages_text, window_text};

use itoa::Buffer;
use rsfq_ids::circuit::{Bench, Flat, Strobe};
use rsfq_ids::id::{CellId, PortId};
use rsfq_ids::list::NoMemory;
use rsfq_ids::offence::{PathArc, PathPick};
use rsfq_ids::table::CellTable;
use std::alloc::Global;
use wire_timing::WireDepth;

// ---- names

fn port_name(flat: &Flat, port: PortId) -> &str
    ensures { result.now ≡ port_name flat.now port }
{
    match flat.ports.get(port) {
        Some(bit) => bit.name.as_str(),
        None => "",
    }
}

fn cell_name(flat: &Flat, cell: CellId) -> &str
    ensures { result.now ≡ cell_name flat.now cell }
{
    match flat.cells.get(cell) {
        Some(entry) => entry.path.as_str(),
        None => "",
    }
}

fn output_name<'a>(
    table: &'a CellTable,
    flat: &Flat,
    bench: &Bench,
    cell: CellId,
    out: u8,
) -> &'a str
    ensures { result.now ≡ output_name (design_of table.now flat.now bench.now) cell out }
{
    let Some(entry) = flat.cells.get(cell) else {
        return "";
    };
    let Some(row) = table.rows.get(entry.row as usize) else {
        return "";
    };
    match row.outputs.get(out as usize) {
        Some(name) => name.as_str(),
        None => "",
    }
}

fn source_name<'a>(flat: &'a Flat, arcs: &[PathArc]) -> &'a str
    ensures { result.now ≡ source_name flat.now arcs.now }
{
    match arcs {
        [PathArc::Port(port), ..] => port_name(flat, *port),
        _ => "",
    }
}

// ---- lines

fn push(text: &mut Vec<u8>, piece: &[u8]) -> Result<(), NoMemory>
    ensures { IfOk result (λ _. text.new.items ≡ text.old.items ++ piece.now) }
{
    text.extend_from_slice(piece)?;
    Ok(())
}

fn push_number(text: &mut Vec<u8>, number: u64) -> Result<(), NoMemory>
    ensures { IfOk result (λ _. text.new.items ≡ text.old.items ++ decimal number) }
{
    let mut buffer = Buffer::new();
    push(text, buffer.format(number).as_bytes())
}

fn push_time(text: &mut Vec<u8>, time: i128) -> Result<(), NoMemory>
    ensures { IfOk result (λ _. text.new.items ≡ text.old.items ++ signed_decimal time) }
{
    let mut buffer = Buffer::new();
    push(text, buffer.format(time).as_bytes())
}

/// An output and its depth.
fn push_output(text: &mut Vec<u8>, flat: &Flat, found: &WireDepth) -> Result<(), NoMemory>
    ensures { IfOk result (λ _. text.new.items ≡ text.old.items ++ output_depth flat.now found.now) }
{
    push(text, port_name(flat, found.output).as_bytes())?;
    push(text, b" ")?;
    push_number(text, found.depth)
}

fn depth_line(alloc: Global, flat: &Flat, found: &WireDepth) -> Result<Vec<u8>, NoMemory>
    ensures { IfOk result (λ text. text.items ≡ depth_line flat.now found.now) }
{
    let mut text = Vec::from_slice(alloc, b"depth ")?;
    push_output(&mut text, flat, found)?;
    push(&mut text, b" from ")?;
    push(&mut text, port_name(flat, found.source).as_bytes())?;
    push(&mut text, b"\n")?;
    Ok(text)
}

/// The line of an arc: the net that it drives, and its delay.
fn arc_line(
    alloc: Global,
    table: &CellTable,
    flat: &Flat,
    bench: &Bench,
    arc: PathArc,
    delay: i64,
) -> Result<Vec<u8>, NoMemory>
    ensures { IfOk result (λ text. text.items ≡ arc_line (design_of table.now flat.now bench.now) arc delay) }
{
    let mut text = Vec::from_slice(alloc, b"arc ")?;
    match arc {
        PathArc::Port(port) => push(&mut text, port_name(flat, port).as_bytes())?,
        PathArc::Through { cell, pin: _, out } => {
            push(&mut text, cell_name(flat, cell).as_bytes())?;
            push(&mut text, b".")?;
            push(
                &mut text,
                output_name(table, flat, bench, cell, out).as_bytes(),
            )?;
        }
    }
    push(&mut text, b" ")?;
    push_time(&mut text, i128::from(delay))?;
    push(&mut text, b"\n")?;
    Ok(text)
}

/// A line for each arc that has a delay.
fn arc_lines(
    alloc: Global,
    table: &CellTable,
    flat: &Flat,
    bench: &Bench,
    arcs: &[PathArc],
    delays: &[i64],
) -> Result<Vec<u8>, NoMemory>
    ensures { IfOk result (λ text. text.items ≡ arc_lines (design_of table.now flat.now bench.now) arcs.now delays.now) }
{
    let mut text = Vec::new(alloc);
    let count = arcs.len().min(delays.len());
    for i in 0..count {
        push(
            &mut text,
            &arc_line(alloc, table, flat, bench, arcs[i], delays[i])?,
        )?;
    }
    Ok(text)
}

// ---- times

fn plus(one: i128, other: i128) -> i128
    requires one { IsWithin (negsuc (2 ^ 125)) (pos (2 ^ 125)) one }
    requires other { IsWithin (negsuc (2 ^ 125)) (pos (2 ^ 125)) other }
    ensures { result ≡ one +ℤ other }
{
    one + other
}

/// The sum of delays.
fn total_delay(delays: &[i64]) -> i128
    ensures sum { result ≡ total delays.now }
    ensures large { IsWithin (negsuc (2 ^ 124)) (pos (2 ^ 124)) result }
{
    let mut sum = 0;
    for delay in delays {
        sum = plus(sum, i128::from(*delay));
    }
    sum
}

/// The time of a tick of the clock.
fn tick_at(bench: &Bench, number: u64) -> i128
    requires { IsPositiveTime bench.now.period }
    ensures time { result ≡ tick_at bench.now number }
    ensures large { IsWithin (pos 0) (pos (2 ^ 94)) result }
{
    i128::from(number) * i128::from(bench.period)
}

/// The time of a pulse on its path.
fn time_of(bench: &Bench, pick: &PathPick) -> i128
    requires { IsPositiveTime bench.now.period }
    ensures time { result ≡ pick_time bench.now pick.now }
    ensures large { IsWithin (negsuc (2 ^ 125)) (pos (2 ^ 125)) result }
{
    plus(
        tick_at(bench, pick.number),
        total_delay(pick.delays.as_slice()),
    )
}

/// The time of a strobe.
fn strobe_at(bench: &Bench, strobe: &Strobe, number: u64) -> i128
    requires period { IsPositiveTime bench.now.period }
    requires offset { IsTime strobe.now.offset }
    ensures time { result ≡ strobe_at bench.now strobe.now number }
    ensures large { IsWithin (negsuc (2 ^ 123)) (pos (2 ^ 123)) result }
{
    plus(i128::from(strobe.offset), tick_at(bench, number))
}

/// How much later one time is than another.
fn minus(one: i128, other: i128) -> i128
    requires one { IsWithin (negsuc (2 ^ 125)) (pos (2 ^ 125)) one }
    requires other { IsWithin (negsuc (2 ^ 123)) (pos (2 ^ 123)) other }
    ensures { result ≡ one -ℤ other }
{
    one - other
}

// ---- the whole texts

/// The text of an accepted netlist: `accepted`, and for each output `depth OUTPUT D from INPUT`.
///
/// # Errors
///
/// `NoMemory` where memory is wanting.
pub fn accepted_text(alloc: Global, flat: &Flat, depths: &[WireDepth]) -> Result<Vec<u8>, NoMemory>
    ensures { IfOk result (λ text. text.items ≡ accepted_text flat.now depths.now) }
{
    let mut text = Vec::from_slice(alloc, b"accepted\n")?;
    for found in depths {
        push(&mut text, &depth_line(alloc, flat, found)?)?;
    }
    Ok(text)
}

/// The line of a netlist that is refused because an output is too deep.
///
/// # Errors
///
/// `NoMemory` where memory is wanting.
pub fn stages_text(alloc: Global, flat: &Flat, found: &WireDepth) -> Result<Vec<u8>, NoMemory>
    ensures { IfOk result (λ text. text.items ≡ stages_text flat.now found.now) }
{
    let mut text = Vec::from_slice(alloc, b"refused limit stages ")?;
    push_output(&mut text, flat, found)?;
    push(&mut text, b"\n")?;
    Ok(text)
}

/// A pulse: where it begins, its number and its time in femtoseconds, and its arcs with their delays.
fn pick_text(
    alloc: Global,
    table: &CellTable,
    flat: &Flat,
    bench: &Bench,
    pick: &PathPick,
) -> Result<Vec<u8>, NoMemory>
    requires { IsPositiveTime bench.now.period }
    ensures { IfOk result (λ text. text.items ≡ pick_text (design_of table.now flat.now bench.now) pick.now) }
{
    let mut text = Vec::from_slice(alloc, b"pick ")?;
    push(
        &mut text,
        source_name(flat, pick.arcs.as_slice()).as_bytes(),
    )?;
    push(&mut text, b" ")?;
    push_number(&mut text, pick.number)?;
    push(&mut text, b" ")?;
    push_time(&mut text, time_of(bench, pick))?;
    push(&mut text, b"\n")?;
    let lines = arc_lines(
        alloc,
        table,
        flat,
        bench,
        pick.arcs.as_slice(),
        pick.delays.as_slice(),
    )?;
    push(&mut text, &lines)?;
    Ok(text)
}

/// The first lines of a rejection: the rule, the output, and the zone around its strobe.
fn window_head(
    alloc: Global,
    flat: &Flat,
    output: PortId,
    strobe: &Strobe,
) -> Result<Vec<u8>, NoMemory>
    ensures { IfOk result (λ text. text.items ≡ window_head flat.now output strobe.now) }
{
    let mut text = Vec::from_slice(alloc, b"rejected window\nat ")?;
    push(&mut text, port_name(flat, output).as_bytes())?;
    push(&mut text, b"\nzone ")?;
    push_time(&mut text, i128::from(strobe.setup))?;
    push(&mut text, b" ")?;
    push_time(&mut text, i128::from(strobe.hold))?;
    push(&mut text, b"\n")?;
    Ok(text)
}

/// The last lines of a rejection: the strobe with its number and time, and how much later the pulse is.
fn strobe_text(
    alloc: Global,
    bench: &Bench,
    strobe: &Strobe,
    pulse: &PathPick,
    number: u64,
) -> Result<Vec<u8>, NoMemory>
    requires period { IsPositiveTime bench.now.period }
    requires offset { IsTime strobe.now.offset }
    ensures { IfOk result (λ text. text.items ≡ strobe_text bench.now strobe.now pulse.now number) }
{
    let at = strobe_at(bench, strobe, number);
    let mut text = Vec::from_slice(alloc, b"strobe ")?;
    push_number(&mut text, number)?;
    push(&mut text, b" ")?;
    push_time(&mut text, at)?;
    push(&mut text, b"\ndifference ")?;
    push_time(&mut text, minus(time_of(bench, pulse), at))?;
    push(&mut text, b"\n")?;
    Ok(text)
}

/// The text of a netlist that is rejected for a pulse in the zone around a strobe of an output.
///
/// # Errors
///
/// `NoMemory` where memory is wanting.
pub fn window_text(
    alloc: Global,
    table: &CellTable,
    flat: &Flat,
    bench: &Bench,
    output: PortId,
    strobe: &Strobe,
    pulse: &PathPick,
    number: u64,
) -> Result<Vec<u8>, NoMemory>
    requires period { IsPositiveTime bench.now.period }
    requires offset { IsTime strobe.now.offset }
    ensures { IfOk result (λ text. text.items ≡ window_text (design_of table.now flat.now bench.now) output strobe.now pulse.now number) }
{
    let mut text = window_head(alloc, flat, output, strobe)?;
    push(&mut text, &pick_text(alloc, table, flat, bench, pulse)?)?;
    push(
        &mut text,
        &strobe_text(alloc, bench, strobe, pulse, number)?,
    )?;
    Ok(text)
}
