//! Routes, paths and clock routes to a net.
ghost use Rattle.std.specs.Prelude.{◌≡◌, ◌↔◌, ◌∷◌, ℕ, ◌<◌, IsTrue, IfSome, IfNone, true, not};
ghost use Rattle.std.specs.List.{count_by};
ghost use Rattle.rsfq_ids.specs.declared.table.CellRow.{CellRow};
ghost use Rattle.rsfq_ids.specs.declared.circuit.Bench.{Bench};
ghost use Rattle.rsfq_ids.specs.declared.circuit.PortUse.{PortUse};
ghost use Rattle.rsfq_ids.specs.Circuit.{IsOf, is_gate, is_copying};
ghost use Rattle.rsfq_ids.specs.Bench.{IsUsed, is_data};
ghost use Rattle.rsfq_ids.specs.Path.{IsPassedFrom, ArcLeads, ArcsLead, IsRoute, BeginsAtPort, IsPath, IsClockRoute, IsFromData, passes};
ghost use Rattle.rsfq_ids.specs.WellFormed.{IsFlat};
ghost use Rattle.rsfq_ids.specs.Design.{design_of};
ghost use Rattle.net_graph.specs.Graph.{AreInOrder};

use crate::lookup::{is_copying, is_driven_by, is_gate, net_of, passes_at, row_of};
use net_graph::laws::circuits_are_wired;
use rsfq_ids::circuit::{Bench, Driver, Flat, Reader};
use rsfq_ids::id::{CellId, NetId, PortId};
use rsfq_ids::offence::PathArc;
use rsfq_ids::table::CellTable;

/// Whether pulses pass from a pin of a cell to its outputs.
fn is_passed_from(table: &CellTable, flat: &Flat, cell: CellId, pin: u8) -> bool
    ensures { (bench : Bench) → IsTrue result ↔ ((row : CellRow) × IsOf (design_of table.now flat.now bench) cell row × IsPassedFrom (is_gate row.kind) row pin) }
{
    match row_of(table, flat, cell) {
        Some(row) => passes_at(row, pin),
        None => false,
    }
}

/// The net from which an arc leads through a cell to a net, if it leads there.
fn net_before(table: &CellTable, flat: &Flat, arc: PathArc, net: NetId) -> Option<NetId>
    requires { AreInOrder flat.now }
    ensures some { IfSome result (λ before. (bench : Bench) → ArcLeads (design_of table.now flat.now bench) before arc net) }
    ensures none { IfNone result ((bench : Bench) (before : ℕ) → ¬ ArcLeads (design_of table.now flat.now bench) before arc net) }
{
    match arc {
        PathArc::Port(_) => None,
        PathArc::Through { cell, pin, out } => {
            if !is_driven_by(flat, net, Driver::Out(cell, out)) {
                return None;
            }
            if !is_passed_from(table, flat, cell, pin) {
                return None;
            }
            net_of(flat, Reader::Pin(cell, pin))
        }
    }
}

/// The net from which arcs lead to a net, if they lead there.
fn source_of(table: &CellTable, flat: &Flat, arcs: &[PathArc], net: NetId) -> Option<NetId>
    requires { IsFlat table.now flat.now }
    ensures some { IfSome result (λ first. (bench : Bench) → ArcsLead (design_of table.now flat.now bench) first arcs.now net) }
    ensures none { IfNone result ((bench : Bench) (first : ℕ) → ¬ ArcsLead (design_of table.now flat.now bench) first arcs.now net) }
{
    circuits_are_wired();
    let mut at = net;
    let mut left = arcs.len();
    'back: while left > 0 {
        left -= 1;
        match net_before(table, flat, arcs[left], at) {
            Some(before) => at = before,
            None => return None,
        }
    }
    Some(at)
}

/// Whether a first arc and further arcs are a route to a net.
fn starts_route(
    table: &CellTable,
    flat: &Flat,
    first: PathArc,
    arcs: &[PathArc],
    net: NetId,
) -> bool
    requires { IsFlat table.now flat.now }
    ensures { (bench : Bench) → IsTrue result ↔ IsRoute (design_of table.now flat.now bench) (first ∷ arcs.now) net }
{
    circuits_are_wired();
    match first {
        PathArc::Port(port) => match source_of(table, flat, arcs, net) {
            Some(source) => is_driven_by(flat, source, Driver::Port(port)),
            None => false,
        },
        PathArc::Through {
            cell: _,
            pin: _,
            out: _,
        } => false,
    }
}

/// Whether arcs are a route to a net.
pub fn is_route(table: &CellTable, flat: &Flat, arcs: &[PathArc], net: NetId) -> bool
    requires { IsFlat table.now flat.now }
    ensures { (bench : Bench) → IsTrue result ↔ IsRoute (design_of table.now flat.now bench) arcs.now net }
{
    match arcs {
        [] => false,
        [first, others @ ..] => starts_route(table, flat, *first, others, net),
    }
}

/// Whether arcs begin at a port.
pub fn begins_at_port(arcs: &[PathArc], port: PortId) -> bool
    ensures { IsTrue result ↔ BeginsAtPort arcs.now port }
{
    match arcs {
        [] => false,
        [first, ..] => *first == PathArc::Port(port),
    }
}

/// Whether an arc goes through a gate.
fn passes_gate(table: &CellTable, flat: &Flat, arc: PathArc) -> bool
    ensures { (bench : Bench) → result ≡ passes is_gate (design_of table.now flat.now bench) arc }
{
    match arc {
        PathArc::Port(_) => false,
        PathArc::Through {
            cell,
            pin: _,
            out: _,
        } => match row_of(table, flat, cell) {
            Some(row) => is_gate(row.kind),
            None => false,
        },
    }
}

/// Whether an arc goes through a merger or a gate.
fn passes_joining(table: &CellTable, flat: &Flat, arc: PathArc) -> bool
    ensures { (bench : Bench) → result ≡ passes (λ k. not (is_copying k)) (design_of table.now flat.now bench) arc }
{
    match arc {
        PathArc::Port(_) => false,
        PathArc::Through {
            cell,
            pin: _,
            out: _,
        } => match row_of(table, flat, cell) {
            Some(row) => !is_copying(row.kind),
            None => false,
        },
    }
}

/// How many arcs go through gates.
fn count_gates(table: &CellTable, flat: &Flat, arcs: &[PathArc]) -> usize
    ensures { (bench : Bench) → result ≡ count_by (passes is_gate (design_of table.now flat.now bench)) arcs.now }
{
    let mut count = 0;
    for arc in arcs {
        if passes_gate(table, flat, *arc) {
            count += 1;
        }
    }
    count
}

/// How many arcs go through mergers or gates.
pub fn count_joining(table: &CellTable, flat: &Flat, arcs: &[PathArc]) -> usize
    ensures { (bench : Bench) → result ≡ count_by (passes (λ k. not (is_copying k)) (design_of table.now flat.now bench)) arcs.now }
{
    let mut count = 0;
    for arc in arcs {
        if passes_joining(table, flat, *arc) {
            count += 1;
        }
    }
    count
}

/// Whether arcs are a path to a net.
pub fn is_path(table: &CellTable, flat: &Flat, bench: &Bench, arcs: &[PathArc], net: NetId) -> bool
    requires { IsFlat table.now flat.now }
    ensures { IsTrue result ↔ IsPath (design_of table.now flat.now bench.now) arcs.now net }
{
    if !is_route(table, flat, arcs, net) {
        return false;
    }
    let gates = count_gates(table, flat, arcs);
    if gates > 1 {
        return false;
    }
    if gates == 0 {
        return true;
    }
    begins_at_port(arcs, bench.clock)
}

/// Whether arcs are a route to a net from the clock port through JTLs and splitters alone.
pub fn is_clock_route(
    table: &CellTable,
    flat: &Flat,
    bench: &Bench,
    arcs: &[PathArc],
    net: NetId,
) -> bool
    requires { IsFlat table.now flat.now }
    ensures { IsTrue result ↔ IsClockRoute (design_of table.now flat.now bench.now) arcs.now net }
{
    if !is_route(table, flat, arcs, net) {
        return false;
    }
    if count_joining(table, flat, arcs) > 0 {
        return false;
    }
    begins_at_port(arcs, bench.clock)
}

/// Whether a port is a data input.
fn is_data_port(bench: &Bench, port: PortId) -> bool
    ensures { IsTrue result ↔ ((used : PortUse) × IsUsed bench.now port used × (is_data used ≡ true)) }
{
    match bench.uses.get(port) {
        Some(used) => used.is_data(),
        None => false,
    }
}

/// Whether arcs begin at a data input.
pub fn is_from_data(bench: &Bench, arcs: &[PathArc]) -> bool
    ensures { IsTrue result ↔ IsFromData bench.now arcs.now }
{
    match arcs {
        [PathArc::Port(port), ..] => is_data_port(bench, *port),
        _ => false,
    }
}
