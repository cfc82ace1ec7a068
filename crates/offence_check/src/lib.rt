//! Whether an offence meets the written negation of its rule, so that a printed offence can be held against the circuit again.
#![tactic(auto)]

ghost use Rattle.std.specs.Prelude.{◌↔◌, IsTrue};
ghost use Rattle.rsfq_ids.specs.Offence.{OffenceExists};
ghost use Rattle.rsfq_ids.specs.Ready.{IsSetUp};
ghost use Rattle.rsfq_ids.specs.Design.{design_of};
ghost use Rattle.offence_check.specs.Check.{IsDecided};

mod held;
mod lookup;
mod path;
mod pick;
mod pulses;
mod shape;

use crate::held::{is_ahead, is_window};
use crate::pulses::is_dead;
use crate::shape::{
    is_clock_merged, is_clock_on_data, is_clock_out, is_data_on_clock, is_fanout, is_loop,
};
use net_graph::laws::circuits_are_wired;
use rsfq_ids::circuit::{Bench, Flat};
use rsfq_ids::offence::Offence;
use rsfq_ids::table::CellTable;

/// Whether an offence is of a kind that [`holds`] takes: all but `Unequal` and `Differ`.
pub fn is_decided(offence: &Offence) -> bool
    ensures { IsTrue result ↔ IsDecided offence.now }
{
    match offence {
        Offence::Fanout { .. } => true,
        Offence::Loop { .. } => true,
        Offence::DataOnClock { .. } => true,
        Offence::ClockOnData { .. } => true,
        Offence::ClockMerged { .. } => true,
        Offence::ClockOut { .. } => true,
        Offence::Dead { .. } => true,
        Offence::Window { .. } => true,
        Offence::Ahead { .. } => true,
        Offence::Unequal { .. } => false,
        Offence::Differ { .. } => false,
    }
}

/// Whether an offence meets the negation of its rule. It takes no memory.
///
/// The offence may hold anything: ids of nothing, arcs that do not follow each other, lists of different lengths, any numbers. The
/// kinds `Unequal` and `Differ` are left out, as [`is_decided`] tells.
pub fn holds(offence: &Offence, graph_of: &Flat, cells: &CellTable, bench: &Bench) -> bool
    requires set_up { IsSetUp (design_of cells.now graph_of.now bench.now) }
    requires decided { IsDecided offence.now }
    ensures { IsTrue result ↔ OffenceExists (design_of cells.now graph_of.now bench.now) offence.now }
{
    circuits_are_wired();
    match offence {
        Offence::Fanout { net, first, second } => is_fanout(graph_of, *net, *first, *second),
        Offence::Loop { cells: ring } => is_loop(graph_of, ring.as_slice()),
        Offence::DataOnClock { pin, path } => is_data_on_clock(
            cells,
            graph_of,
            bench,
            *pin,
            path.as_slice(),
        ),
        Offence::ClockOnData { pin, path } => is_clock_on_data(
            cells,
            graph_of,
            bench,
            *pin,
            path.as_slice(),
        ),
        Offence::ClockMerged { pin, path } => is_clock_merged(
            cells,
            graph_of,
            bench,
            *pin,
            path.as_slice(),
        ),
        Offence::ClockOut { pin, path } => is_clock_out(
            cells,
            graph_of,
            bench,
            *pin,
            path.as_slice(),
        ),
        Offence::Dead {
            cell,
            first,
            second,
        } => is_dead(cells, graph_of, bench, *cell, first, second),
        Offence::Window {
            pin,
            pulse,
            against,
        } => is_window(cells, graph_of, bench, *pin, pulse, against),
        Offence::Ahead {
            pin,
            pulse,
            against,
        } => is_ahead(cells, graph_of, bench, *pin, pulse, against),
        Offence::Unequal {
            reader: _,
            first: _,
            second: _,
        } => unreachable!(),
        Offence::Differ {
            output: _,
            word: _,
            netlist: _,
            golden: _,
        } => unreachable!(),
    }
}
