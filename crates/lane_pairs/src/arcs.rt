//! The intervals of the arcs of a path, and what two paths have in common.
ghost use Rattle.std.specs.Prelude.{◌≡◌, ℤ, ◌<◌, List, length, IfOk};
ghost use Rattle.std.specs.List.{AllZip};
ghost use Rattle.rsfq_ids.specs.declared.circuit.PortUse.{PortUse};
ghost use Rattle.rsfq_ids.specs.declared.table.CellRow.{CellRow};
ghost use Rattle.rsfq_ids.specs.Bench.{IsUsed};
ghost use Rattle.rsfq_ids.specs.Circuit.{IsOf};
ghost use Rattle.rsfq_ids.specs.Path.{IsDelay};
ghost use Rattle.rsfq_ids.specs.Ready.{IsSetUp};
ghost use Rattle.rsfq_ids.specs.Run.{IsPortDelay};
ghost use Rattle.rsfq_ids.specs.Design.{design_of};
ghost use Rattle.lane_pairs.specs.Arcs.{HasInterval, HaveIntervals, IsCommon, IsPortInterval};

use pulse_pairs::Interval;
use rsfq_ids::circuit::{Bench, Flat, PortUse};
use rsfq_ids::id::{CellId, Id, PortId};
use rsfq_ids::list::NoMemory;
use rsfq_ids::offence::PathArc;
use rsfq_ids::table::{CellRow, CellTable};
use std::alloc::Global;

/// The row that a cell is of.
fn row_of<'a>(table: &'a CellTable, flat: &Flat, bench: &Bench, cell: CellId) -> &'a CellRow
    requires set_up { IsSetUp (design_of table.now flat.now bench.now) }
    requires cell { cell < length flat.now.cells }
    ensures { IsOf (design_of table.now flat.now bench.now) cell result.now }
{
    let row = flat.cells.as_slice()[cell.index()].row;
    &table.rows.as_slice()[row as usize]
}

/// The delays of a use, behind a tick.
fn port_interval(bench: &Bench, used: &PortUse) -> Interval
    requires { (delay : ℤ) × IsPortDelay bench.now used.now delay }
    ensures { IsPortInterval bench.now used.now result }
{
    match used {
        PortUse::Clock => Interval {
            low: 0,
            high: bench.jitter,
        },
        PortUse::Arrival { low, high } => Interval {
            low: *low,
            high: *high,
        },
        PortUse::Strobed(_) => unreachable!(),
    }
}

/// The use of a port.
fn use_of(bench: &Bench, port: PortId) -> &PortUse
    requires { (used : PortUse) × IsUsed bench.now port used }
    ensures { IsUsed bench.now port result.now }
{
    match bench.uses.get(port) {
        Some(used) => used,
        None => unreachable!(),
    }
}

/// The least and the greatest delay of an arc.
fn interval_of(table: &CellTable, flat: &Flat, bench: &Bench, arc: PathArc) -> Interval
    requires set_up { IsSetUp (design_of table.now flat.now bench.now) }
    requires delay { (delay : ℤ) × IsDelay (design_of table.now flat.now bench.now) arc delay }
    ensures { HasInterval (design_of table.now flat.now bench.now) arc result }
{
    match arc {
        PathArc::Port(port) => port_interval(bench, use_of(bench, port)),
        PathArc::Through {
            cell,
            pin: _,
            out: _,
        } => {
            let row = row_of(table, flat, bench, cell);
            Interval {
                low: row.low,
                high: row.high,
            }
        }
    }
}

/// The same of all arcs of a path.
pub fn intervals_of(
    alloc: Global,
    table: &CellTable,
    flat: &Flat,
    bench: &Bench,
    arcs: &[PathArc],
) -> Result<Vec<Interval>, NoMemory>
    requires set_up { IsSetUp (design_of table.now flat.now bench.now) }
    requires delays { (delays : List ℤ) × AllZip (IsDelay (design_of table.now flat.now bench.now)) arcs.now delays }
    ensures { IfOk result (λ intervals. HaveIntervals (design_of table.now flat.now bench.now) arcs.now intervals.items) }
{
    let mut intervals = Vec::new(alloc);
    for arc in arcs {
        intervals.push(interval_of(table, flat, bench, *arc))?;
    }
    Ok(intervals)
}

/// How many first arcs two paths have in common.
pub fn count_common(x: &[PathArc], y: &[PathArc]) -> usize
    ensures { IsCommon result x.now y.now }
{
    let mut shared = 0;
    while shared < x.len() && shared < y.len() {
        if x[shared] != y[shared] {
            return shared;
        }
        shared += 1;
    }
    shared
}
