//! The walk along the wires: for each net the source of its one timing path and the sums of the delays on it.
ghost use Rattle.std.specs.Prelude.{◌≡◌, ◌<◌, ◌≤◌, length, IfOk};
ghost use Rattle.rsfq_ids.specs.declared.circuit.Reader.TheVariants as reader;
ghost use Rattle.rsfq_ids.specs.Circuit.{IsOf, IsPin};
ghost use Rattle.rsfq_ids.specs.Ready.{IsSetUp};
ghost use Rattle.rsfq_ids.specs.WellFormed.{IsRow};
ghost use Rattle.wire_timing.specs.Wires.{design_of, HasOnlyJtls, AreWires};
ghost use Rattle.wire_timing.specs.Reach.{AreReached, AreSmall, StartsAt, AreStarted, IsPassed, IsSmall, advanced};

use rsfq_ids::circuit::{Bench, Driver, Flat, PortUse};
use rsfq_ids::id::{CellId, Id, NetId, PortId};
use rsfq_ids::list::NoMemory;
use rsfq_ids::table::{CellRow, CellTable};
use std::alloc::Global;

/// The one timing path to a net: the input bit where it begins, how many cells it passes, and the sums of its least and of its greatest
/// delays in fs.
#[derive(Clone, Copy, Debug, PartialEq, Eq)]
pub struct Reach {
    pub source: PortId,
    pub cells: u64,
    pub low: i64,
    pub high: i64,
}

/// The row that a cell is of.
pub fn row_of<'a>(table: &'a CellTable, flat: &Flat, bench: &Bench, cell: CellId) -> &'a CellRow
    requires set_up { IsSetUp (design_of table.now flat.now bench.now) }
    requires cell { cell < length flat.now.cells }
    ensures { IsOf (design_of table.now flat.now bench.now) cell result.now }
{
    let row = flat.cells.as_slice()[cell.index()].row;
    &table.rows.as_slice()[row as usize]
}

/// What is kept of a net that an input bit drives, and nothing of any other.
fn start_at(bench: &Bench, driver: Driver) -> Option<Reach>
    ensures { StartsAt bench.now driver result }
{
    match driver {
        Driver::Port(source) => match bench.uses.get(source) {
            Some(PortUse::Arrival { low, high }) => Some(Reach {
                source,
                cells: 0,
                low: *low,
                high: *high,
            }),
            _ => None,
        },
        Driver::Out(_, _) => None,
    }
}

/// What is kept of each net before any cell is passed.
fn start_nets(alloc: Global, flat: &Flat, bench: &Bench) -> Result<Vec<Option<Reach>>, NoMemory>
    ensures { IfOk result (λ reached. AreStarted flat.now bench.now reached.items) }
{
    let mut reached = Vec::new(alloc);
    for driver in flat.nets.as_slice() {
        reached.push(start_at(bench, *driver))?;
    }
    Ok(reached)
}

/// The net that a JTL reads.
pub fn net_read(table: &CellTable, flat: &Flat, bench: &Bench, cell: CellId) -> NetId
    requires set_up { IsSetUp (design_of table.now flat.now bench.now) }
    requires jtls { HasOnlyJtls (design_of table.now flat.now bench.now) }
    requires cell { cell < length flat.now.cells }
    ensures pin { IsPin flat.now cell (reader.Pin cell 0) result }
    ensures below { result < length flat.now.nets }
{
    flat.pins.as_slice()[cell.index()].net
}

/// What is kept behind a JTL, from what is kept before it.
fn pass_cell(before: Reach, row: &CellRow) -> Reach
    requires small { IsSmall 100000 before }
    requires row { IsRow row.now }
    ensures { result ≡ advanced row.now before }
{
    Reach {
        source: before.source,
        cells: before.cells + 1,
        low: before.low + row.low,
        high: before.high + row.high,
    }
}

/// What is kept behind a JTL, from what is kept of the net that it reads.
fn reach_behind(
    table: &CellTable,
    flat: &Flat,
    bench: &Bench,
    reached: &[Option<Reach>],
    cell: CellId,
) -> Option<Reach>
    requires set_up { IsSetUp (design_of table.now flat.now bench.now) }
    requires jtls { HasOnlyJtls (design_of table.now flat.now bench.now) }
    requires cell { cell < length flat.now.cells }
    requires count { length reached.now ≡ length flat.now.nets }
    requires small { AreSmall 100000 reached.now }
    ensures { IsPassed (design_of table.now flat.now bench.now) cell reached.now result }
{
    let row = row_of(table, flat, bench, cell);
    let read = net_read(table, flat, bench, cell);
    match reached[read.index()] {
        Some(before) => Some(pass_cell(before, row)),
        None => None,
    }
}

/// The path to each net that is read. Linear in the circuit.
pub fn reach_nets(
    alloc: Global,
    table: &CellTable,
    flat: &Flat,
    bench: &Bench,
    order: &[CellId],
) -> Result<Vec<Option<Reach>>, NoMemory>
    requires { AreWires (design_of table.now flat.now bench.now) order.now }
    ensures { IfOk result (λ reached. AreReached (design_of table.now flat.now bench.now) reached.items) }
{
    let mut reached = start_nets(alloc, flat, bench)?;
    let inputs = flat.nets.len() - flat.cells.len();
    for cell in order {
        let behind = reach_behind(table, flat, bench, &reached, *cell);
        reached[inputs + cell.index()] = behind;
    }
    Ok(reached)
}
