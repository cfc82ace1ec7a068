//! An order of the cells, each after the cell that it reads from.

ghost use Rattle.std.specs.Prelude.{◌≡◌, ◌+◌, ◌-◌, ◌<◌, ◌≤◌, ◌^◌, false, replicate, length, slice_get, slice_index_or, Some, None, IfOk, IfSome, IfNone, OnOk};
ghost use Rattle.rsfq_ids.specs.WellFormed.{IsFlat};
ghost use Rattle.rsfq_ids.specs.Order.{IsOrder};
ghost use Rattle.flat_form.specs.Table.{jtl_table};
ghost use Rattle.flat_form.specs.Form.{HasNoRing};
ghost use Rattle.flat_form.specs.Walking.{AreReaders, first_output, IsMarked, reach_seen, reach_order, IsWalk, IsServed, AreInputsServed, AreCellsServed, Grows, Extends, Comes, IsDone};

use rsfq_ids::circuit::{Flat, Reader};
use rsfq_ids::id::{CellId, Id, NetId};
use rsfq_ids::list::{List, NoMemory};
use std::alloc::Global;

/// Goes on to the cell that reads a net, if it was not seen before.
fn reach(by: Option<Reader>, seen: &mut [bool], order: &mut List<CellId>) -> Result<(), NoMemory>
    requires { IsMarked (length seen.old) by }
    ensures seen { OnOk result (seen.new ≡ reach_seen by seen.old) }
    ensures order { OnOk result (order.new ≡ reach_order by seen.old order.old) }
{
    let Some(reader) = by else {
        return Ok(());
    };
    if let Reader::Pin(cell, _) = reader {
        if !seen[cell.index()] {
            seen[cell.index()] = true;
            order.push(cell)?;
        }
    }
    Ok(())
}

/// Goes on from a net that an input or a cell of the order drives.
fn follow(
    flat: &Flat,
    readers: &[Option<Reader>],
    net: NetId,
    seen: &mut [bool],
    order: &mut List<CellId>,
) -> Result<(), NoMemory>
    requires flat { IsFlat jtl_table flat.now }
    requires readers { AreReaders flat.now (length flat.now.pins) readers.now }
    requires walk { IsWalk flat.now seen.old order.old }
    requires net { net < length flat.now.nets }
    requires comes { Comes flat.now order.old net }
    ensures walk { OnOk result (IsWalk flat.now seen.new order.new) }
    ensures served { OnOk result (IsServed flat.now seen.new net) }
    ensures grows { OnOk result (Grows seen.old seen.new) }
    ensures extends { OnOk result (Extends order.old order.new) }
{
    let _ = flat;
    reach(readers[net.index()], seen, order)
}

/// How many nets the inputs drive: the first net that a cell drives.
fn first_output(flat: &Flat) -> usize
    requires { IsFlat jtl_table flat.now }
    ensures first { result ≡ first_output flat.now }
    ensures count { result + length flat.now.cells ≡ length flat.now.nets }
    ensures small { length flat.now.nets < 2 ^ 32 }
{
    flat.nets.len() - flat.cells.len()
}

/// Goes on from each input.
fn walk_inputs(
    flat: &Flat,
    readers: &[Option<Reader>],
    seen: &mut [bool],
    order: &mut List<CellId>,
) -> Result<(), NoMemory>
    requires flat { IsFlat jtl_table flat.now }
    requires readers { AreReaders flat.now (length flat.now.pins) readers.now }
    requires walk { IsWalk flat.now seen.old order.old }
    ensures walk { OnOk result (IsWalk flat.now seen.new order.new) }
    ensures served { OnOk result (AreInputsServed flat.now seen.new (first_output flat.now)) }
{
    for net in 0..first_output(flat) {
        follow(flat, readers, NetId::of(net as u32), seen, order)?;
    }
    Ok(())
}

/// The net that a JTL drives.
fn net_behind(flat: &Flat, cell: CellId) -> NetId
    requires flat { IsFlat jtl_table flat.now }
    requires cell { cell < length flat.now.cells }
    ensures { result ≡ first_output flat.now + cell }
{
    NetId::of((first_output(flat) + cell.index()) as u32)
}

/// Goes on from the cell at a place of the order.
fn follow_cell(
    flat: &Flat,
    readers: &[Option<Reader>],
    place: usize,
    seen: &mut [bool],
    order: &mut List<CellId>,
) -> Result<(), NoMemory>
    requires flat { IsFlat jtl_table flat.now }
    requires readers { AreReaders flat.now (length flat.now.pins) readers.now }
    requires walk { IsWalk flat.now seen.old order.old }
    requires place { place < length order.old }
    requires cells { AreCellsServed flat.now seen.old order.old place }
    ensures walk { OnOk result (IsWalk flat.now seen.new order.new) }
    ensures cells { OnOk result (AreCellsServed flat.now seen.new order.new (place + 1)) }
    ensures grows { OnOk result (Grows seen.old seen.new) }
    ensures extends { OnOk result (Extends order.old order.new) }
{
    let cell = order.as_slice()[place];
    follow(flat, readers, net_behind(flat, cell), seen, order)
}

/// Goes on from each cell of the order, also those that are put behind it on the way.
fn walk_cells(
    flat: &Flat,
    readers: &[Option<Reader>],
    seen: &mut [bool],
    order: &mut List<CellId>,
) -> Result<(), NoMemory>
    requires flat { IsFlat jtl_table flat.now }
    requires readers { AreReaders flat.now (length flat.now.pins) readers.now }
    requires walk { IsWalk flat.now seen.old order.old }
    requires inputs { AreInputsServed flat.now seen.old (first_output flat.now) }
    ensures done { OnOk result (IsDone flat.now seen.new order.new) }
{
    let mut place = 0;
    'along: while place < order.len() {
        follow_cell(flat, readers, place, seen, order)?;
        place += 1;
    }
    Ok(())
}

/// Goes along all wires from their inputs.
fn walk(
    flat: &Flat,
    readers: &[Option<Reader>],
    seen: &mut [bool],
    order: &mut List<CellId>,
) -> Result<(), NoMemory>
    requires flat { IsFlat jtl_table flat.now }
    requires readers { AreReaders flat.now (length flat.now.pins) readers.now }
    requires walk { IsWalk flat.now seen.old order.old }
    ensures done { OnOk result (IsDone flat.now seen.new order.new) }
{
    walk_inputs(flat, readers, seen, order)?;
    walk_cells(flat, readers, seen, order)
}

fn no_marks(alloc: Global, count: usize) -> Result<Vec<bool>, NoMemory>
    ensures { IfOk result (λ marks. marks.items ≡ replicate count false) }
{
    let marks = vec![in alloc; false; count]?;
    Ok(marks)
}

/// The cells in an order in which each stands after the cell that it reads from. `None` exactly where JTLs form a ring.
pub(crate) fn find_order(
    alloc: Global,
    flat: &Flat,
    readers: &[Option<Reader>],
) -> Result<Option<List<CellId>>, NoMemory>
    requires flat { IsFlat jtl_table flat.now }
    requires readers { AreReaders flat.now (length flat.now.pins) readers.now }
    ensures ordered { IfOk result (λ found. IfSome found (IsOrder flat.now)) }
    ensures ring { IfOk result (λ found. IfNone found (¬ HasNoRing flat.now)) }
{
    let mut seen = no_marks(alloc, flat.cells.len())?;
    let mut order = List::new(alloc);
    walk(flat, readers, seen.as_mut_slice(), &mut order)?;
    if order.len() < flat.cells.len() {
        return Ok(None);
    }
    Ok(Some(order))
}
