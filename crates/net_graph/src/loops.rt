//! Loops of cells.

ghost use Rattle.std.specs.Prelude.{◌≡◌, ◌<◌, length, slice_get, Some, IfOk, IfSome, IfNone};
ghost use Rattle.rsfq_ids.specs.WellFormed.{IsFlat};
ghost use Rattle.net_graph.specs.Graph.{HasNoLoop, IsNamedLoop};
ghost use Rattle.net_graph.specs.Loops.{IsLinkOf, IsNoLink, AreLinks};

use crate::ends::{cell_driving, cell_of};
use flat_aliases::{Link, find_ring};
use rsfq_ids::circuit::{Flat, Pin};
use rsfq_ids::id::{CellId, Id, PinId};
use rsfq_ids::list::{List, NoMemory};
use rsfq_ids::table::CellTable;
use std::alloc::Global;

/// The link from a cell to the one that reads from it by this pin, if two cells do.
fn link_of(flat: &Flat, table: &CellTable, place: usize, pin: Pin) -> Option<Link>
    requires flat { IsFlat table.now flat.now }
    requires pin { slice_get flat.now.pins place ≡ Some pin }
    ensures some { IfSome result (IsLinkOf flat.now pin) }
    ensures none { IfNone result (IsNoLink flat.now pin) }
{
    let _ = table;
    let _ = place;
    let driver = flat.nets.as_slice()[pin.net.index()];
    match (cell_driving(driver), cell_of(pin.reader)) {
        (Some(before), Some(cell)) => Some(Link {
            from: before.index() as u32,
            to: cell.index() as u32,
        }),
        _ => None,
    }
}

/// The links from each cell to those that read from it.
fn list_links(alloc: Global, flat: &Flat, table: &CellTable) -> Result<Vec<Link>, NoMemory>
    requires { IsFlat table.now flat.now }
    ensures { IfOk result (λ links. AreLinks flat.now (length flat.now.pins) links.items) }
{
    let mut links = Vec::new(alloc);
    for (place, pin) in flat.pins.as_slice().iter().enumerate() {
        if let Some(link) = link_of(flat, table, place, *pin) {
            links.push(link)?;
        }
    }
    Ok(links)
}

/// The cells of these numbers.
fn name_cells(alloc: Global, numbers: &[u32]) -> Result<List<CellId>, NoMemory>
    ensures { IfOk result (λ cells. cells ≡ numbers.now) }
{
    let mut cells = List::new(alloc);
    for number in numbers {
        cells.push(CellId::of(*number))?;
    }
    Ok(cells)
}

/// A loop of cells, from its least cell on, if there is one. Linear in the pins.
pub(crate) fn find_loop(
    alloc: Global,
    flat: &Flat,
    table: &CellTable,
) -> Result<Option<List<CellId>>, NoMemory>
    requires { IsFlat table.now flat.now }
    ensures none { IfOk result (λ found. IfNone found (HasNoLoop flat.now)) }
    ensures some { IfOk result (λ found. IfSome found (IsNamedLoop flat.now)) }
{
    let links = list_links(alloc, flat, table)?;
    let found = find_ring(alloc, links.as_slice(), flat.cells.len())?;
    match found {
        None => Ok(None),
        Some(ring) => {
            let cells = name_cells(alloc, ring.as_slice())?;
            Ok(Some(cells))
        }
    }
}
