//! A bound source with the sizes of its modules.

use bind_forms::Bound;
use flat_places::Size;
use rsfq_ids::table::CellTable;

/// A bound source over a cell table, with the sizes of its modules.
#[derive(Clone, Copy, Debug)]
pub struct MeasuredSource<'a> {
    pub bound: &'a Bound,
    pub cells: &'a CellTable,
    /// The sizes of the modules, in their order.
    pub sizes: &'a [Size],
}
