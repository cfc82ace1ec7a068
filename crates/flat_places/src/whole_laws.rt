//! What is written out for a whole bound source, as laws: its places, hops and cells, and the places at both ends of its nets.

ghost use Rattle.std.specs.Prelude.{◌≡◌, map};
ghost use Rattle.rsfq_ids.specs.declared.circuit.Flat.{Flat};
ghost use Rattle.bind_forms.specs.WellFormed.{IsBound};
ghost use Rattle.flat_places.specs.Hierarchy.{IsDeeper, bit_count};
ghost use Rattle.flat_places.specs.Hops.{hops_in};
ghost use Rattle.flat_places.specs.Names.{cell_name};
ghost use Rattle.flat_places.specs.Places.{cells_of};
ghost use Rattle.flat_places.specs.Whole.{number_of, whole_piece, IsShapeOf, starts_of, reads_of, AreStarts, AreReads};

use bind_forms::Bound;
use rsfq_ids::table::CellTable;

/// What is written out for a whole design within 64 levels: as many places as it has wire bits, its hops by the numbers of their places, and its cells.
pub fn whole_is_listed(cells: &CellTable, bound: &Bound)
    requires bound { IsBound cells.now bound.now }
    requires deep { ¬ IsDeeper bound.now 64 bound.now.top }
    ensures places { (whole_piece cells.now bound.now).places ≡ bit_count bound.now 64 bound.now.top }
    ensures links { (whole_piece cells.now bound.now).links ≡ map (λ hop. record { from = number_of bound.now hop.from; to = number_of bound.now hop.to }) (hops_in bound.now 64 bound.now.top) }
    ensures cells { (whole_piece cells.now bound.now).cells ≡ map (λ cell. record { path = cell_name bound.now cell; row = cell.row }) (cells_of bound.now) }
{
    let _ = cells;
    let _ = bound;
}

/// The numbers that are written out for both ends of nets are those of the places of the drivers and of the readers, in their orders.
pub fn ends_are_numbered(cells: &CellTable, bound: &Bound)
    requires bound { IsBound cells.now bound.now }
    requires deep { ¬ IsDeeper bound.now 64 bound.now.top }
    ensures starts { (flat : Flat) → IsShapeOf bound.now flat → AreStarts cells.now bound.now flat (starts_of flat.ports (whole_piece cells.now bound.now)) }
    ensures reads { (flat : Flat) → IsShapeOf bound.now flat → AreReads cells.now bound.now flat (reads_of flat.ports (whole_piece cells.now bound.now)) }
{
    let _ = cells;
    let _ = bound;
}
