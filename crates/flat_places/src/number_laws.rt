//! What is found over plain numbers, said of the places of a bound source within 64 levels, as laws. Links and starts are those that are written
//! out for the whole design, and a net's number is its place in the order of nets.

ghost use Rattle.std.specs.Prelude.{◌≡◌, ℕ, List, Option, Some, slice_get};
ghost use Rattle.flat_aliases.specs.Drives as number;
ghost use Rattle.rsfq_ids.specs.declared.circuit.Driver.{Driver};
ghost use Rattle.rsfq_ids.specs.declared.circuit.Flat.{Flat};
ghost use Rattle.rsfq_ids.specs.declared.circuit.Reader.{Reader};
ghost use Rattle.rsfq_ids.specs.WellFormed.{drivers_of, readers_of};
ghost use Rattle.bind_forms.specs.WellFormed.{IsBound};
ghost use Rattle.flat_places.specs.Hierarchy.{IsDeeper, bit_count};
ghost use Rattle.flat_places.specs.Drives.{Drives};
ghost use Rattle.flat_places.specs.Places.{Place, places_of};
ghost use Rattle.flat_places.specs.Refusal.{HasOneDriver, IsRing, IsNamedRing, HasNoDriver};
ghost use Rattle.flat_places.specs.Whole.{number_of, whole_piece, IsShapeOf, starts_of, reads_of, AreListed, NumbersFirstTwo, ReadsNet};

use bind_forms::Bound;
use rsfq_ids::table::CellTable;

/// Links and starts name places that there are; a net drives a number exactly where its driver drives the place of that number, and each driver of a place has a net.
pub fn numbers_drive_places(cells: &CellTable, bound: &Bound)
    requires bound { IsBound cells.now bound.now }
    requires deep { ¬ IsDeeper bound.now 64 bound.now.top }
    ensures inside { (flat : Flat) → IsShapeOf bound.now flat →
        number.AreInside (whole_piece cells.now bound.now).links (starts_of flat.ports (whole_piece cells.now bound.now)) (bit_count bound.now 64 bound.now.top) }
    ensures sound { (flat : Flat) → IsShapeOf bound.now flat → (net : ℕ) (from : Driver) → slice_get (drivers_of cells.now flat) net ≡ Some from → (place : ℕ) →
        number.Drives (whole_piece cells.now bound.now).links (starts_of flat.ports (whole_piece cells.now bound.now)) net place → (one : Place) × Drives cells.now bound.now from one × (place ≡ number_of bound.now one) }
    ensures complete { (flat : Flat) → IsShapeOf bound.now flat → (net : ℕ) (from : Driver) → slice_get (drivers_of cells.now flat) net ≡ Some from → (place : Place) → Drives cells.now bound.now from place →
        number.Drives (whole_piece cells.now bound.now).links (starts_of flat.ports (whole_piece cells.now bound.now)) net (number_of bound.now place) }
    ensures nets { (flat : Flat) → IsShapeOf bound.now flat → (from : Driver) (place : Place) → Drives cells.now bound.now from place → (net : ℕ) × (slice_get (drivers_of cells.now flat) net ≡ Some from) }
{
    let _ = cells;
    let _ = bound;
}

/// A number has two nets exactly where its place has two drivers, since each driver has one net; and the first number with two nets, by its first two, is the first place with two drivers, by its first two in the order of nets.
pub fn numbers_tell_two(cells: &CellTable, bound: &Bound)
    requires bound { IsBound cells.now bound.now }
    requires deep { ¬ IsDeeper bound.now 64 bound.now.top }
    ensures once { (flat : Flat) → IsShapeOf bound.now flat → (place : Place) →
        number.HasOneDriver (whole_piece cells.now bound.now).links (starts_of flat.ports (whole_piece cells.now bound.now)) (number_of bound.now place) → HasOneDriver cells.now bound.now place }
    ensures alone { (flat : Flat) → IsShapeOf bound.now flat → (at : ℕ) (place : Place) → slice_get (places_of bound.now) at ≡ Some place → HasOneDriver cells.now bound.now place →
        number.HasOneDriver (whole_piece cells.now bound.now).links (starts_of flat.ports (whole_piece cells.now bound.now)) at }
    ensures distinct { (flat : Flat) (net other : ℕ) (from : Driver) → slice_get (drivers_of cells.now flat) net ≡ Some from → slice_get (drivers_of cells.now flat) other ≡ Some from → net ≡ other }
    ensures two { (flat : Flat) → IsShapeOf bound.now flat → (place first second : ℕ) →
        number.IsFirstTwo (whole_piece cells.now bound.now).links (starts_of flat.ports (whole_piece cells.now bound.now)) place first second → NumbersFirstTwo cells.now bound.now (drivers_of cells.now flat) place first second }
{
    let _ = cells;
    let _ = bound;
}

/// Numbers in a ring are places in a ring; where no numbers stand in a ring, no places do.
pub fn numbers_tell_rings(cells: &CellTable, bound: &Bound)
    requires bound { IsBound cells.now bound.now }
    requires deep { ¬ IsDeeper bound.now 64 bound.now.top }
    ensures ring { (ring : List ℕ) → number.IsNamedRing (whole_piece cells.now bound.now).links ring → (places : List Place) × IsNamedRing bound.now places × AreListed bound.now ring places }
    ensures none { ((ring : List ℕ) → ¬ number.IsRing (whole_piece cells.now bound.now).links ring) → (ring : List Place) → ¬ IsRing bound.now ring }
{
    let _ = cells;
    let _ = bound;
}

/// What drives the number at a reader drives what it reads; where nothing drives that number, or there is none, nothing drives what it reads.
pub fn numbers_tell_readers(cells: &CellTable, bound: &Bound)
    requires bound { IsBound cells.now bound.now }
    requires deep { ¬ IsDeeper bound.now 64 bound.now.top }
    ensures driven { (flat : Flat) → IsShapeOf bound.now flat → (pin place net : ℕ) (by : Reader) → slice_get (readers_of cells.now flat) pin ≡ Some by →
        slice_get (reads_of flat.ports (whole_piece cells.now bound.now)) pin ≡ Some (Some place) → number.Drives (whole_piece cells.now bound.now).links (starts_of flat.ports (whole_piece cells.now bound.now)) net place →
        ReadsNet cells.now bound.now (drivers_of cells.now flat) by net }
    ensures undriven { (flat : Flat) → IsShapeOf bound.now flat → (pin : ℕ) (at : Option ℕ) (by : Reader) → slice_get (readers_of cells.now flat) pin ≡ Some by →
        slice_get (reads_of flat.ports (whole_piece cells.now bound.now)) pin ≡ Some at →
        ((place net : ℕ) → at ≡ Some place → ¬ number.Drives (whole_piece cells.now bound.now).links (starts_of flat.ports (whole_piece cells.now bound.now)) net place) → HasNoDriver cells.now bound.now by }
{
    let _ = cells;
    let _ = bound;
}
