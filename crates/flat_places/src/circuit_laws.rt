//! That a bound source has at most one circuit, and that one that is refused has none, as laws.

ghost use Rattle.std.specs.Prelude.{◌≡◌, ◌≢◌, List};
ghost use Rattle.rsfq_ids.specs.declared.circuit.Driver.{Driver};
ghost use Rattle.rsfq_ids.specs.declared.circuit.Flat.{Flat};
ghost use Rattle.rsfq_ids.specs.declared.circuit.Reader.{Reader};
ghost use Rattle.rsfq_ids.specs.WellFormed.{drivers_of, readers_of};
ghost use Rattle.bind_forms.specs.WellFormed.{IsBound};
ghost use Rattle.flat_places.specs.declared.limits.SizeFault.{SizeFault};
ghost use Rattle.flat_places.specs.declared.limits.SizeFault.TheVariants.{Memory};
ghost use Rattle.flat_places.specs.Sizes.{IsWithinLimits, PassesLimit};
ghost use Rattle.flat_places.specs.Circuit.{IsCircuitOf};
ghost use Rattle.flat_places.specs.Places.{Place};
ghost use Rattle.flat_places.specs.Refusal.{HasOneDriver, IsFirstTwo, IsRing, IsNamedRing, IsFirstUndriven};
ghost use Rattle.flat_places.specs.Whole.{IsShapeOf};

use bind_forms::Bound;
use rsfq_ids::table::CellTable;

/// A bound source in which no place has two drivers has at most one circuit.
pub fn circuits_are_one(cells: &CellTable, bound: &Bound)
    requires { IsBound cells.now bound.now }
    ensures { ((place : Place) → HasOneDriver cells.now bound.now place) → (one other : Flat) → IsCircuitOf cells.now bound.now one → IsCircuitOf cells.now bound.now other → one ≡ other }
{
    let _ = cells;
    let _ = bound;
}

/// Each cause of a refusal but want of memory stands against what a circuit needs: a limit that is passed against the limits; a place's first two
/// drivers, which are two, against one driver; a ring that is named against there being none; and the first reader that nothing drives against each circuit.
pub fn refused_have_none(cells: &CellTable, bound: &Bound)
    ensures limit { (fault : SizeFault) → fault ≢ Memory → PassesLimit bound.now fault → ¬ IsWithinLimits bound.now }
    ensures two { (flat : Flat) (place : Place) (one other : Driver) → IsFirstTwo cells.now bound.now (drivers_of cells.now flat) place one other → ¬ HasOneDriver cells.now bound.now place }
    ensures ring { (ring : List Place) → IsNamedRing bound.now ring → IsRing bound.now ring }
    ensures undriven { (shape : Flat) → IsShapeOf bound.now shape → (by : Reader) → IsFirstUndriven cells.now bound.now (readers_of cells.now shape) by → (flat : Flat) → ¬ IsCircuitOf cells.now bound.now flat }
{
    let _ = cells;
    let _ = bound;
}
