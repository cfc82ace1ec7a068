//! What the lists of places and cells come to, as laws.

ghost use Rattle.std.specs.Prelude.{◌≡◌, ℕ, length, slice_get, Some};
ghost use Rattle.flat_places.specs.Hierarchy.{IsDeeper, cell_count, bit_count};
ghost use Rattle.flat_places.specs.Drives.{Follows, IsPlaceIn};
ghost use Rattle.flat_places.specs.Hops.{Hop, hops_in};
ghost use Rattle.flat_places.specs.Places.{Place, places_in, cells_in};
ghost use Rattle.flat_places.specs.Numbers.{number_in};

use bind_forms::Bound;

/// There are as many places and cells inside a module as are counted.
pub fn places_are_counted(bound: &Bound)
    ensures places { (levels at : ℕ) → length (places_in bound.now levels at) ≡ bit_count bound.now levels at }
    ensures cells { (levels at : ℕ) → length (cells_in bound.now levels at) ≡ cell_count bound.now levels at }
{
    let _ = bound;
}

/// Each place stands once in the list, at the number that its path, wire and bit give.
pub fn places_are_numbered(bound: &Bound)
    ensures { (levels at k : ℕ) (place : Place) → slice_get (places_in bound.now levels at) k ≡ Some place → k ≡ number_in bound.now levels at place.path place.wire place.bit }
{
    let _ = bound;
}

/// The written-out pairs of places are those of which one follows the other, where modules lie no deeper than so many levels.
pub fn hops_are_followed(bound: &Bound)
    ensures sound { (levels at k : ℕ) (hop : Hop) → slice_get (hops_in bound.now levels at) k ≡ Some hop → Follows bound.now at hop.from hop.to }
    ensures complete { (levels at : ℕ) (before after : Place) → ¬ IsDeeper bound.now levels at → Follows bound.now at before after →
        (k : ℕ) × (slice_get (hops_in bound.now levels at) k ≡ Some (record { from = before; to = after })) }
{
    let _ = bound;
}

/// The list of places has the places that there are and no others, where modules lie no deeper than so many levels.
pub fn places_are_listed(bound: &Bound)
    ensures sound { (levels at k : ℕ) (place : Place) → slice_get (places_in bound.now levels at) k ≡ Some place → IsPlaceIn bound.now at place }
    ensures complete { (levels at : ℕ) (place : Place) → ¬ IsDeeper bound.now levels at → IsPlaceIn bound.now at place →
        slice_get (places_in bound.now levels at) (number_in bound.now levels at place.path place.wire place.bit) ≡ Some place }
{
    let _ = bound;
}
