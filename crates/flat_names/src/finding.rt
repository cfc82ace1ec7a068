//! The printed name of a place, found by its number.

ghost use Rattle.std.specs.Prelude.{◌≡◌, ◌+◌, ◌<◌, ◌≤◌, length, sum_by, IfOk, MatchOption, MatchResult};
ghost use Rattle.std.specs.Option.{option_copied};
ghost use Rattle.bind_forms.specs.Bits.{width_of};
ghost use Rattle.flat_places.specs.Hierarchy.{instances_of, bits_of, bit_count, IsDeeper};
ghost use Rattle.flat_names.specs.Measured.{IsMeasured};
ghost use Rattle.flat_names.specs.Found.{IsInWire, size_bits, IsInInstance, IsPlaceNamed};
ghost use Rattle.flat_names.specs.Begins.{AreBegins, AreBegun};

use crate::begins::{Begins, last_begin};
use crate::measured::MeasuredSource;
use crate::names::{bit_name, longer_path};
use bind_forms::{BoundKind, BoundWire};
use rsfq_ids::list::NoMemory;
use rsfq_ids::name::Name;
use std::alloc::Global;

/// A wire by its place in a list, and a bit of it.
#[derive(Clone, Copy, Debug)]
struct Found {
    at: usize,
    rest: u64,
}

/// An instance by its place in a list, the module that it is of, and the number of a place inside it.
#[derive(Clone, Copy, Debug)]
struct Inside {
    at: usize,
    inner: u32,
    rest: u64,
}

/// The wire that the bit of a number is of; or the number less all bits.
fn find_wire(wires: &[BoundWire], begins: &[u64], number: u64) -> Result<Found, u64>
    requires begins { AreBegins (λ wire. width_of wire.range) wires.now begins.now }
    requires few { number ≤ 2000000 }
    ensures { MatchResult result (IsInWire wires.now number) (λ rest. number ≡ bits_of wires.now + rest) }
{
    let at = last_begin(begins, number);
    let rest = number - begins[at];
    if at < wires.len() {
        Ok(Found { at, rest })
    } else {
        Err(rest)
    }
}

/// The instance of a module that the place of a number, less the bits of the own wires, lies in, if it lies in one.
fn find_instance(source: MeasuredSource, at: u32, begins: &[u64], number: u64) -> Option<Inside>
    requires there { at < length source.bound.now.modules }
    requires begins { AreBegins (size_bits source.sizes.now) (instances_of source.bound.now at) begins.now }
    requires few { number ≤ 2000000 }
    ensures { MatchOption result (sum_by (size_bits source.entry.sizes.now) (instances_of source.entry.bound.now at) ≤ number)
        (IsInInstance source.entry.sizes.now (instances_of source.entry.bound.now at) number) }
{
    let owner = &source.bound.modules.as_slice()[at as usize];
    let instances = owner.instances.as_slice();
    let place = last_begin(begins, number);
    let rest = number - begins[place];
    if place == instances.len() {
        return None;
    }
    let instance = &instances[place];
    match instance.kind {
        BoundKind::Module(inner) => Some(Inside {
            at: place,
            inner,
            rest,
        }),
        BoundKind::Cell(_) => unreachable!(),
    }
}

/// The printed name of the place of a number in a module that a path leads to.
///
/// Takes as many steps as there are levels, each with two searches by halving.
pub fn place_name(
    alloc: Global,
    source: MeasuredSource,
    begins: &[Begins],
    levels: u32,
    at: u32,
    path: Option<&str>,
    number: u64,
) -> Result<Name, NoMemory>
    requires source { IsMeasured source }
    requires begins { AreBegun source.sizes.now source.bound.now.modules begins.now }
    requires there { at < length source.bound.now.modules }
    requires levels { levels ≤ 64 }
    requires deep { ¬ IsDeeper source.bound.now levels at }
    requires few { bit_count source.bound.now levels at ≤ 2000000 }
    requires number { number < bit_count source.bound.now levels at }
    ensures { IfOk result (IsPlaceNamed source.entry.bound.now levels at (option_copied path.entry) number) }
{
    let owner = &source.bound.modules.as_slice()[at as usize];
    let begin = &begins[at as usize];
    let rest = match find_wire(owner.wires.as_slice(), begin.wires.as_slice(), number) {
        Ok(found) => {
            let wire = &owner.wires.as_slice()[found.at];
            let own = bit_name(alloc, wire.name.as_str(), wire.range, found.rest as u32)?;
            return longer_path(alloc, path, own.as_str());
        }
        Err(rest) => rest,
    };
    let Some(found) = find_instance(source, at, begin.instances.as_slice(), rest) else {
        unreachable!()
    };
    let instance = &owner.instances.as_slice()[found.at];
    let path = longer_path(alloc, path, instance.name.as_str())?;
    place_name(
        alloc,
        source,
        begins,
        levels - 1,
        found.inner,
        Some(path.as_str()),
        found.rest,
    )
}
