//! Where the bits of the wires and of the instances of modules begin.

ghost use Rattle.std.specs.Prelude.{◌≡◌, ◌+◌, ◌<◌, ◌≤◌, ℕ, length, slice_index, slice_index_or, IfOk};
ghost use Rattle.bind_forms.specs.Bits.{width_of};
ghost use Rattle.flat_places.specs.Hierarchy.{module_of, bits_by};
ghost use Rattle.flat_places.specs.Rounds.{AreBelow, empty_size};
ghost use Rattle.flat_names.specs.Measured.{IsMeasured};
ghost use Rattle.flat_names.specs.Found.{size_bits};
ghost use Rattle.flat_names.specs.Begins.{AreBegins, IsBegun, AreBegun};

use crate::measured::MeasuredSource;
use bind_forms::{BoundInstance, BoundKind, BoundModule, BoundWire};
use flat_places::{Size, width};
use rsfq_ids::list::NoMemory;
use std::alloc::Global;

/// One more wire bit than a circuit may have.
const MOST_BITS: u64 = 2_000_001;

/// Where the bits of each wire of a module begin and where those of the last one end, and the same of its instances. No count goes further than one past its limit.
#[derive(Drop)]
pub struct Begins {
    pub wires: Vec<u64>,
    pub instances: Vec<u64>,
}

/// Where the bits of each wire begin, and where they end.
fn wire_begins(alloc: Global, wires: &[BoundWire]) -> Result<Vec<u64>, NoMemory>
    ensures { IfOk result (λ begins. AreBegins (λ wire. width_of wire.range) wires.now begins.items) }
{
    let mut begins = Vec::new(alloc);
    let mut next: u64 = 0;
    begins.push(next)?;
    for wire in wires {
        next = next.saturating_add(width(wire)).min(MOST_BITS);
        begins.push(next)?;
    }
    Ok(begins)
}

/// How many wire bits an instance comes to.
fn kind_bits(kind: BoundKind, sizes: &[Size]) -> u64
    requires { (inner : ℕ) → module_of kind ≡ Some inner → inner < length sizes.now }
    ensures { result ≡ bits_by (λ at. (slice_index_or sizes.now at empty_size).bits) kind }
{
    match kind {
        BoundKind::Module(at) => sizes[at as usize].bits,
        BoundKind::Cell(_) => 0,
    }
}

/// Where the bits of each instance begin, and where they end.
fn instance_begins(
    alloc: Global,
    sizes: &[Size],
    instances: &[BoundInstance],
) -> Result<Vec<u64>, NoMemory>
    requires { AreBelow (length sizes.now) instances.now }
    ensures { IfOk result (λ begins. AreBegins (size_bits sizes.now) instances.now begins.items) }
{
    let mut begins = Vec::new(alloc);
    let mut next: u64 = 0;
    begins.push(next)?;
    for instance in instances {
        next = next
            .saturating_add(kind_bits(instance.kind, sizes))
            .min(MOST_BITS);
        begins.push(next)?;
    }
    Ok(begins)
}

/// Where the bits of a module's wires and instances begin.
fn module_begins(alloc: Global, sizes: &[Size], owner: &BoundModule) -> Result<Begins, NoMemory>
    requires { AreBelow (length sizes.now) owner.now.instances }
    ensures { IfOk result (IsBegun sizes.now owner.now) }
{
    let wires = wire_begins(alloc, owner.wires.as_slice())?;
    let instances = instance_begins(alloc, sizes, owner.instances.as_slice())?;
    Ok(Begins { wires, instances })
}

/// Where the bits of the wires and instances of each module begin.
pub fn begins_of(alloc: Global, source: MeasuredSource) -> Result<Vec<Begins>, NoMemory>
    requires { IsMeasured source }
    ensures { IfOk result (λ begins. AreBegun source.entry.sizes.now source.entry.bound.now.modules begins.items) }
{
    let mut begins = Vec::new(alloc);
    for owner in source.bound.modules.as_slice() {
        begins.push(module_begins(alloc, source.sizes, owner)?)?;
    }
    Ok(begins)
}

/// The place of a begin that is not above a number, where the next one is above it, found by halving.
pub fn last_begin(begins: &[u64], number: u64) -> usize
    requires some { 0 < length begins.now }
    requires first { slice_index begins.now 0 ≤ number }
    ensures there { result < length begins.now }
    ensures not_above { slice_index begins.now result ≤ number }
    ensures next_above { result + 1 < length begins.now → number < slice_index begins.now (result + 1) }
{
    let mut low = 0;
    let mut high = begins.len();
    while high - low > 1 {
        let middle = low + (high - low) / 2;
        if begins[middle] <= number {
            low = middle;
        } else {
            high = middle;
        }
    }
    low
}
