//! The size of a module, from those of the modules inside it.

ghost use Rattle.std.specs.Prelude.{◌≡◌, ◌<◌, ◌^◌, ℕ, true, min, map, replicate, length, slice_get, Some, IfOk};
ghost use Rattle.bind_forms.specs.Bits.{width_of};
ghost use Rattle.flat_places.specs.Hierarchy.{bits_of, module_of, HasModules};
ghost use Rattle.flat_places.specs.Rounds.{joined, kind_size, module_size, AreBelow};
ghost use Rattle.bind_forms.specs.declared.bound.BoundModule.{BoundModule};
ghost use Rattle.flat_places.specs.Sizes.{AreSizes};

use bind_forms::{Bound, BoundKind, BoundModule, BoundWire};
use rsfq_ids::list::NoMemory;
use std::alloc::Global;

/// One more cell than a circuit may have.
const MOST_CELLS: u64 = 100_001;

/// One more wire bit than a circuit may have.
const MOST_BITS: u64 = 2_000_001;

/// How many levels of modules a circuit may have.
const LEVELS: u32 = 64;

/// How large what is inside a module is, as deep as so many levels.
#[derive(Clone, Copy, Debug, PartialEq, Eq)]
pub struct Size {
    /// Whether modules lie deeper.
    pub deep: bool,
    /// How many cells there are, or one more than a circuit may have.
    pub cells: u64,
    /// How many wire bits there are, or one more than a circuit may have.
    pub bits: u64,
}

/// Two sizes together.
fn join(one: Size, other: Size) -> Size
    ensures { result ≡ joined one other }
{
    Size {
        deep: one.deep || other.deep,
        cells: one.cells.saturating_add(other.cells).min(MOST_CELLS),
        bits: one.bits.saturating_add(other.bits).min(MOST_BITS),
    }
}

/// How many bits a wire has.
pub fn width(wire: &BoundWire) -> u64
    ensures value { result ≡ width_of wire.now.range }
    ensures small { result < 2 ^ 33 }
{
    match wire.range {
        None => 1,
        Some((left, right)) => {
            let (left, right) = (u64::from(left), u64::from(right));
            left.saturating_sub(right) + right.saturating_sub(left) + 1
        }
    }
}

/// How many bits the wires have, or one more than a circuit may have.
fn count_bits(wires: &[BoundWire]) -> u64
    ensures { result ≡ min (bits_of wires.now) 2000001 }
{
    let mut bits: u64 = 0;
    for wire in wires {
        bits = bits.saturating_add(width(wire)).min(MOST_BITS);
    }
    bits
}

/// What an instance comes to.
fn size_of_kind(kind: BoundKind, below: &[Size]) -> Size
    requires { (inner : ℕ) → module_of kind ≡ Some inner → inner < length below.now }
    ensures { result ≡ kind_size below.now kind }
{
    match kind {
        BoundKind::Module(at) => below[at as usize],
        BoundKind::Cell(_) => Size {
            deep: false,
            cells: 1,
            bits: 0,
        },
    }
}

/// The size of a module.
fn size_of_module(owner: &BoundModule, below: &[Size]) -> Size
    requires { AreBelow (length below.now) owner.now.instances }
    ensures { result ≡ module_size below.now owner.now }
{
    let mut size = Size {
        deep: false,
        cells: 0,
        bits: count_bits(owner.wires.as_slice()),
    };
    for instance in owner.instances.as_slice() {
        size = join(size, size_of_kind(instance.kind, below));
    }
    size
}

/// The sizes of all modules, one level deeper.
fn sizes_of_modules(
    alloc: Global,
    modules: &[BoundModule],
    below: &[Size],
) -> Result<Vec<Size>, NoMemory>
    requires { (at : ℕ) (owner : BoundModule) → slice_get modules.now at ≡ Some owner → AreBelow (length below.now) owner.instances }
    ensures { IfOk result (λ sizes. sizes.items ≡ map (module_size below.now) modules.now) }
{
    let mut sizes = Vec::new(alloc);
    for owner in modules {
        sizes.push(size_of_module(owner, below))?;
    }
    Ok(sizes)
}

/// The sizes of all modules as deep as no level: what is inside is not counted, and it lies deeper.
fn sizes_of_nothing(alloc: Global, count: usize) -> Result<Vec<Size>, NoMemory>
    ensures { IfOk result (λ sizes. sizes.items ≡ replicate count (record { deep = true; cells = 0; bits = 0 })) }
{
    let size = Size {
        deep: true,
        cells: 0,
        bits: 0,
    };
    let sizes = vec![in alloc; size; count]?;
    Ok(sizes)
}

/// The sizes of all modules, as deep as 64 levels.
pub fn sizes_of(alloc: Global, bound: &Bound) -> Result<Vec<Size>, NoMemory>
    requires { HasModules bound.now }
    ensures { IfOk result (λ sizes. AreSizes bound.now 64 sizes.items) }
{
    let modules = bound.modules.as_slice();
    let mut sizes = sizes_of_nothing(alloc, modules.len())?;
    for _level in 0..LEVELS {
        sizes = sizes_of_modules(alloc, modules, sizes.as_slice())?;
    }
    Ok(sizes)
}
