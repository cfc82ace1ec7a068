//! Chains of modules, with the numbers of levels, cells and wire bits that they come to.

ghost use Rattle.std.specs.Prelude.{IsTrue, ◌≡◌, ◌<◌, ℕ, length, slice_get, Some};
ghost use Rattle.flat_places.specs.Hierarchy.{HasModules, module_of};
ghost use Rattle.flat_places.specs.Rounds.{AreBelow};
ghost use Rattle.bind_forms.specs.declared.bound.BoundModule.{BoundModule};

use bind_forms::{Bound, BoundInstance, BoundKind, BoundModule, BoundWire};
use flat_places::{SizeFault, measure};
use rsfq_ids::list::{List, NoMemory};
use rsfq_ids::name::Name;
use std::alloc::Global;
use std::process::Abort;
use std::test::Fail;

fn is_below(kind: BoundKind, count: usize) -> bool
    ensures { IsTrue result → (inner : ℕ) → module_of kind ≡ Some inner → inner < count }
{
    match kind {
        BoundKind::Module(at) => (at as usize) < count,
        BoundKind::Cell(_) => true,
    }
}

fn are_below(instances: &[BoundInstance], count: usize) -> bool
    ensures { IsTrue result → AreBelow count instances.now }
{
    for instance in instances {
        if !is_below(instance.kind, count) {
            return false;
        }
    }
    true
}

fn are_all_below(modules: &[BoundModule], count: usize) -> bool
    ensures { IsTrue result → (at : ℕ) (owner : BoundModule) → slice_get modules.now at ≡ Some owner → AreBelow count owner.instances }
{
    for owner in modules {
        if !are_below(owner.instances.as_slice(), count) {
            return false;
        }
    }
    true
}

fn has_modules(bound: &Bound) -> bool
    ensures { IsTrue result → HasModules bound.now }
{
    are_all_below(bound.modules.as_slice(), bound.modules.len())
}

/// One wire of so many bits.
fn wire(alloc: Global, bits: u32) -> Result<BoundWire, NoMemory> {
    let name = Name::of(alloc, "w")?;
    Ok(BoundWire {
        name,
        range: Some((0, bits.saturating_sub(1))),
    })
}

/// So many instances of one kind, and a wire of so many bits, if any.
fn module(alloc: Global, kind: BoundKind, copies: u32, bits: u32) -> Result<BoundModule, NoMemory> {
    let mut instances = List::new(alloc);
    for _copy in 0..copies {
        let name = Name::of(alloc, "u")?;
        instances.push(BoundInstance {
            name,
            kind,
            links: List::new(alloc),
        })?;
    }
    let mut wires = List::new(alloc);
    if bits > 0 {
        wires.push(wire(alloc, bits)?)?;
    }
    Ok(BoundModule {
        name: Name::of(alloc, "m")?,
        ports: List::new(alloc),
        wires,
        assigns: List::new(alloc),
        instances,
    })
}

/// So many modules, each with so many instances of the next one; the last one has so many cells and wire bits.
fn chain(
    alloc: Global,
    levels: u32,
    copies: u32,
    cells: u32,
    bits: u32,
) -> Result<Bound, NoMemory> {
    let mut modules = List::new(alloc);
    for level in 1..levels {
        modules.push(module(alloc, BoundKind::Module(level), copies, 0)?)?;
    }
    modules.push(module(alloc, BoundKind::Cell(0), cells, bits)?)?;
    Ok(Bound { modules, top: 0 })
}

/// What `measure` answers: 0 within the limits, else the number of the fault.
fn measured(
    rt: &impl Abort,
    alloc: Global,
    levels: u32,
    copies: u32,
    cells: u32,
    bits: u32,
) -> Result<(u8, u64), NoMemory> {
    let bound = chain(alloc, levels, copies, cells, bits)?;
    assert!(rt; has_modules(&bound));
    assert!(rt; (bound.top as usize) < bound.modules.len());
    Ok(match measure(alloc, &bound) {
        Ok(_) => (0, 0),
        Err(SizeFault::Nesting(count)) => (1, count),
        Err(SizeFault::Cells(count)) => (2, count),
        Err(SizeFault::Wires(count)) => (3, count),
        Err(SizeFault::Memory) => (4, 0),
    })
}

#[test]
fn limits_are_passed_one_after_another(rt: HostRuntime) -> Result<(), Fail> {
    let rows = [
        (1, 0, 0, 0, (0, 0)),
        (64, 2, 0, 0, (0, 0)),
        (64, 1, 1, 1, (0, 0)),
        (65, 1, 0, 0, (1, 65)),
        (65, 2, 9, 9, (1, 65)),
        (2, 1000, 100, 20, (0, 0)),
        (2, 1000, 101, 2000, (2, 100001)),
        (18, 2, 1, 1000, (2, 100001)),
        (1, 0, 100000, 2000000, (0, 0)),
        (1, 0, 100001, 2000001, (2, 100001)),
        (1, 0, 0, 2000001, (3, 2000001)),
        (64, 2, 0, 1, (3, 2000001)),
    ];
    for (levels, copies, cells, bits, wanted) in rows {
        assert_eq!(rt;
            measured(&rt, rt.alloc(), levels, copies, cells, bits)?,
            wanted
        );
    }
    Ok(())
}
