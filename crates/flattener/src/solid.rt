//! The instances that hold something, which are all that a walk needs to look at.

ghost use Rattle.std.specs.Prelude.{◌≡◌, ◌<◌, ℕ, map, length, slice_get, Some, IfOk};
ghost use Rattle.bind_forms.specs.declared.bound.BoundModule.{BoundModule};
ghost use Rattle.flat_places.specs.Hierarchy.{module_of};
ghost use Rattle.flat_places.specs.Rounds.{AreBelow};
ghost use Rattle.flattener.specs.Solid.{is_solid, solid_places};

use bind_forms::{BoundInstance, BoundKind, BoundModule};
use flat_places::Size;
use rsfq_ids::list::{List, NoMemory};
use std::alloc::Global;

/// Whether an instance is a cell, or of a module that holds a cell or a wire bit.
fn is_solid(sizes: &[Size], kind: BoundKind) -> bool
    requires { (inner : ℕ) → module_of kind ≡ Some inner → inner < length sizes.now }
    ensures { result ≡ is_solid sizes.now kind }
{
    match kind {
        BoundKind::Cell(_) => true,
        BoundKind::Module(at) => {
            let size = sizes[at as usize];
            size.cells > 0 || size.bits > 0
        }
    }
}

/// The places of those instances that hold something.
fn solid_places(
    alloc: Global,
    sizes: &[Size],
    instances: &[BoundInstance],
) -> Result<List<usize>, NoMemory>
    requires { AreBelow (length sizes.now) instances.now }
    ensures { IfOk result (λ places. places ≡ solid_places sizes.now instances.now) }
{
    let mut places = List::new(alloc);
    for (at, instance) in instances.iter().enumerate() {
        if is_solid(sizes, instance.kind) {
            places.push(at)?;
        }
    }
    Ok(places)
}

/// The places of the instances that hold something, module by module.
pub fn solid_instances(
    alloc: Global,
    modules: &[BoundModule],
    sizes: &[Size],
) -> Result<List<List<usize>>, NoMemory>
    requires { (at : ℕ) (owner : BoundModule) → slice_get modules.now at ≡ Some owner → AreBelow (length sizes.now) owner.instances }
    ensures { IfOk result (λ solid. solid ≡ map (λ owner. solid_places sizes.now owner.instances) modules.now) }
{
    let mut solid = List::new(alloc);
    for owner in modules {
        solid.push(solid_places(alloc, sizes, owner.instances.as_slice())?)?;
    }
    Ok(solid)
}
