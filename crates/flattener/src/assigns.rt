//! The assigns of modules, each once. A text may assign the same bits any number of times, and all but the first add nothing.

ghost use Rattle.std.specs.Prelude.{◌≡◌, ◌++◌, map, IfOk, OnOk};
ghost use Rattle.std.specs.List.{flat_map};
ghost use Rattle.flat_places.specs.Assigns.{part_key, assign_key, new_places};

use bind_forms::{BoundAssign, BoundModule, BoundPart};
use rsfq_ids::list::{List, NoMemory};
use std::alloc::Global;
use std::collections::BTreeSet;

/// Adds the numbers of parts.
fn push_parts(key: &mut Vec<usize>, parts: &[BoundPart]) -> Result<(), NoMemory>
    ensures { OnOk result (key.new.items ≡ key.old.items ++ flat_map part_key parts.now) }
{
    for part in parts {
        let BoundPart { wire, bit, count } = *part;
        key.extend_from_slice([wire as usize, bit as usize, count as usize].as_slice())?;
    }
    Ok(())
}

/// What an assign joins, as numbers.
fn key_of(alloc: Global, assign: &BoundAssign) -> Result<Vec<usize>, NoMemory>
    ensures { IfOk result (λ key. key.items ≡ assign_key assign.now) }
{
    let mut key = Vec::new(alloc);
    key.push(assign.to.len())?;
    push_parts(&mut key, assign.to.as_slice())?;
    push_parts(&mut key, assign.from.as_slice())?;
    Ok(key)
}

/// The places of the assigns that join what no assign before them does. They are kept in order, so that no text makes a look-up slow.
fn new_places(alloc: Global, assigns: &[BoundAssign]) -> Result<List<usize>, NoMemory>
    ensures { IfOk result (λ places. places ≡ new_places assigns.now) }
{
    let mut seen: BTreeSet<Vec<usize>> = BTreeSet::new(alloc);
    let mut places = List::new(alloc);
    for (at, assign) in assigns.iter().enumerate() {
        let key = key_of(alloc, assign)?;
        if seen.insert(key)? {
            places.push(at)?;
        }
    }
    Ok(places)
}

/// The places of the assigns that join what no assign before them does, module by module.
pub fn new_assigns(alloc: Global, modules: &[BoundModule]) -> Result<List<List<usize>>, NoMemory>
    ensures { IfOk result (λ places. places ≡ map (λ owner. new_places owner.assigns) modules.now) }
{
    let mut places = List::new(alloc);
    for owner in modules {
        places.push(new_places(alloc, owner.assigns.as_slice())?)?;
    }
    Ok(places)
}
