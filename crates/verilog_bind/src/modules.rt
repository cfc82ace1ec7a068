//! The bound modules, and the whole bound source.

ghost use Rattle.std.specs.Prelude.{◌≡◌, ◌↔◌, ◌<◌, ℕ, Some, true, false, length, slice_get, slice_index_or, IfOk};
ghost use Rattle.std.specs.List.{AllZip, Contains};
ghost use Rattle.bind_forms.specs.Modules.{IsTop, IsReached};
ghost use Rattle.bind_forms.specs.Binds.{BindsModuleAt, Binds};
ghost use Rattle.bind_forms.specs.First.{HasNoFault};
ghost use Rattle.verilog_tree.specs.Trees.{Module};
ghost use Rattle.verilog_tree.specs.Text.{IsSpelledTree};
ghost use Rattle.bind_sites.specs.Sites.{sites};
ghost use Rattle.bind_kinds.specs.Netlist.{IsNetlist, setting_of};
ghost use Rattle.verilog_bind.specs.Sound.{IsBinder, setting_in, IsSoundModule, AreSoundModules};

use crate::binder::Binder;
use crate::laws::instances_are_sites;
use crate::module_numbers::Places;
use crate::wires::Wires;
use bind_forms::{Bound, BoundModule};
use bind_kinds::Netlist;
use bind_sites::numbers_are_small;
use rsfq_ids::list::{List, NoMemory};
use rsfq_ids::name::Name;
use std::alloc::Global;

/// The bound source of a netlist in which no cause for refusal stands, given its top and for each module of the text whether the top reaches
/// it. Each spelled name is looked up a fixed number of times in a hash table, and all else is linear in the text.
///
/// # Errors
///
/// `NoMemory` alone, which may come at any time, and comes where a list has 2^32 items or more.
pub(crate) fn bind_modules(
    alloc: Global,
    netlist: &Netlist<'_, '_>,
    reached: &[bool],
    top: usize,
) -> Result<Bound, NoMemory>
    requires netlist { IsNetlist netlist.now }
    requires tree { IsSpelledTree (setting_of netlist.now).modules }
    requires top { IsTop (setting_of netlist.now) top }
    requires flags { length reached.now ≡ length (setting_of netlist.now).modules }
    requires reached { (at : ℕ) → (slice_index_or reached.now at false ≡ true) ↔ IsReached (setting_of netlist.now) at }
    requires sound { HasNoFault (setting_of netlist.now) }
    ensures { IfOk result (Binds (setting_of netlist.now)) }
{
    numbers_are_small();
    instances_are_sites();
    let all = Places::of(alloc, reached)?;
    let binder = Binder {
        netlist,
        places: all.places.as_slice(),
        numbers: all.numbers.as_slice(),
    };
    let modules = binder.bind_all(alloc)?;
    Ok(Bound {
        modules,
        top: binder.number_of(top),
    })
}

impl Binder<'_, '_> {
    /// The modules at the places.
    fn bind_all(&self, alloc: Global) -> Result<List<BoundModule>, NoMemory>
        requires binder { IsBinder self.now }
        requires sound { AreSoundModules (setting_in self.now) self.now.places.now }
        ensures { IfOk result (AllZip (BindsModuleAt (setting_in self.now) self.now.places.now) self.now.places.now) }
    {
        let mut modules = List::new(alloc);
        for at in self.places {
            modules.push(self.bind_module(alloc, *at)?)?;
        }
        Ok(modules)
    }

    /// The module at a place of the text.
    fn bind_module(&self, alloc: Global, at: usize) -> Result<BoundModule, NoMemory>
        requires binder { IsBinder self.now }
        requires there { at < length (setting_in self.now).modules }
        requires sound { (owner : Module) → slice_get (setting_in self.now).modules at ≡ Some owner → IsSoundModule (setting_in self.now) self.now.places.now (sites owner) }
        ensures { IfOk result (BindsModuleAt (setting_in self.now) self.now.places.now at) }
    {
        let Some(owner) = self.netlist.source.modules.get(at) else {
            unreachable!()
        };
        let Some(scope) = self.netlist.scopes.get(at) else {
            unreachable!()
        };
        let wires = Wires::of(alloc, scope)?;
        let assigns = wires.assigns(alloc)?;
        let instances = self.instances(alloc, &wires, at)?;
        let (ports, wires) = wires.into_parts();
        Ok(BoundModule {
            name: Name::of(alloc, owner.name.as_str())?,
            ports,
            wires,
            assigns,
            instances,
        })
    }
}
