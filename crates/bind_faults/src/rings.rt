//! Modules that instantiate each other in a ring.

ghost use Rattle.std.specs.Prelude.{◌≡◌, ◌+◌, ◌<◌, length, None, IfOk};
ghost use Rattle.std.specs.Option.{option_map};
ghost use Rattle.std.specs.List.{All, AllZip};
ghost use Rattle.verilog_tree.specs.Views.{view_source};
ghost use Rattle.bind_hierarchy.specs.Reach.{IsReach};
ghost use Rattle.bind_forms.specs.Modules.{IsModuleNamed, IsTop};
ghost use Rattle.bind_forms.specs.First.{Rings, IsFirstFault};
ghost use Rattle.bind_kinds.specs.Netlist.{setting_of};
ghost use Rattle.bind_faults.specs.Order.{rank, IsClear, Answers};

use crate::tops::module_name;
use bind_forms::BindFault;
use bind_hierarchy::Reach;
use bind_kinds::Netlist;
use rsfq_ids::list::{List as Items, NoMemory};
use rsfq_ids::name::Name;
use std::alloc::Global;

/// The names of modules.
fn module_names(
    alloc: Global,
    netlist: &Netlist<'_, '_>,
    places: &[usize],
) -> Result<Items<Name>, NoMemory>
    requires { All (λ at. at < length (view_source netlist.now.source.now)) places.now }
    ensures { IfOk result (λ names. AllZip (IsModuleNamed (setting_of netlist.now)) places.now names) }
{
    let mut names = Items::new(alloc);
    for at in places {
        names.push(module_name(alloc, netlist, *at)?)?;
    }
    Ok(names)
}

/// Looks for a ring among the modules that the top reaches.
pub(crate) fn refuse_ring(
    alloc: Global,
    netlist: &Netlist<'_, '_>,
    reach: &Reach,
    top: usize,
) -> Result<(), BindFault>
    requires top { IsTop (setting_of netlist.now) top }
    requires reach { IsReach (view_source netlist.now.source.now) top reach.now.reached.items reach.now.order.items (option_map (λ ring. ring.items) reach.now.ring) }
    requires before { IsClear (setting_of netlist.now) (rank Rings) }
    ensures answer { Answers result (IsClear (setting_of netlist.now) (rank Rings + 1)) (IsFirstFault (setting_of netlist.now)) }
    ensures none { IfOk result (λ _. reach.now.ring ≡ None) }
{
    match &reach.ring {
        Some(ring) => Err(BindFault::Recursive(module_names(alloc, netlist, ring.as_slice())?)),
        None => Ok(()),
    }
}
