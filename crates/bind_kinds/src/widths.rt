//! The widths of the ports of modules.

ghost use Rattle.std.specs.Prelude.{◌≡◌, ◌<◌, ℕ, Bool, Option, List, length, IfSome, IfNone, IfOk};
ghost use Rattle.std.specs.List.{AllZip};
ghost use Rattle.verilog_tree.specs.Views.{view_head, view_module, view_source};
ghost use Rattle.bind_sites.specs.Sites.{port_names};
ghost use Rattle.bind_names.specs.Scoped.{IsScope, sites_of};
ghost use Rattle.bind_kinds.specs.Netlist.{IsScopeOf, AreWidthsOf};
ghost use Rattle.bind_kinds.specs.Ports.{IsWidthOf};

use crate::pins::{head_count, head_port};
use bind_names::{Scope, width_of};
use rsfq_ids::list::{List as Items, NoMemory};
use std::alloc::Global;
use verilog_tree::{Head, Source};

/// The width of a port of a module, by its first direction. `None` exactly where it has none.
pub(crate) fn name_width(scope: &Scope<'_, '_>, name: &str) -> Option<u64>
    requires { IsScope scope.now }
    ensures { IsWidthOf (sites_of scope.now) name.now result }
{
    match scope.direction(name) {
        Some((_, range)) => Some(width_of(range)),
        None => None,
    }
}

/// The widths of the ports of a head, in port order.
fn head_widths(
    alloc: Global,
    head: &Head,
    scope: &Scope<'_, '_>,
) -> Result<Items<Option<u64>>, NoMemory>
    requires { IsScope scope.now }
    ensures { IfOk result (AllZip (IsWidthOf (sites_of scope.now)) (port_names (view_head head.now))) }
{
    let mut widths = Items::new(alloc);
    for place in 0..head_count(head) {
        let Some(name) = head_port(head, place) else {
            unreachable!()
        };
        widths.push(name_width(scope, name))?;
    }
    Ok(widths)
}

/// The widths of the ports of each module of a text, in port order, by the names in each. `None` for a port without a direction.
pub fn widths_of(
    alloc: Global,
    source: &Source,
    scopes: &[Scope<'_, '_>],
) -> Result<Vec<Items<Option<u64>>>, NoMemory>
    requires { AllZip IsScopeOf (view_source source.now) scopes.now }
    ensures { IfOk result (λ widths. AllZip AreWidthsOf (view_source source.now) widths.items) }
{
    let mut widths = Vec::new(alloc);
    for (at, scope) in scopes.iter().enumerate() {
        let Some(owner) = source.modules.get(at) else {
            unreachable!()
        };
        widths.push(head_widths(alloc, &owner.head, scope)?)?;
    }
    Ok(widths)
}
