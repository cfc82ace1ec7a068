//! The top, or why there is none.

ghost use Rattle.std.specs.Prelude.{◌≡◌, ◌<◌, None, length, IfOk, MatchResult};
ghost use Rattle.verilog_tree.specs.Views.{view_source};
ghost use Rattle.bind_hierarchy.specs.Graph.{IsModuleGraph};
ghost use Rattle.bind_forms.specs.Modules.{IsModuleNamed, IsTop};
ghost use Rattle.bind_kinds.specs.Netlist.{setting_of};
ghost use Rattle.bind_faults.specs.Tops.{IsTopless};
ghost use Rattle.bind_faults.specs.Told.{IsTold};

use bind_forms::BindFault;
use bind_hierarchy::{TopFault, named_top, single_top};
use bind_kinds::Netlist;
use rsfq_ids::list::{List as Items, NoMemory};
use rsfq_ids::name::Name;
use std::alloc::Global;

/// The name of the module at a place of the text.
pub(crate) fn module_name(
    alloc: Global,
    netlist: &Netlist<'_, '_>,
    at: usize,
) -> Result<Name, NoMemory>
    requires { at < length (view_source netlist.now.source.now) }
    ensures { IfOk result (λ name. IsModuleNamed (setting_of netlist.now) at name) }
{
    Name::of(alloc, netlist.source.modules.as_slice()[at].name.as_str())
}

/// The only module that no module instantiates, or why there is none.
fn find_free_top(
    alloc: Global,
    netlist: &Netlist<'_, '_>,
    graph: &[Items<usize>],
) -> Result<Result<usize, BindFault>, NoMemory>
    requires unnamed { netlist.now.top ≡ None }
    requires graph { IsModuleGraph (view_source netlist.now.source.now) graph.now }
    ensures { IfOk result (λ found. MatchResult found (IsTop (setting_of netlist.now)) (IsTopless (setting_of netlist.now))) }
{
    match single_top(alloc, graph) {
        Ok(top) => Ok(Ok(top)),
        Err(TopFault::NoTop) => Ok(Err(BindFault::NoTop)),
        Err(TopFault::TwoTops(first, second)) => Ok(Err(BindFault::TwoTops(
            module_name(alloc, netlist, first)?,
            module_name(alloc, netlist, second)?,
        ))),
        Err(TopFault::Memory) => Err(NoMemory),
    }
}

/// The top, or why there is none.
pub(crate) fn find_top(
    alloc: Global,
    netlist: &Netlist<'_, '_>,
    graph: &[Items<usize>],
) -> Result<Result<usize, BindFault>, NoMemory>
    requires told { IsTold netlist.now }
    requires graph { IsModuleGraph (view_source netlist.now.source.now) graph.now }
    ensures { IfOk result (λ found. MatchResult found (IsTop (setting_of netlist.now)) (IsTopless (setting_of netlist.now))) }
{
    match netlist.top {
        Some(name) => match named_top(netlist.kinds, name) {
            Some(top) => Ok(Ok(top)),
            None => Ok(Err(BindFault::NoTop)),
        },
        None => find_free_top(alloc, netlist, graph),
    }
}
