//! Which fault is answered.

ghost use Rattle.std.specs.Prelude.{◌+◌, ◌≢◌, IfOk, IfErr};
ghost use Rattle.bind_forms.specs.declared.fault.BindFault.TheVariants.{Memory};
ghost use Rattle.verilog_tree.specs.Views.{view_source};
ghost use Rattle.bind_hierarchy.specs.Graph.{IsModuleGraph};
ghost use Rattle.bind_forms.specs.Modules.{IsTop};
ghost use Rattle.bind_forms.specs.First.{Rings, HasNoFault, IsFirstFault};
ghost use Rattle.bind_kinds.specs.Netlist.{setting_of};
ghost use Rattle.bind_faults.specs.Order.{rank, IsClear, Answers};
ghost use Rattle.bind_faults.specs.Checks.{AreReached};
ghost use Rattle.bind_faults.specs.Told.{IsTold};
ghost use Rattle.bind_faults.specs.Reached.{IsReachedBy};

use crate::check::{Check, SiteCheck};
use crate::doubles::{refuse_doubles, refuse_kinds};
use crate::rings::refuse_ring;
use crate::tops::find_top;
use bind_forms::BindFault;
use bind_hierarchy::{module_graph, reach_from};
use bind_kinds::Netlist;
use rsfq_ids::list::List as Items;
use std::alloc::Global;

/// The modules that the top reaches, by their places in the text.
#[derive(Debug, Drop)]
pub struct Reached {
    pub top: usize,
    /// For each module of the text whether it is reached.
    pub reached: Vec<bool>,
    /// The reached modules, each once, behind all that it instantiates.
    pub order: Vec<usize>,
}

/// Looks for the causes that stand at links, operands and ports.
fn refuse_sites(alloc: Global, netlist: &Netlist<'_, '_>, reached: &[bool]) -> Result<(), BindFault>
    requires told { IsTold netlist.now }
    requires reached { AreReached (setting_of netlist.now) reached.now }
    requires before { IsClear (setting_of netlist.now) (rank Rings + 1) }
    ensures { Answers result (HasNoFault (setting_of netlist.now)) (IsFirstFault (setting_of netlist.now)) }
{
    Check::EachSite(SiteCheck::UnknownPorts).look_over(alloc, netlist, reached)?;
    Check::PortsTwice.look_over(alloc, netlist, reached)?;
    Check::EachSite(SiteCheck::TooManyLinks).look_over(alloc, netlist, reached)?;
    Check::EachSite(SiteCheck::UnknownNames).look_over(alloc, netlist, reached)?;
    Check::EachSite(SiteCheck::Ranges).look_over(alloc, netlist, reached)?;
    Check::EachSite(SiteCheck::Widths).look_over(alloc, netlist, reached)?;
    Check::EachSite(SiteCheck::WidthLimits).look_over(alloc, netlist, reached)
}

/// Looks for the causes where there is a top.
fn find_under(
    alloc: Global,
    netlist: &Netlist<'_, '_>,
    graph: &[Items<usize>],
    top: usize,
) -> Result<Reached, BindFault>
    requires told { IsTold netlist.now }
    requires graph { IsModuleGraph (view_source netlist.now.source.now) graph.now }
    requires top { IsTop (setting_of netlist.now) top }
    ensures clean { IfOk result (λ _. HasNoFault (setting_of netlist.now)) }
    ensures reached { IfOk result (IsReachedBy (setting_of netlist.now)) }
    ensures fault { IfErr result (λ why. why ≢ Memory → IsFirstFault (setting_of netlist.now) why) }
{
    let reach = reach_from(alloc, graph, top)?;
    let reached = reach.reached.as_slice();
    refuse_doubles(alloc, netlist, reached, top)?;
    Check::EachSite(SiteCheck::Kinds).look_over(alloc, netlist, reached)?;
    refuse_ring(alloc, netlist, &reach, top)?;
    refuse_sites(alloc, netlist, reached)?;
    Ok(Reached {
        top,
        reached: reach.reached,
        order: reach.order,
    })
}

/// Looks for the causes of faults in their order, each over the whole text before the next. Where there is none, the modules that the
/// top reaches. Each cause takes one pass over the sites of the reached modules, with some look-ups of names at each.
///
/// # Errors
///
/// The fault that is answered: of the first cause that stands anywhere the one that stands first in text order. `Memory` may come at
/// any time.
pub fn find_fault(alloc: Global, netlist: &Netlist<'_, '_>) -> Result<Reached, BindFault>
    requires { IsTold netlist.now }
    ensures clean { IfOk result (λ _. HasNoFault (setting_of netlist.now)) }
    ensures reached { IfOk result (IsReachedBy (setting_of netlist.now)) }
    ensures fault { IfErr result (λ why. why ≢ Memory → IsFirstFault (setting_of netlist.now) why) }
{
    let graph = module_graph(alloc, netlist.source, netlist.kinds)?;
    match find_top(alloc, netlist, graph.as_slice())? {
        Ok(top) => find_under(alloc, netlist, graph.as_slice(), top),
        Err(fault) => {
            refuse_kinds(alloc, netlist)?;
            Err(fault)
        }
    }
}
