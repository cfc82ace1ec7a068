//! The bound source of a source.

ghost use Rattle.std.specs.Prelude.{◌≡◌, ◌≢◌, IfOk, IfErr, OnOk};
ghost use Rattle.std.specs.Option.{option_copied};
ghost use Rattle.rsfq_ids.specs.WellFormed.{IsTable};
ghost use Rattle.verilog_tree.specs.Views.{view_source};
ghost use Rattle.verilog_tree.specs.Text.{IsSpelledTree};
ghost use Rattle.bind_forms.specs.declared.bound.Bound.{Bound};
ghost use Rattle.bind_forms.specs.declared.fault.BindFault.TheVariants.{Memory};
ghost use Rattle.bind_forms.specs.Modules.{setting};
ghost use Rattle.bind_forms.specs.Binds.{Binds};
ghost use Rattle.bind_forms.specs.First.{HasNoFault, IsFirstFault};
ghost use Rattle.bind_forms.specs.WellFormed.{IsBound};
ghost use Rattle.bind_kinds.specs.Netlist.{setting_of};
ghost use Rattle.bind_faults.specs.Told.{IsTold};

use crate::modules::bind_modules;
use bind_faults::find_fault;
use bind_forms::{BindFault, Bound};
use bind_hierarchy::Kinds;
use bind_kinds::{Netlist, meanings_of, ports_of, scopes_of, sites_of, widths_of};
use bind_laws::laws::{bound_is_one, bound_is_well_formed};
use rsfq_ids::table::CellTable;
use std::alloc::Global;
use verilog_tree::Source;

/// The bound source of a netlist.
fn bind_netlist(alloc: Global, netlist: &Netlist<'_, '_>) -> Result<Bound, BindFault>
    requires told { IsTold netlist.now }
    requires tree { IsSpelledTree (setting_of netlist.now).modules }
    requires table { IsTable (setting_of netlist.now).table }
    ensures bound { IfOk result (Binds (setting_of netlist.now)) }
    ensures only { IfOk result (λ bound. (other : Bound) → Binds (setting_of netlist.now) other → other ≡ bound) }
    ensures well_formed { IfOk result (IsBound (setting_of netlist.now).table) }
    ensures clean { OnOk result (HasNoFault (setting_of netlist.now)) }
    ensures fault { IfErr result (λ why. why ≢ Memory → IsFirstFault (setting_of netlist.now) why) }
{
    bound_is_well_formed();
    bound_is_one();
    let found = find_fault(alloc, netlist)?;
    let bound = bind_modules(alloc, netlist, found.reached.as_slice(), found.top)?;
    Ok(bound)
}

/// The bound source of a source over these cells, under the top of this name or, where none is given, the one module that no module
/// instantiates. It is the only one, and well formed. Each spelled name is looked up a fixed number of times in a hash table, and all else is
/// linear in the text.
///
/// # Errors
///
/// Exactly where a cause of a fault stands: of the first cause that stands anywhere the one that stands first in text order. `Memory` where
/// memory could not be had.
pub fn bind<'a>(
    alloc: Global,
    source: &'a Source,
    cells: &'a CellTable,
    top: Option<&'a str>,
) -> Result<Bound, BindFault>
    requires tree { IsSpelledTree (view_source source.now) }
    requires table { IsTable cells.now }
    ensures bound { IfOk result (Binds (setting (view_source source.now) cells.now (option_copied top.entry))) }
    ensures only { IfOk result (λ bound. (other : Bound) → Binds (setting (view_source source.now) cells.now (option_copied top.entry)) other → other ≡ bound) }
    ensures well_formed { IfOk result (IsBound cells.now) }
    ensures clean { OnOk result (HasNoFault (setting (view_source source.now) cells.now (option_copied top.entry))) }
    ensures fault { IfErr result (λ why. why ≢ Memory → IsFirstFault (setting (view_source source.now) cells.now (option_copied top.entry)) why) }
{
    let kinds = Kinds::of(alloc, source, cells)?;
    let sites = sites_of(alloc, source)?;
    let scopes = scopes_of(alloc, sites.as_slice())?;
    let ports = ports_of(alloc, source)?;
    let meanings = meanings_of(alloc, source, &kinds, sites.as_slice())?;
    let widths = widths_of(alloc, source, scopes.as_slice())?;
    let netlist = Netlist {
        source,
        cells,
        top,
        kinds: &kinds,
        scopes: scopes.as_slice(),
        ports: ports.as_slice(),
        meanings: meanings.as_slice(),
        widths: widths.as_slice(),
    };
    bind_netlist(alloc, &netlist)
}
