//! The graph of the modules of a text.

ghost use Rattle.std.specs.Prelude.{◌≡◌, List, map, IfOk};
ghost use Rattle.rsfq_ids.specs.declared.table.CellTable.{CellTable};
ghost use Rattle.verilog_tree.specs.Views.{view_source, view_module, view_item};
ghost use Rattle.bind_hierarchy.specs.Kinds.{AreKinds, inner_of, inner_modules};
ghost use Rattle.bind_hierarchy.specs.Graph.{IsModuleGraph};

use crate::kinds::Kinds;
use name_table::FirstNames;
use rsfq_ids::list::{List, NoMemory};
use std::alloc::Global;
use verilog_tree::{Item, Module, Source};

/// The module that the instances in an item are of.
fn inner_of(names: &FirstNames<'_>, item: &Item) -> Option<usize>
    ensures { result ≡ inner_of names.now (view_item item.now) }
{
    match item {
        Item::Instances { kind, instances } if instances.len() > 0 => names.find(kind.as_str()),
        _ => None,
    }
}

/// The modules of the instances in a module, one for each item with instances.
fn list_inner(
    alloc: Global,
    names: &FirstNames<'_>,
    module: &Module,
) -> Result<List<usize>, NoMemory>
    ensures { IfOk result (λ inner. inner ≡ inner_modules names.now (view_module module.now)) }
{
    let mut inner = List::new(alloc);
    for item in module.items.as_slice() {
        if let Some(place) = inner_of(names, item) {
            inner.push(place)?;
        }
    }
    Ok(inner)
}

/// The graph of the modules of a text: an edge leads from each to each that it instantiates. Linear in the text but for the look-up
/// of each kind.
///
/// # Errors
///
/// `NoMemory` alone, which may come at any time.
pub fn module_graph(
    alloc: Global,
    source: &Source,
    kinds: &Kinds<'_>,
) -> Result<Vec<List<usize>>, NoMemory>
    ensures rows { IfOk result (λ graph. graph.items ≡ map (inner_modules kinds.now.modules) (view_source source.now)) }
    ensures graph { IfOk result (λ graph. (table : CellTable) → AreKinds (view_source source.now) table kinds.now → IsModuleGraph (view_source source.now) graph.items) }
{
    let mut graph = Vec::new(alloc);
    for module in source.modules.as_slice() {
        graph.push(list_inner(alloc, &kinds.modules, module)?)?;
    }
    Ok(graph)
}
