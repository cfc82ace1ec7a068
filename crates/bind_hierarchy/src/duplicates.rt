//! Names that are given twice.

ghost use Rattle.std.specs.Prelude.{◌↔◌, ℕ, List, IsTrue};
ghost use Rattle.rsfq_ids.specs.declared.table.CellTable.{CellTable};
ghost use Rattle.verilog_tree.specs.Trees.{Module};
ghost use Rattle.verilog_tree.specs.Views.{view_source};
ghost use Rattle.bind_hierarchy.specs.Kinds.{AreKinds};
ghost use Rattle.bind_hierarchy.specs.Modules.{IsModuleNamed};
ghost use Rattle.bind_hierarchy.specs.Duplicates.{IsDuplicate, IsFirstDuplicate};

use crate::kinds::Kinds;
use verilog_tree::Source;

/// Whether an earlier module than the one at a place, or a cell, has its name.
fn is_duplicate(kinds: &Kinds<'_>, name: &str, place: usize) -> bool
    ensures { (modules : List Module) (table : CellTable) → AreKinds modules table kinds.now → IsModuleNamed modules place name.now → IsTrue result ↔ IsDuplicate modules table place name.now }
{
    match kinds.modules.find(name) {
        Some(first) if first < place => true,
        _ => kinds.cells.find(name).is_some(),
    }
}

/// The first module in text order whose name an earlier module or any cell has. Nothing where there is none. Two look-ups for each name
/// at most.
pub fn first_duplicate(source: &Source, kinds: &Kinds<'_>) -> Option<usize>
    ensures { (table : CellTable) → AreKinds (view_source source.now) table kinds.now → IsFirstDuplicate (view_source source.now) table result }
{
    for (place, module) in source.modules.as_slice().iter().enumerate() {
        if is_duplicate(kinds, module.name.as_str(), place) {
            return Some(place);
        }
    }
    None
}
