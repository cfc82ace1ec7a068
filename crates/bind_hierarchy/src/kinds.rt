//! What the kinds of instances mean.

ghost use Rattle.std.specs.Prelude.{◌≡◌, ℕ, List, IfOk};
ghost use Rattle.rsfq_ids.specs.declared.table.CellTable.{CellTable};
ghost use Rattle.verilog_tree.specs.Trees.{Module};
ghost use Rattle.verilog_tree.specs.Views.{view_source};
ghost use Rattle.name_table.specs.Places.{place_of};
ghost use Rattle.bind_hierarchy.specs.Names.{IsFirstPlace, module_names, cell_names};
ghost use Rattle.bind_hierarchy.specs.Kinds.{AreKinds};
ghost use Rattle.bind_hierarchy.specs.Modules.{Means};

use name_table::{FirstNames, TextKeyed};
use rsfq_ids::list::NoMemory;
use rsfq_ids::table::CellTable;
use std::alloc::Global;
use verilog_tree::Source;

/// What a name means: the module at a place of the text, or the cell in a row of the table, both from 0.
#[derive(Clone, Copy, Debug, PartialEq, Eq)]
pub enum Meaning {
    Module(usize),
    Cell(usize),
}

/// The names of the modules of a text and of the cells of a table. The hasher of their tables has read them all, so that no choice of names
/// makes a look-up slow.
#[derive(Debug, Drop)]
pub struct Kinds<'t> {
    pub(crate) modules: FirstNames<'t>,
    pub(crate) cells: FirstNames<'t>,
}

/// A hasher that has read the names of the modules.
fn module_keys(source: &Source) -> TextKeyed {
    let mut keys = TextKeyed::of(b"");
    for module in source.modules.as_slice() {
        keys = keys.and(module.name.as_str().as_bytes());
    }
    keys
}

/// The hasher, after it has read the names of the cells.
fn cell_keys(mut keys: TextKeyed, cells: &CellTable) -> TextKeyed {
    for row in cells.rows.as_slice() {
        keys = keys.and(row.name.as_str().as_bytes());
    }
    keys
}

/// The first places of the names of modules.
fn index_modules<'t>(
    alloc: Global,
    keys: TextKeyed,
    source: &'t Source,
) -> Result<FirstNames<'t>, NoMemory>
    ensures { IfOk result (λ names. (name : List ℕ) → IsFirstPlace (module_names (view_source source.entry.now)) name (place_of names name)) }
{
    let mut names = FirstNames::new(alloc, keys);
    for (place, module) in source.modules.as_slice().iter().enumerate() {
        names.see(module.name.as_str(), place)?;
    }
    Ok(names)
}

/// The first places of the names of cells.
fn index_cells<'t>(
    alloc: Global,
    keys: TextKeyed,
    cells: &'t CellTable,
) -> Result<FirstNames<'t>, NoMemory>
    ensures { IfOk result (λ names. (name : List ℕ) → IsFirstPlace (cell_names cells.entry.now) name (place_of names name)) }
{
    let mut names = FirstNames::new(alloc, keys);
    for (place, row) in cells.rows.as_slice().iter().enumerate() {
        names.see(row.name.as_str(), place)?;
    }
    Ok(names)
}

impl<'t> Kinds<'t> {
    /// The names of the modules and the cells, in the time of a look-up for each.
    ///
    /// # Errors
    ///
    /// `NoMemory` alone, which may come at any time.
    pub fn of(
        alloc: Global,
        source: &'t Source,
        cells: &'t CellTable,
    ) -> Result<Kinds<'t>, NoMemory>
        ensures { IfOk result (λ kinds. AreKinds (view_source source.entry.now) cells.entry.now kinds) }
    {
        let keys = cell_keys(module_keys(source), cells);
        let modules = index_modules(alloc, keys, source)?;
        let cells = index_cells(alloc, keys, cells)?;
        Ok(Kinds { modules, cells })
    }

    /// What a name means: the first module of that name or, where no module has it, the first cell. Nothing where neither has it.
    pub fn meaning(&self, name: &str) -> Option<Meaning>
        ensures { (modules : List Module) (table : CellTable) → AreKinds modules table self.now → Means modules table name.now result }
    {
        match self.modules.find(name) {
            Some(place) => Some(Meaning::Module(place)),
            None => match self.cells.find(name) {
                Some(row) => Some(Meaning::Cell(row)),
                None => None,
            },
        }
    }
}
