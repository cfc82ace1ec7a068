//! What is bound, with the names in each module.

use bind_hierarchy::{Kinds, Meaning};
use bind_names::Scope;
use name_table::FirstNames;
use rsfq_ids::list::List;
use rsfq_ids::table::CellTable;
use verilog_tree::Source;

/// What is bound, with the names in each module and what kinds mean. What belongs to the module at a place of the text stands at that place of
/// each list.
#[derive(Clone, Copy, Debug)]
pub struct Netlist<'d, 'a> {
    pub source: &'a Source,
    pub cells: &'a CellTable,
    /// The name of the top, if one is given.
    pub top: Option<&'a str>,
    pub kinds: &'d Kinds<'a>,
    /// The names in each module.
    pub scopes: &'d [Scope<'d, 'a>],
    /// The ports of each module by their names, with their places in the head.
    pub ports: &'d [FirstNames<'a>],
    /// What the kind at each site of each module means; at a site without a kind anything.
    pub meanings: &'d [List<Option<Meaning>>],
    /// The widths of the ports of each module, in port order; `None` for a port without a direction.
    pub widths: &'d [List<Option<u64>>],
}

/// The name of a kind, with what it means: the first module of that name or, where no module has it, the first cell. `None` where neither has
/// it.
#[derive(Clone, Copy, Debug)]
pub struct KindName<'k> {
    pub name: &'k str,
    pub meaning: Option<Meaning>,
}
