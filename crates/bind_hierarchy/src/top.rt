//! Which module is the top.

ghost use Rattle.std.specs.Prelude.{◌≡◌, ◌⊎◌, ◌↔◌, ℕ, ◌+◌, ◌<◌, ◌≤◌, List, length, true, false, slice_index_or, IfOk, IfNone, IfSome, MatchResult};
ghost use Rattle.std.specs.List.{All, Contains};
ghost use Rattle.graph_rings.specs.Graph.{IsGraph, HasEdge};
ghost use Rattle.rsfq_ids.specs.declared.table.CellTable.{CellTable};
ghost use Rattle.verilog_tree.specs.Trees.{Module};
ghost use Rattle.bind_hierarchy.specs.Kinds.{AreKinds};
ghost use Rattle.bind_hierarchy.specs.Graph.{IsModuleGraph};
ghost use Rattle.bind_hierarchy.specs.Top.{IsOnlyRoot, IsRootFault, MeansNamed, IsOnlyFree, IsFreeFault};
ghost use Rattle.bind_hierarchy.specs.declared.top.TopFault.TheVariants.{Memory};

use crate::kinds::Kinds;
use rsfq_ids::list::{List as Items, NoMemory};
use std::alloc::Global;
use thiserror::Error;

/// Why there is no top.
#[derive(Clone, Copy, Debug, PartialEq, Eq, Error)]
pub enum TopFault {
    /// Each module is instantiated, or there is none.
    #[error("no top")]
    NoTop,
    /// The first two of the modules that no module instantiates.
    #[error("two tops")]
    TwoTops(usize, usize),
    /// Memory could not be had.
    #[error("out of memory")]
    Memory,
}

impl From<NoMemory> for TopFault {
    ghost from_gives = { λ _ e. e ≡ Memory };

    fn from(_: NoMemory) -> TopFault {
        TopFault::Memory
    }
}

/// Marks the nodes that these edges lead to.
fn mark_edges(marks: &mut Vec<bool>, edges: &[usize])
    requires { All (λ node. node < length marks.old.items) edges.now }
    ensures len { length marks.new.items ≡ length marks.old.items }
    ensures kept { (node : ℕ) → slice_index_or marks.old.items node false ≡ true → slice_index_or marks.new.items node false ≡ true }
    ensures marked { (node : ℕ) → Contains edges.now node → slice_index_or marks.new.items node false ≡ true }
    ensures only { (node : ℕ) → slice_index_or marks.new.items node false ≡ true → (slice_index_or marks.old.items node false ≡ true) ⊎ Contains edges.now node }
{
    for node in edges {
        marks[*node] = true;
    }
}

/// For each node whether an edge leads to it.
fn mark_targets(alloc: Global, graph: &[Items<usize>]) -> Result<Vec<bool>, NoMemory>
    requires { IsGraph graph.now }
    ensures len { IfOk result (λ marks. length marks.items ≡ length graph.now) }
    ensures marks { IfOk result (λ marks. (node : ℕ) → (slice_index_or marks.items node false ≡ true) ↔ ((outer : ℕ) × HasEdge graph.now outer node)) }
{
    let mut marks = vec![in alloc; false; graph.len()]?;
    for edges in graph {
        mark_edges(&mut marks, edges.as_slice());
    }
    Ok(marks)
}

/// The first place without a mark, from a place on.
fn first_unmarked(marks: &[bool], from: usize) -> Option<usize>
    requires { from ≤ length marks.now }
    ensures none { IfNone result ((place : ℕ) → from ≤ place → place < length marks.now → slice_index_or marks.now place false ≡ true) }
    ensures within { IfSome result (λ found. (from ≤ found) × (found < length marks.now)) }
    ensures unmarked { IfSome result (λ found. slice_index_or marks.now found false ≡ false) }
    ensures first { IfSome result (λ found. (place : ℕ) → from ≤ place → place < found → slice_index_or marks.now place false ≡ true) }
{
    for place in from..marks.len() {
        if !marks[place] {
            return Some(place);
        }
    }
    None
}

/// The one node that no edge leads to.
fn only_root(alloc: Global, graph: &[Items<usize>]) -> Result<usize, TopFault>
    requires { IsGraph graph.now }
    ensures { MatchResult result (IsOnlyRoot graph.now) (IsRootFault graph.now) }
{
    let targets = mark_targets(alloc, graph)?;
    let marks = targets.as_slice();
    let Some(first) = first_unmarked(marks, 0) else {
        return Err(TopFault::NoTop);
    };
    match first_unmarked(marks, first + 1) {
        Some(second) => Err(TopFault::TwoTops(first, second)),
        None => Ok(first),
    }
}

/// The module of this name that is the top, where one is named: the first of that name. Nothing where no module has it.
pub fn named_top(kinds: &Kinds<'_>, name: &str) -> Option<usize>
    ensures { (modules : List Module) (table : CellTable) → AreKinds modules table kinds.now → MeansNamed modules name.now result }
{
    kinds.modules.find(name)
}

/// The top where none is named: the one module that no instance in any module instantiates, given the graph of the modules of a
/// text. Linear in the graph.
///
/// # Errors
///
/// `NoTop` exactly where each module is instantiated or there is none, `TwoTops` with the first two in text order exactly where two
/// or more are not. `Memory` may come at any time.
pub fn single_top(alloc: Global, graph: &[Items<usize>]) -> Result<usize, TopFault>
    requires { IsGraph graph.now }
    ensures { (modules : List Module) → IsModuleGraph modules graph.now → MatchResult result (IsOnlyFree modules) (IsFreeFault modules) }
{
    only_root(alloc, graph)
}
