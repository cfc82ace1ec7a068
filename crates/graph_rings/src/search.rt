//! A search that keeps apart the groups of nodes that lead to each other.
//!
//! It goes along a path. Each edge that leads back to a node of the path joins all groups from that node on into one. A group is
//! closed when none of its nodes has an edge that was not looked at; then its edges lead to the group itself and to closed ones,
//! so its nodes lie on rings exactly where it has two nodes or one with an edge to itself (Gabow, Path-based depth-first search for
//! strong and biconnected components, 2000).

ghost use Rattle.std.specs.Prelude.{◌≡◌, ℕ, ◌+◌, ◌*◌, ◌-◌, ◌<◌, ◌≤◌, ◌↔◌, true, [], ◌∷◌, ◌++◌, length, map, sum, take, drop, slice_index, slice_set, slice_get, Some, replicate, IfOk, OnOk, IsTrue};
ghost use Rattle.std.specs.List.{All, Contains};
ghost use Rattle.graph_rings.specs.Graph.{IsGraph, edges_of, HasEdge};
ghost use Rattle.graph_rings.specs.Search.{mark_of, is_done, is_on_ring, Rises, IsSearchOf, IsStart, IsTop, KeepsSeen, work_of};
ghost use Rattle.graph_rings.specs.declared.search.Mark.TheVariants as mark;

use crate::edges::edge_counts;
use rsfq_ids::list::{List, NoMemory};
use std::alloc::Global;

/// What is known of a node: nothing, its place on the path, or whether it lies on a ring.
#[derive(Clone, Copy, Debug, PartialEq, Eq)]
pub(crate) enum Mark {
    Unseen,
    OnPath(usize),
    Done(bool),
}

impl Mark {
    /// Whether the node is done.
    pub(crate) fn is_done(self) -> bool
        ensures { result ≡ is_done self }
    {
        match self {
            Mark::Unseen | Mark::OnPath(_) => false,
            Mark::Done(_) => true,
        }
    }

    /// Whether the node is done and lies on a ring.
    pub(crate) fn is_on_ring(self) -> bool
        ensures { result ≡ is_on_ring self }
    {
        match self {
            Mark::Unseen | Mark::OnPath(_) => false,
            Mark::Done(on_ring) => on_ring,
        }
    }
}

/// The state of a search.
#[derive(Drop)]
pub(crate) struct Search {
    /// How many edges of each node were not looked at.
    pub(crate) left: Vec<usize>,
    pub(crate) marks: Vec<Mark>,
    /// The nodes of the groups that are not closed.
    pub(crate) path: Vec<usize>,
    /// The place on the path of the first node of each group.
    pub(crate) bases: Vec<usize>,
    /// The places on the path of the nodes that may have edges left.
    pub(crate) stack: Vec<usize>,
    /// The nodes of the closed groups.
    pub(crate) order: Vec<usize>,
}

/// Marks nodes as done.
fn settle(marks: &mut Vec<Mark>, nodes: &[usize], on_ring: bool)
    requires { All (λ node. node < length marks.old.items) nodes.now }
    ensures len { length marks.new.items ≡ length marks.old.items }
    ensures within { (node : ℕ) → Contains nodes.now node → mark_of marks.new.items node ≡ mark.Done on_ring }
    ensures without { (node : ℕ) → (Contains nodes.now node → ⊥) → mark_of marks.new.items node ≡ mark_of marks.old.items node }
{
    for node in nodes {
        marks[*node] = Mark::Done(on_ring);
    }
}

/// Drops the numbers above a limit from the end of a list that rises.
fn drop_above(bases: &mut Vec<usize>, limit: usize)
    requires { Rises bases.old.items }
    ensures rises { Rises bases.new.items }
    ensures kept { (base : ℕ) → Contains bases.new.items base ↔ (Contains bases.old.items base × (base ≤ limit)) }
{
    while let Some(&base) = bases.last() {
        if base <= limit {
            return;
        }
        bases.pop();
    }
}

/// Whether this is the last number of a list.
fn is_last(numbers: &[usize], number: usize) -> bool
    ensures { IsTrue result ↔ (slice_get numbers.now (length numbers.now - 1) ≡ Some number) }
{
    match numbers.last() {
        Some(last) => *last == number,
        None => false,
    }
}

impl Search {
    /// A search that has seen nothing.
    pub(crate) fn new(alloc: Global, graph: &[List<usize>]) -> Result<Search, NoMemory>
        ensures { IfOk result (IsStart graph.now) }
    {
        let left = edge_counts(alloc, graph)?;
        let marks = vec![in alloc; Mark::Unseen; graph.len()]?;
        Ok(Search {
            left,
            marks,
            path: Vec::new(alloc),
            bases: Vec::new(alloc),
            stack: Vec::new(alloc),
            order: Vec::new(alloc),
        })
    }

    /// Puts a node at the end of the path, as a group of its own.
    pub(crate) fn enter(&mut self, node: usize) -> Result<(), NoMemory>
        requires { node < length self.old.marks.items }
        ensures left { OnOk result (self.new.left.items ≡ self.old.left.items) }
        ensures marks { OnOk result (self.new.marks.items ≡ slice_set self.old.marks.items node (mark.OnPath (length self.old.path.items))) }
        ensures path { OnOk result (self.new.path.items ≡ self.old.path.items ++ node ∷ []) }
        ensures bases { OnOk result (self.new.bases.items ≡ self.old.bases.items ++ length self.old.path.items ∷ []) }
        ensures stack { OnOk result (self.new.stack.items ≡ self.old.stack.items ++ length self.old.path.items ∷ []) }
        ensures order { OnOk result (self.new.order.items ≡ self.old.order.items) }
    {
        let place = self.path.len();
        self.path.push(node)?;
        self.bases.push(place)?;
        self.stack.push(place)?;
        self.marks[node] = Mark::OnPath(place);
        Ok(())
    }

    /// Closes the last group, which begins at this place of the path.
    fn close(&mut self, graph: &[List<usize>], place: usize) -> Result<(), NoMemory>
        requires top { IsTop graph.now self.old place }
        requires base { slice_get self.old.bases.items (length self.old.bases.items - 1) ≡ Some place }
        requires spent { slice_index self.old.left.items (slice_index self.old.path.items place) ≡ 0 }
        ensures search { OnOk result ((start : ℕ) → IsSearchOf graph.now start self.old → IsSearchOf graph.now start self.new) }
        ensures seen { OnOk result (KeepsSeen self.old.marks.items self.new.marks.items) }
        ensures work { OnOk result (work_of self.new < work_of self.old) }
    {
        let node = self.path[place];
        let group = &self.path.as_slice()[place..];
        let on_ring = group.len() > 1 || graph[node].as_slice().contains(&node);
        settle(&mut self.marks, group, on_ring);
        self.order.extend_from_slice(group)?;
        self.path.truncate(place);
        self.bases.pop();
        self.stack.pop();
        Ok(())
    }

    /// Takes the last node off the stack, and closes its group if the group begins with it.
    fn leave(&mut self, graph: &[List<usize>], place: usize) -> Result<(), NoMemory>
        requires top { IsTop graph.now self.old place }
        requires spent { slice_index self.old.left.items (slice_index self.old.path.items place) ≡ 0 }
        ensures search { OnOk result ((start : ℕ) → IsSearchOf graph.now start self.old → IsSearchOf graph.now start self.new) }
        ensures seen { OnOk result (KeepsSeen self.old.marks.items self.new.marks.items) }
        ensures work { OnOk result (work_of self.new < work_of self.old) }
    {
        if is_last(self.bases.as_slice(), place) {
            return self.close(graph, place);
        }
        self.stack.pop();
        Ok(())
    }

    /// Looks at one more edge of the last node of the stack, which stands at this place of the path, or leaves the node.
    pub(crate) fn step(&mut self, graph: &[List<usize>], place: usize) -> Result<(), NoMemory>
        requires graph { IsGraph graph.now }
        requires top { IsTop graph.now self.old place }
        ensures search { OnOk result ((start : ℕ) → IsSearchOf graph.now start self.old → IsSearchOf graph.now start self.new) }
        ensures seen { OnOk result (KeepsSeen self.old.marks.items self.new.marks.items) }
        ensures work { OnOk result (work_of self.new < work_of self.old) }
    {
        let node = self.path[place];
        let left = self.left[node];
        if left == 0 {
            return self.leave(graph, place);
        }
        let to = graph[node].as_slice()[left - 1];
        self.left[node] = left - 1;
        match self.marks[to] {
            Mark::Unseen => self.enter(to),
            Mark::OnPath(met) => {
                drop_above(&mut self.bases, met);
                Ok(())
            }
            Mark::Done(_) => Ok(()),
        }
    }
}
