//! A ring through a node that lies on one.

ghost use Rattle.std.specs.Prelude.{◌≡◌, ◌≢◌, ℕ, ◌+◌, ◌-◌, ◌<◌, ◌≤◌, ◌∷◌, ◌++◌, [], true, false, length, slice_index, slice_index_or, slice_set, slice_get, Some, IfOk, IfNone, IfSome, IsTrue};
ghost use Rattle.graph_rings.specs.Graph.{IsGraph, HasEdge, Leads, Reaches, IsRingThrough, IsFirstRing, IsSurvey};
ghost use Rattle.graph_rings.specs.Tour.{IsTour, IsTourOf, IsEnd, tour_work};

use crate::edges::edge_counts;
use crate::surveying::Survey;
use rsfq_ids::list::{List, NoMemory};
use std::alloc::Global;

/// A search for a way back to a node.
#[derive(Drop)]
struct Tour {
    /// How many edges of each node were not looked at.
    left: Vec<usize>,
    seen: Vec<bool>,
    /// The way to the last node.
    path: Vec<usize>,
}

impl Tour {
    /// A search that stands at its node.
    fn new(alloc: Global, graph: &[List<usize>], node: usize) -> Result<Tour, NoMemory>
        requires { node < length graph.now }
        ensures { IfOk result (IsTourOf graph.now node) }
    {
        let left = edge_counts(alloc, graph)?;
        let mut seen = vec![in alloc; false; graph.len()]?;
        let mut path = Vec::new(alloc);
        path.push(node)?;
        seen[node] = true;
        Ok(Tour { left, seen, path })
    }

    /// Looks at one more edge of the last node of the way, or goes back from it. Answers whether the edge leads to the first node.
    fn step(&mut self, graph: &[List<usize>], node: usize, last: usize) -> Result<bool, NoMemory>
        requires graph { IsGraph graph.now }
        requires tour { IsTourOf graph.now node self.old }
        requires last { IsEnd graph.now self.old last }
        ensures back { IfOk result (λ back. IsTrue back → IsRingThrough graph.now node self.new.path.items) }
        ensures on { IfOk result (λ back. back ≡ false → IsTourOf graph.now node self.new) }
        ensures work { IfOk result (λ back. back ≡ false → tour_work self.new < tour_work self.old) }
    {
        let left = self.left[last];
        if left == 0 {
            self.path.pop();
            return Ok(false);
        }
        let to = graph[last].as_slice()[left - 1];
        if to == node {
            return Ok(true);
        }
        self.left[last] = left - 1;
        if self.seen[to] {
            return Ok(false);
        }
        self.path.push(to)?;
        self.seen[to] = true;
        Ok(false)
    }
}

/// A ring through a node that lies on one, from this node on, each node leading to the next and the last to the first. Each node
/// stands there once. Linear in the number of nodes and edges.
///
/// # Errors
///
/// `NoMemory` alone, which may come at any time.
pub fn ring_through(
    alloc: Global,
    graph: &[List<usize>],
    node: usize,
) -> Result<Vec<usize>, NoMemory>
    requires graph { IsGraph graph.now }
    requires node { node < length graph.now }
    requires on_ring { Leads graph.now node node }
    ensures { IfOk result (λ ring. IsRingThrough graph.now node ring.items) }
{
    let mut tour = Tour::new(alloc, graph, node)?;
    'tour: while let Some(&last) = tour.path.last() {
        if tour.step(graph, node, last)? {
            return Ok(tour.path);
        }
    }
    unreachable!()
}

/// The first place with a mark.
fn first_marked(marks: &[bool]) -> Option<usize>
    ensures none { IfNone result ((place : ℕ) → slice_index_or marks.now place false ≡ false) }
    ensures marked { IfSome result (λ place. slice_index_or marks.now place false ≡ true) }
    ensures first { IfSome result (λ place. (before : ℕ) → before < place → slice_index_or marks.now before false ≡ false) }
{
    for (place, mark) in marks.iter().enumerate() {
        if *mark {
            return Some(place);
        }
    }
    None
}

/// The first ring that a node reaches: of all reached nodes that lie on rings the least, and a ring through it. Nothing where the
/// node reaches no ring. The survey is that of the node.
///
/// # Errors
///
/// `NoMemory` alone, which may come at any time.
pub fn first_ring(
    alloc: Global,
    graph: &[List<usize>],
    start: usize,
    survey: &Survey,
) -> Result<Option<Vec<usize>>, NoMemory>
    requires graph { IsGraph graph.now }
    requires start { start < length graph.now }
    requires survey { IsSurvey graph.now start survey.now.reached.items survey.now.on_ring.items survey.now.order.items }
    ensures none { IfOk result (λ found. IfNone found ((node : ℕ) → Reaches graph.now start node → Leads graph.now node node → ⊥)) }
    ensures ring { IfOk result (λ found. IfSome found (λ ring. IsFirstRing graph.now start ring.items)) }
{
    match first_marked(&survey.on_ring) {
        Some(node) => {
            let ring = ring_through(alloc, graph, node)?;
            Ok(Some(ring))
        }
        None => Ok(None),
    }
}
