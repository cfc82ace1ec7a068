//! What a node reaches, and which of it lies on rings.

ghost use Rattle.std.specs.Prelude.{◌≡◌, ◌<◌, length, map, IfOk};
ghost use Rattle.graph_rings.specs.Graph.{IsGraph, IsSurvey};
ghost use Rattle.graph_rings.specs.Search.{IsDone, is_done, is_on_ring};

use crate::search::{Mark, Search};
use rsfq_ids::list::{List, NoMemory};
use std::alloc::Global;

/// What a node reaches, itself among it.
#[derive(Debug, Drop)]
pub struct Survey {
    /// For each node whether it is reached.
    pub reached: Vec<bool>,
    /// For each node whether it is reached and lies on a ring.
    pub on_ring: Vec<bool>,
    /// The reached nodes, each once. One that lies on no ring stands behind all nodes that it leads to.
    pub order: Vec<usize>,
}

/// The whole search from a node.
fn run(alloc: Global, graph: &[List<usize>], start: usize) -> Result<Search, NoMemory>
    requires graph { IsGraph graph.now }
    requires start { start < length graph.now }
    ensures { IfOk result (IsDone graph.now start) }
{
    let mut search = Search::new(alloc, graph)?;
    search.enter(start)?;
    'search: while let Some(&place) = search.stack.last() {
        search.step(graph, place)?;
    }
    Ok(search)
}

/// For each mark whether its node is done.
fn reached_by(alloc: Global, marks: &[Mark]) -> Result<Vec<bool>, NoMemory>
    ensures { IfOk result (λ reached. reached.items ≡ map is_done marks.now) }
{
    let reached = marks.iter().map(|mark| mark.is_done()).collect(alloc)?;
    Ok(reached)
}

/// For each mark whether its node lies on a ring.
fn on_ring_by(alloc: Global, marks: &[Mark]) -> Result<Vec<bool>, NoMemory>
    ensures { IfOk result (λ on_ring. on_ring.items ≡ map is_on_ring marks.now) }
{
    let on_ring = marks.iter().map(|mark| mark.is_on_ring()).collect(alloc)?;
    Ok(on_ring)
}

/// What a node reaches, in time and memory linear in the number of nodes and edges.
///
/// # Errors
///
/// `NoMemory` alone, which may come at any time.
pub fn survey_from(alloc: Global, graph: &[List<usize>], start: usize) -> Result<Survey, NoMemory>
    requires graph { IsGraph graph.now }
    requires start { start < length graph.now }
    ensures { IfOk result (λ survey. IsSurvey graph.now start survey.reached.items survey.on_ring.items survey.order.items) }
{
    let search = run(alloc, graph, start)?;
    let reached = reached_by(alloc, search.marks.as_slice())?;
    let on_ring = on_ring_by(alloc, search.marks.as_slice())?;
    Ok(Survey {
        reached,
        on_ring,
        order: search.order,
    })
}
