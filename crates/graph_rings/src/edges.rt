//! The edges of a graph.

ghost use Rattle.std.specs.Prelude.{◌≡◌, ◌<◌, ◌↔◌, length, map, IfOk, IsTrue};
ghost use Rattle.std.specs.List.{All};
ghost use Rattle.graph_rings.specs.Graph.{IsGraph};

use rsfq_ids::list::{List, NoMemory};
use std::alloc::Global;

/// How many edges each node has.
pub(crate) fn edge_counts(alloc: Global, graph: &[List<usize>]) -> Result<Vec<usize>, NoMemory>
    ensures { IfOk result (λ counts. counts.items ≡ map (λ edges. length edges) graph.now) }
{
    let counts = graph.iter().map(|edges| edges.len()).collect(alloc)?;
    Ok(counts)
}

/// Whether all numbers are below a limit.
fn are_below(numbers: &[usize], limit: usize) -> bool
    ensures { IsTrue result ↔ All (λ number. number < limit) numbers.now }
{
    numbers.iter().all(|number| *number < limit)
}

/// Whether each edge leads to a node.
pub fn is_graph(graph: &[List<usize>]) -> bool
    ensures { IsTrue result ↔ IsGraph graph.now }
{
    for edges in graph {
        if !are_below(edges.as_slice(), graph.len()) {
            return false;
        }
    }
    true
}
