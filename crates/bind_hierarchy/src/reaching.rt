//! What a module reaches.

ghost use Rattle.std.specs.Prelude.{◌<◌, List, length, IfOk};
ghost use Rattle.std.specs.Option.{option_map};
ghost use Rattle.graph_rings.specs.Graph.{IsGraph};
ghost use Rattle.verilog_tree.specs.Trees.{Module};
ghost use Rattle.bind_hierarchy.specs.Graph.{IsModuleGraph};
ghost use Rattle.bind_hierarchy.specs.Reach.{IsReach};

use graph_rings::{first_ring, survey_from};
use rsfq_ids::list::{List, NoMemory};
use std::alloc::Global;

/// What a module reaches, itself among it.
#[derive(Debug, Drop)]
pub struct Reach {
    /// For each module of the text whether it is reached.
    pub reached: Vec<bool>,
    /// The reached modules, each once. Where there is no ring, each stands behind all that it instantiates.
    pub order: Vec<usize>,
    /// The first ring, from its first module in text order on, each module instantiating the next and the last the first.
    pub ring: Option<Vec<usize>>,
}

/// What a module reaches in the graph of the modules of a text. Linear in the graph.
///
/// # Errors
///
/// `NoMemory` alone, which may come at any time.
pub fn reach_from(alloc: Global, graph: &[List<usize>], top: usize) -> Result<Reach, NoMemory>
    requires graph { IsGraph graph.now }
    requires top { top < length graph.now }
    ensures { IfOk result (λ reach. (modules : List Module) → IsModuleGraph modules graph.now → IsReach modules top reach.reached.items reach.order.items (option_map (λ ring. ring.items) reach.ring)) }
{
    let survey = survey_from(alloc, graph, top)?;
    let ring = first_ring(alloc, graph, top, &survey)?;
    Ok(Reach {
        reached: survey.reached,
        order: survey.order,
        ring,
    })
}
