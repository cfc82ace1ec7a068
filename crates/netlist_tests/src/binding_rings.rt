//! Small graphs with what their first node reaches, and their first rings.

ghost use Rattle.std.specs.Prelude.{◌<◌, length};
ghost use Rattle.graph_rings.specs.Graph.{IsGraph};

use graph_rings::{Survey, first_ring, is_graph, survey_from};
use rsfq_ids::list::{List, NoMemory};
use std::alloc::{AllocError, Global};
use std::test::Fail;

/// A graph from the edges of each node. Nothing where memory is wanting.
fn graph_of(alloc: Global, rows: &[&[usize]]) -> Result<Vec<List<usize>>, AllocError> {
    let mut graph = Vec::new(alloc);
    for row in rows {
        let edges = row.to_vec(alloc)?;
        graph.push(List::of(edges))?;
    }
    Ok(graph)
}

/// The reached nodes in their order, and the first ring. Nothing where memory is wanting.
fn rings_of(alloc: Global, graph: &[List<usize>]) -> Result<(Survey, Option<Vec<usize>>), NoMemory>
    requires graph { IsGraph graph.now }
    requires some { 0 < length graph.now }
{
    let survey = survey_from(alloc, graph, 0)?;
    let ring = first_ring(alloc, graph, 0, &survey)?;
    Ok((survey, ring))
}

#[test]
fn a_node_reaches_what_edges_lead_to(rt: HostRuntime) -> Result<(), Fail> {
    let table: [(&[&[usize]], &[usize], Option<&[usize]>); 10] = [
        (&[&[]], &[0], None),
        (&[&[0]], &[0], Some(&[0])),
        (&[&[1], &[]], &[1, 0], None),
        (&[&[1, 1], &[], &[2]], &[1, 0], None),
        (&[&[1], &[0]], &[0, 1], Some(&[0, 1])),
        (&[&[2, 1], &[3], &[3], &[]], &[3, 1, 2, 0], None),
        (&[&[3], &[2], &[1], &[1]], &[1, 2, 3, 0], Some(&[1, 2])),
        (
            &[&[2, 4], &[1], &[3], &[2], &[5], &[4]],
            &[4, 5, 2, 3, 0],
            Some(&[2, 3]),
        ),
        (&[&[3], &[2], &[3], &[1]], &[3, 1, 2, 0], Some(&[1, 2, 3])),
        (&[&[1], &[2], &[0, 1]], &[0, 1, 2], Some(&[0, 1, 2])),
    ];
    for (rows, order, ring) in table {
        let graph = graph_of(rt.alloc(), rows)?;
        assert!(rt; is_graph(&graph));
        assert!(rt; 0 < graph.len());
        let (survey, found) = rings_of(rt.alloc(), &graph)?;
        assert_eq!(rt; survey.order.as_slice(), order);
        for (node, reached) in survey.reached.iter().enumerate() {
            assert_eq!(rt; *reached, order.contains(&node));
        }
        match (&found, ring) {
            (Some(found), Some(ring)) => assert_eq!(rt; found.as_slice(), ring),
            (found, ring) => assert_eq!(rt; found.is_some(), ring.is_some()),
        }
    }
    Ok(())
}

#[test]
fn an_edge_beyond_the_nodes_is_told(rt: HostRuntime) -> Result<(), Fail> {
    let rows: [&[usize]; 2] = [&[1], &[2]];
    let graph = graph_of(rt.alloc(), &rows)?;
    assert!(rt; !is_graph(&graph));
    Ok(())
}
