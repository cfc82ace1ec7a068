//! All lanes of a circuit.
ghost use Rattle.std.specs.Prelude.{IfOk, IfErr};
ghost use Rattle.clock_tree.specs.Clock.{design_of, IsClocked};
ghost use Rattle.lane_forest.specs.Faults.{IsLaneFault};
ghost use Rattle.lane_forest.specs.Table.{AreLanes};
ghost use Rattle.lane_forest.specs.Pulses.{RunsGoAlong};

use crate::fault::LaneFault;
use crate::growth::Growth;
use crate::lanes::Lanes;
use crate::order::pins_along;
use clock_tree::Clocked;
use clock_tree::laws::graphs_are_ready;
use net_graph::Graph;
use pulse_laws::laws::runs_have_tags;
use rsfq_ids::circuit::Bench;
use std::alloc::Global;

/// The timing paths to all pins of a circuit.
///
/// A lane is a timing path: it begins at an input port or at the clock port, passes JTLs, splitters and mergers and, from the clock port,
/// at most one gate from its clock pin to its output, and ends at a pin. Linear in the circuit and in the number of lanes.
///
/// # Errors
///
/// `Pin` names the first pin with more than 64 lanes, and how many it has, cells in the order of the graph and their pins in pin order,
/// output pins last. `Total` holds the first running sum of lanes above 1,000,000. The first of the two in this order of pins is answered,
/// and at one pin `Pin`. `Memory` may come at any time.
pub fn grow(
    alloc: Global,
    graph: &Graph<'_>,
    clocked: &Clocked,
    bench: &Bench,
) -> Result<Lanes, LaneFault>
    requires { IsClocked (design_of graph.now bench.now) clocked.now }
    ensures lanes { IfOk result (AreLanes (design_of graph.now bench.now)) }
    ensures pulses { IfOk result (RunsGoAlong (design_of graph.now bench.now)) }
    ensures fault { IfErr result (IsLaneFault (design_of graph.now bench.now) graph.now.order) }
{
    graph.facts();
    graphs_are_ready();
    runs_have_tags();
    let pins = pins_along(alloc, graph, bench)?;
    let mut growth = Growth::new(alloc, graph.flat().pins.len())?;
    'pins: for place in 0..pins.len() {
        growth.add_pin(graph, bench, &pins, place)?;
    }
    growth.forest.facts();
    let lanes = Lanes::new(alloc, growth)?;
    Ok(lanes)
}
