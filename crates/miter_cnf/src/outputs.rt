//! The literals of the nets that outputs read.

ghost use Rattle.std.specs.Prelude.{◌≡◌, ℕ, ◌*◌, ◌<◌, ◌^◌, length, map, List, IfOk};
ghost use Rattle.std.specs.List.{All, AllZip};
ghost use Rattle.rsfq_ids.specs.declared.circuit.Reader.TheVariants as reader;
ghost use Rattle.rsfq_ids.specs.Circuit.{Reads};
ghost use Rattle.net_graph.specs.Graph.{IsOutputBit};
ghost use Rattle.miter_cnf.specs.Variables.{variable_at};

use net_graph::Graph;
use rsfq_ids::id::{Id, Lit, NetId, PortId};
use rsfq_ids::list::NoMemory;
use std::alloc::Global;

/// The net that an output bit reads.
fn net_shown(graph: &Graph<'_>, port: PortId) -> NetId
    requires { IsOutputBit graph.now.flat port }
    ensures { Reads graph.now.flat (reader.Port port) result }
{
    match graph.flat().pins.get(graph.port_pin(port)) {
        Some(pin) => pin.net,
        None => unreachable!(),
    }
}

/// The literals of the nets that outputs read, in their order.
pub(crate) fn literals_shown(
    alloc: Global,
    graph: &Graph<'_>,
    variables: &[u32],
    outputs: &[PortId],
) -> Result<Vec<Lit>, NoMemory>
    requires outputs { All (IsOutputBit graph.now.flat) outputs.now }
    requires nets { length variables.now ≡ length graph.now.flat.nets }
    requires small { All (λ variable. variable < 2 ^ 30) variables.now }
    ensures { IfOk result (λ literals. (nets : List ℕ) × AllZip (λ port net. Reads graph.now.flat (reader.Port port) net) outputs.now nets × (literals.items ≡ map (λ net. 2 * variable_at variables.now net) nets)) }
{
    graph.facts();
    let mut literals = Vec::new(alloc);
    for port in outputs {
        let net = net_shown(graph, *port);
        literals.push(Lit::of(2 * variables[net.index()]))?;
    }
    Ok(literals)
}
