//! A whole binary file.

ghost use Rattle.std.specs.Prelude.{◌<◌, ◌^◌, length, IfOk, IfErr};
ghost use Rattle.golden_aig.specs.Aig.{IsAig};
ghost use Rattle.aiger_parts.specs.Reading.{Gives};
ghost use Rattle.aiger_read.specs.Graph.{graph_at, ReadsAs, IsBinaryFault};

use aiger_parts::{
    AigerFault, Form, ReadStop, fault_of, take_ands, take_header, take_outputs, take_symbols,
};
use golden_aig::Aig;
use rsfq_ids::list::List;
use std::alloc::Global;

/// The graph of the bytes, or why they are none.
#[tactic(auto, unfolding(crate::specs::Graph::graph_at))]
fn take_graph(alloc: Global, bytes: &[u8]) -> Result<Aig, ReadStop>
    ensures { Gives (λ x. x) result (graph_at bytes.now) }
{
    let (header, rest) = take_header(Form::Binary, bytes)?;
    let top = 2 * (header.inputs + header.ands) + 1;
    let (outputs, rest) = take_outputs(alloc, top, header.outputs, rest)?;
    let (ands, rest) = take_ands(alloc, header.inputs, header.ands, rest)?;
    let symbols = take_symbols(alloc, header.inputs, header.outputs, rest)?;
    Ok(Aig {
        inputs: header.inputs,
        ands,
        outputs,
        in_names: List::of(symbols.inputs),
        out_names: List::of(symbols.outputs),
    })
}

/// Reads a binary AIGER file of less than 2^32 bytes, with its symbols.
///
/// # Errors
///
/// As for [`crate::read_aiger`], but no `Undefined` and no `Cycle`.
pub(crate) fn read_binary(alloc: Global, bytes: &[u8]) -> Result<Aig, AigerFault>
    requires { length bytes.now < 2 ^ 32 }
    ensures reads { IfOk result (λ aig. ReadsAs bytes.now aig) }
    ensures graph { IfOk result (λ aig. IsAig aig) }
    ensures fault { IfErr result (λ fault. IsBinaryFault bytes.now fault) }
{
    match take_graph(alloc, bytes) {
        Ok(aig) => Ok(aig),
        Err(stop) => Err(fault_of(bytes.len(), stop)),
    }
}
