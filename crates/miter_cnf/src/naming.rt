//! The variable of each net.

ghost use Rattle.std.specs.Prelude.{◌≡◌, ◌≢◌, ℕ, ◌+◌, ◌*◌, ◌<◌, ◌≤◌, ◌^◌, [], length, take, slice_get, slice_index_or, Some, IfOk};
ghost use Rattle.std.specs.List.{All, AllPairs, Contains};
ghost use Rattle.rsfq_ids.specs.declared.circuit.Driver.TheVariants as driver;
ghost use Rattle.rsfq_ids.specs.Circuit.{IsDrivenBy};
ghost use Rattle.rsfq_ids.specs.Offence.{ReadsFrom};
ghost use Rattle.miter_cnf.specs.Variables.{variable_of, variable_at, cell_variables, AreVariables};
ghost use Rattle.miter_cnf.specs.Named.{AreNumbers, AreNamed, IsGiven};

use crate::cells::next_variable;
use net_graph::Graph;
use rsfq_ids::circuit::Driver;
use rsfq_ids::id::{CellId, Id, PortId};
use rsfq_ids::list::NoMemory;
use rsfq_ids::table::Kind;
use std::alloc::Global;

/// For each port its place among the inputs, and 0 where it is none.
fn place_ports(alloc: Global, ports: usize, inputs: &[PortId]) -> Result<Vec<u32>, NoMemory>
    requires ports { All (λ input. input < ports) inputs.now }
    requires once { AllPairs (λ one other. one ≢ other) inputs.now }
    requires few { length inputs.now < 2 ^ 30 }
    ensures many { IfOk result (λ places. length places.items ≡ ports) }
    ensures small { IfOk result (λ places. All (λ place. place < 2 ^ 30) places.items) }
    ensures places { IfOk result (λ places. (place port : ℕ) → slice_get inputs.now place ≡ Some port → slice_index_or places.items port 0 ≡ place) }
{
    let mut places = vec![in alloc; 0; ports]?;
    for (place, input) in inputs.iter().enumerate() {
        places[input.index()] = place as u32;
    }
    Ok(places)
}

/// The variable of each cell, where it has one of its own.
fn number_cells(alloc: Global, graph: &Graph<'_>, inputs: u32) -> Result<Vec<u32>, NoMemory>
    requires few { inputs + length graph.now.flat.cells < 2 ^ 30 }
    ensures { IfOk result (λ numbers. AreNumbers graph.now inputs (length graph.now.flat.cells) numbers.items) }
{
    let mut numbers = Vec::new(alloc);
    let mut own = inputs;
    for place in 0..graph.flat().cells.len() {
        numbers.push(own)?;
        own = next_variable(graph, CellId::of(place as u32), own);
    }
    Ok(numbers)
}

/// For each net of an input port that port's place among the inputs; 0 for any other net.
fn name_ports(alloc: Global, graph: &Graph<'_>, inputs: &[PortId]) -> Result<Vec<u32>, NoMemory>
    requires ports { All (λ input. input < length graph.now.flat.ports) inputs.now }
    requires once { AllPairs (λ one other. one ≢ other) inputs.now }
    requires few { length inputs.now < 2 ^ 30 }
    ensures named { IfOk result (λ variables. AreNamed graph.now inputs.now [] variables.items) }
    ensures small { IfOk result (λ variables. All (λ variable. variable < 2 ^ 30) variables.items) }
{
    graph.facts();
    let places = place_ports(alloc, graph.flat().ports.len(), inputs)?;
    let mut variables = Vec::new(alloc);
    for source in graph.flat().nets.as_slice() {
        variables.push(port_place(&places, *source))?;
    }
    Ok(variables)
}

/// The place of a driver's port, or 0 where it has none.
fn port_place(places: &Vec<u32>, source: Driver) -> u32
    ensures port { (port : ℕ) → source ≡ driver.Port port → result ≡ slice_index_or places.now.items port 0 }
    ensures small { All (λ place. place < 2 ^ 30) places.now.items → result < 2 ^ 30 }
{
    match source {
        Driver::Port(port) => match places.get(port.index()) {
            Some(place) => *place,
            None => 0,
        },
        Driver::Out(_, _) => 0,
    }
}

/// Gives all outputs of a cell a variable.
fn name_outputs(graph: &Graph<'_>, cell: CellId, variable: u32, variables: &mut Vec<u32>)
    requires there { cell < length graph.now.flat.cells }
    requires nets { length variables.old.items ≡ length graph.now.flat.nets }
    requires small { All (λ variable. variable < 2 ^ 30) variables.old.items }
    requires variable { variable < 2 ^ 30 }
    ensures nets { length variables.new.items ≡ length graph.now.flat.nets }
    ensures small { All (λ variable. variable < 2 ^ 30) variables.new.items }
    ensures own { (net out : ℕ) → IsDrivenBy graph.now.flat net (driver.Out cell out) → variable_at variables.new.items net ≡ variable }
    ensures others { (net : ℕ) → ((out : ℕ) → ¬ IsDrivenBy graph.now.flat net (driver.Out cell out)) → variable_at variables.new.items net ≡ variable_at variables.old.items net }
{
    graph.facts();
    let row = graph.row(cell);
    for out in 0..row.outputs.len() {
        let net = graph.net(cell, out as u8);
        variables[net.index()] = variable;
    }
}

/// The variable of a cell's outputs: its own, or that of the net that it copies.
fn variable_given(graph: &Graph<'_>, numbers: &[u32], cell: CellId, variables: &[u32]) -> u32
    requires there { cell < length graph.now.flat.cells }
    requires numbers { length numbers.now ≡ length graph.now.flat.cells }
    requires nets { length variables.now ≡ length graph.now.flat.nets }
    ensures { IsGiven graph.now numbers.now variables.now cell result }
{
    graph.facts();
    match graph.row(cell).kind {
        Kind::Jtl | Kind::Split => variables[graph.net_read(cell, 0).index()],
        Kind::Merge | Kind::Gate => numbers[cell.index()],
    }
}

/// The variable of each net: the inputs come first, and then the gates and mergers in cell order.
pub(crate) fn name_nets(
    alloc: Global,
    graph: &Graph<'_>,
    inputs: &[PortId],
) -> Result<Vec<u32>, NoMemory>
    requires ports { All (λ input. input < length graph.now.flat.ports) inputs.now }
    requires once { AllPairs (λ one other. one ≢ other) inputs.now }
    requires few { length inputs.now + length graph.now.flat.cells < 2 ^ 30 }
    ensures named { IfOk result (λ variables. AreVariables graph.now inputs.now variables.items) }
    ensures small { IfOk result (λ variables. All (λ variable. variable < 2 ^ 30) variables.items) }
{
    graph.facts();
    let numbers = number_cells(alloc, graph, inputs.len() as u32)?;
    let mut variables = name_ports(alloc, graph, inputs)?;
    for cell in graph.order() {
        let variable = variable_given(graph, numbers.as_slice(), *cell, variables.as_slice());
        name_outputs(graph, *cell, variable, &mut variables);
    }
    Ok(variables)
}
