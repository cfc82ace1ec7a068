//! The clauses of the gates and mergers.

ghost use Rattle.std.specs.Prelude.{◌≡◌, ℕ, ◌+◌, ◌*◌, ◌<◌, ◌≤◌, ◌^◌, ◌++◌, if◌then◌else◌, [], List, length, map, OnOk, IfOk};
ghost use Rattle.std.specs.List.{All};
ghost use Rattle.rsfq_ids.specs.Circuit.{PinsRead, InputNets};
ghost use Rattle.rsfq_ids.specs.Formula.{Clause};
ghost use Rattle.net_graph.specs.Graph.{HasPin, IsRowOf};
ghost use Rattle.cell_truth.specs.Truth.{truth_clauses};
ghost use Rattle.miter_cnf.specs.Variables.{literals_at, variable_of, variables_before, cell_variables, has_variable, IsGroup, AreCellClauses};

use cell_truth::pins::add_rows;
use net_graph::Graph;
use rsfq_ids::id::{CellId, Id, Lit};
use rsfq_ids::list::{List, NoMemory};
use rsfq_ids::table::{CellRow, Kind};
use std::alloc::Global;

/// The literals of the nets that the first pins of a cell read.
fn literals_read(
    alloc: Global,
    graph: &Graph<'_>,
    variables: &[u32],
    cell: CellId,
    pins: usize,
) -> Result<Vec<Lit>, NoMemory>
    requires pins { (pin : ℕ) → pin < pins → HasPin graph.now cell pin }
    requires few { pins ≤ 4 }
    requires nets { length variables.now ≡ length graph.now.flat.nets }
    requires small { All (λ variable. variable < 2 ^ 30) variables.now }
    ensures { IfOk result (λ literals. (nets : List ℕ) × PinsRead graph.now.flat cell pins nets × (literals.items ≡ literals_at variables.now nets)) }
{
    let mut literals = Vec::new(alloc);
    for pin in 0..pins {
        let net = graph.net_read(cell, pin as u8);
        literals.push(Lit::of(2 * variables[net.index()]))?;
    }
    Ok(literals)
}

/// Adds the clauses of a gate or merger, from its truth table.
fn add_joining(
    alloc: Global,
    graph: &Graph<'_>,
    variables: &[u32],
    cell: CellId,
    row: &CellRow,
    rows: u16,
    own: u32,
    into: &mut List<List<Lit>>,
) -> Result<(), NoMemory>
    requires row { IsRowOf graph.now cell row.now }
    requires some { 1 ≤ length row.now.inputs }
    requires pins { length row.now.inputs ≤ 4 }
    requires nets { length variables.now ≡ length graph.now.flat.nets }
    requires small { All (λ variable. variable < 2 ^ 30) variables.now }
    requires few { own < 2 ^ 30 }
    ensures { OnOk result ((nets : List ℕ) × InputNets graph.now.flat cell row.now nets × (into.new ≡ into.old ++ truth_clauses rows (length row.now.inputs) (literals_at variables.now nets) (2 * own))) }
{
    let literals = literals_read(alloc, graph, variables, cell, row.inputs.len())?;
    add_rows(alloc, rows, literals.as_slice(), Lit::of(2 * own), into)
}

/// Adds the clauses of a cell whose variable, if it has one of its own, is this.
fn add_group(
    alloc: Global,
    graph: &Graph<'_>,
    inputs: u32,
    variables: &[u32],
    cell: CellId,
    own: u32,
    into: &mut List<List<Lit>>,
) -> Result<(), NoMemory>
    requires there { cell < length graph.now.flat.cells }
    requires nets { length variables.now ≡ length graph.now.flat.nets }
    requires small { All (λ variable. variable < 2 ^ 30) variables.now }
    requires own { own ≡ variable_of graph.now inputs cell }
    requires few { own < 2 ^ 30 }
    ensures { OnOk result ((group : List Clause) × IsGroup graph.now inputs variables.now cell group × (into.new ≡ into.old ++ group)) }
{
    let row = graph.row(cell);
    match row.kind {
        Kind::Jtl | Kind::Split => Ok(()),
        Kind::Merge => add_joining(alloc, graph, variables, cell, row, 0b1110, own, into),
        Kind::Gate => add_joining(alloc, graph, variables, cell, row, row.truth, own, into),
    }
}

/// Whether a cell has a variable of its own.
fn has_variable(graph: &Graph<'_>, cell: CellId) -> bool
    requires { cell < length graph.now.flat.cells }
    ensures { result ≡ has_variable graph.now cell }
{
    match graph.row(cell).kind {
        Kind::Jtl | Kind::Split => false,
        Kind::Merge | Kind::Gate => true,
    }
}

/// The next variable after a cell.
pub(crate) fn next_variable(graph: &Graph<'_>, cell: CellId, own: u32) -> u32
    requires there { cell < length graph.now.flat.cells }
    requires few { own < 2 ^ 30 }
    ensures { result ≡ own + (if has_variable graph.now cell then 1 else 0) }
{
    if has_variable(graph, cell) {
        own + 1
    } else {
        own
    }
}

/// Adds the clauses of all gates and mergers, in cell order, and answers the variable after theirs.
pub(crate) fn add_groups(
    alloc: Global,
    graph: &Graph<'_>,
    inputs: u32,
    variables: &[u32],
    into: &mut List<List<Lit>>,
) -> Result<u32, NoMemory>
    requires empty { into.old ≡ [] }
    requires nets { length variables.now ≡ length graph.now.flat.nets }
    requires small { All (λ variable. variable < 2 ^ 30) variables.now }
    requires few { inputs + length graph.now.flat.cells < 2 ^ 30 }
    ensures groups { OnOk result (AreCellClauses graph.now inputs variables.now (length graph.now.flat.cells) into.new) }
    ensures end { IfOk result (λ end. end ≡ inputs + cell_variables graph.now) }
{
    let mut own = inputs;
    for place in 0..graph.flat().cells.len() {
        let cell = CellId::of(place as u32);
        add_group(alloc, graph, inputs, variables, cell, own, into)?;
        own = next_variable(graph, cell, own);
    }
    Ok(own)
}
