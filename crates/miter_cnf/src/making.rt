//! The miter and the formula of a launch.

ghost use Rattle.std.specs.Prelude.{◌≡◌, ◌≢◌, ℕ, ◌+◌, ◌*◌, ◌<◌, ◌≤◌, ◌^◌, ◌++◌, ◌∷◌, [], length, map, IfOk, OnOk};
ghost use Rattle.std.specs.List.{All, AllPairs, flat_map};
ghost use Rattle.rsfq_ids.specs.declared.circuit.Bench.{Bench};
ghost use Rattle.rsfq_ids.specs.Formula.{IsFormula, opposite};
ghost use Rattle.rsfq_ids.specs.Propagation.{InputsDecide};
ghost use Rattle.golden_aig.specs.Matched.{data_inputs};
ghost use Rattle.cell_truth.specs.Clause.{written};
ghost use Rattle.miter_cnf.specs.Variables.{variable_at};
ghost use Rattle.miter_cnf.specs.Miter.{constant_of, and_clauses, IsMiter, IsLaunch};
ghost use Rattle.miter_cnf.specs.Laws.{AreComparable, MeansDifference, CanLaunch, MeansLaunch};
ghost use Rattle.miter_cnf.specs.Fits.{HasFew, IsKnown, CanBeMade};

use crate::cells::add_groups;
use crate::facts::{launches_are_sound, miters_are_sound};
use crate::golden::{add_ands, add_differs, variables_from};
use crate::made::{MiterCnf, Sorts};
use crate::naming::name_nets;
use crate::outputs::literals_shown;
use cell_truth::clause::add_clause;
use golden_aig::{Aig, Match};
use net_graph::Graph;
use rsfq_ids::circuit::{Bench, Cnf};
use rsfq_ids::id::{Id, Lit, NetId, PortId, Var};
use rsfq_ids::list::{List, NoMemory};
use std::alloc::Global;

/// Adds the clause that some of the variables is 1.
fn add_some(alloc: Global, variables: &[Var], into: &mut List<List<Lit>>) -> Result<(), NoMemory>
    requires { All (λ variable. variable < 2 ^ 31) variables.now }
    ensures { OnOk result (into.new ≡ into.old ++ written (map (λ variable. 2 * variable) variables.now)) }
{
    let mut literals = Vec::new(alloc);
    for variable in variables {
        literals.push(Lit::of(2 * variable.index() as u32))?;
    }
    add_clause(alloc, literals.as_slice(), into)
}

/// Adds the clauses of the golden circuit: of its ANDs, and that the constant is false.
fn add_golden(
    alloc: Global,
    sorts: Sorts,
    aig: &Aig,
    into: &mut List<List<Lit>>,
) -> Result<(), NoMemory>
    requires few { HasFew sorts }
    requires known { All (IsKnown sorts) aig.now.ands }
    ensures { OnOk result (into.new ≡ into.old ++ flat_map (and_clauses sorts) aig.now.ands ++ written (opposite (2 * constant_of sorts) ∷ [])) }
{
    add_ands(alloc, sorts, aig.ands.as_slice(), into)?;
    let constant = Lit::of(2 * (sorts.inputs + sorts.cells + sorts.ands));
    add_clause(alloc, &[constant.opposite()], into)
}

/// The miter of parts whose numbers are known to be few.
fn make_miter(
    alloc: Global,
    graph: &Graph<'_>,
    aig: &Aig,
    ports: &Match,
) -> Result<MiterCnf, NoMemory>
    requires { CanBeMade graph.now aig.now ports.now }
    ensures { IfOk result (IsMiter graph.now aig.now ports.now) }
{
    let inputs = ports.inputs.len() as u32;
    let variables = name_nets(alloc, graph, ports.inputs.as_slice())?;
    let mut clauses = List::new(alloc);
    let end = add_groups(alloc, graph, inputs, variables.as_slice(), &mut clauses)?;
    let sorts = Sorts {
        inputs,
        cells: end - inputs,
        ands: aig.ands.len() as u32,
    };
    add_golden(alloc, sorts, aig, &mut clauses)?;
    let nets = literals_shown(alloc, graph, variables.as_slice(), ports.outputs.as_slice())?;
    let first = end + sorts.ands + 1;
    add_differs(
        alloc,
        sorts,
        first,
        nets.as_slice(),
        aig.outputs.as_slice(),
        &mut clauses,
    )?;
    let differ = variables_from(alloc, first, aig.outputs.len())?;
    add_some(alloc, differ.as_slice(), &mut clauses)?;
    Ok(MiterCnf {
        cnf: Cnf {
            vars: first + aig.outputs.len() as u32,
            clauses,
        },
        inputs: variables_from(alloc, 0, inputs as usize)?,
        differ,
    })
}

/// The miter of a circuit and its golden circuit. It has a solution exactly where under some word some output has one value in the circuit
/// and another in the golden circuit, and the inputs of a solution are such a word.
///
/// The variables are the inputs of the golden circuit in its order, then one for each gate and each merger in cell order, one for each
/// AND, one for the constant false, and one for each output. The clauses are those of the cells, one for each row of a truth table, then
/// those of the ANDs, of the constant and of the differences of outputs, and last that some output differs. The inputs decide all
/// variables by unit propagation. It takes time and memory linear in the numbers of cells and ANDs.
///
/// # Errors
///
/// `NoMemory` alone, which may come at any time.
pub fn miter(
    alloc: Global,
    graph: &Graph<'_>,
    aig: &Aig,
    ports: &Match,
) -> Result<MiterCnf, NoMemory>
    requires { (bench : Bench) × AreComparable graph.now aig.now ports.now bench }
    ensures made { IfOk result (IsMiter graph.now aig.now ports.now) }
    ensures means { IfOk result (λ made. (bench : Bench) → AreComparable graph.now aig.now ports.now bench → MeansDifference graph.now aig.now ports.now bench made) }
    ensures formula { IfOk result (λ made. IsFormula made.cnf) }
    ensures decide { IfOk result (λ made. InputsDecide made.cnf made.inputs) }
    ensures vars { IfOk result (λ made. All (λ input. input < made.cnf.vars) made.inputs) }
    ensures once { IfOk result (λ made. AllPairs (λ one other. one ≢ other) made.inputs) }
{
    graph.facts();
    miters_are_sound();
    make_miter(alloc, graph, aig, ports)
}

/// The clauses of the cells, and that two nets are 1.
fn make_launch(
    alloc: Global,
    graph: &Graph<'_>,
    inputs: &[PortId],
    first: NetId,
    second: NetId,
) -> Result<MiterCnf, NoMemory>
    requires ports { All (λ input. input < length graph.now.flat.ports) inputs.now }
    requires once { AllPairs (λ one other. one ≢ other) inputs.now }
    requires few { length inputs.now + length graph.now.flat.cells < 2 ^ 30 }
    requires first { first < length graph.now.flat.nets }
    requires second { second < length graph.now.flat.nets }
    ensures { IfOk result (IsLaunch graph.now inputs.now first second) }
{
    let variables = name_nets(alloc, graph, inputs)?;
    let mut clauses = List::new(alloc);
    let end = add_groups(
        alloc,
        graph,
        inputs.len() as u32,
        variables.as_slice(),
        &mut clauses,
    )?;
    add_unit(alloc, variables.as_slice(), first, &mut clauses)?;
    if first.index() != second.index() {
        add_unit(alloc, variables.as_slice(), second, &mut clauses)?;
    }
    Ok(MiterCnf {
        cnf: Cnf { vars: end, clauses },
        inputs: variables_from(alloc, 0, inputs.len())?,
        differ: List::new(alloc),
    })
}

/// Adds the clause that a net is 1.
fn add_unit(
    alloc: Global,
    variables: &[u32],
    net: NetId,
    into: &mut List<List<Lit>>,
) -> Result<(), NoMemory>
    requires net { net < length variables.now }
    requires small { All (λ variable. variable < 2 ^ 30) variables.now }
    ensures { OnOk result (into.new ≡ into.old ++ ((2 * variable_at variables.now net) ∷ []) ∷ []) }
{
    let mut clause = List::new(alloc);
    clause.push(Lit::of(2 * variables[net.index()]))?;
    into.push(clause)
}

/// The data inputs of a bench, in port order.
fn inputs_of(alloc: Global, bench: &Bench) -> Result<Vec<PortId>, NoMemory>
    ensures { IfOk result (λ ports. ports.items ≡ data_inputs bench.now) }
{
    let mut ports = Vec::new(alloc);
    for (place, used) in bench.uses.as_slice().iter().enumerate() {
        if used.is_data() {
            ports.push(PortId::of(place as u32))?;
        }
    }
    Ok(ports)
}

/// The formula that has a solution exactly where under some word two nets, which may be one, are both 1; the inputs of a solution are such
/// a word.
///
/// The variables are the data inputs in port order, and then one for each gate and each merger in cell order. The clauses are those of
/// the cells, one for each row of a truth table, then the literal of `first`, and that of `second` where it is another net. The list
/// `differ` is empty. The inputs decide all variables by unit propagation. It takes time and memory linear in the number of cells.
///
/// # Errors
///
/// `NoMemory` alone, which may come at any time.
pub fn launches(
    alloc: Global,
    graph: &Graph<'_>,
    bench: &Bench,
    first: NetId,
    second: NetId,
) -> Result<MiterCnf, NoMemory>
    requires { CanLaunch graph.now bench.now first second }
    ensures made { IfOk result (IsLaunch graph.now (data_inputs bench.now) first second) }
    ensures means { IfOk result (MeansLaunch graph.now bench.now first second) }
    ensures formula { IfOk result (λ made. IsFormula made.cnf) }
    ensures decide { IfOk result (λ made. InputsDecide made.cnf made.inputs) }
    ensures vars { IfOk result (λ made. All (λ input. input < made.cnf.vars) made.inputs) }
    ensures once { IfOk result (λ made. AllPairs (λ one other. one ≢ other) made.inputs) }
{
    graph.facts();
    launches_are_sound();
    let inputs = inputs_of(alloc, bench)?;
    make_launch(alloc, graph, inputs.as_slice(), first, second)
}
