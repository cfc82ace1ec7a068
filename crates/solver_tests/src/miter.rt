//! The formulas of small circuits, clause by clause, and what their tabulation answers. The clauses are written by hand, and each log is
//! verified by the checker.
ghost use Rattle.std.specs.Prelude.{IfOk};
ghost use Rattle.rsfq_ids.specs.Formula.{IsFormula};
ghost use Rattle.rsfq_ids.specs.WellFormed.{IsBench, IsFlat, IsTable};
ghost use Rattle.lrat_check.specs.Written.{StandsFor};
ghost use Rattle.solver_tests.specs.Tabulable.{IsTabulable};

use crate::circuits::{
    CELLS, CONSTANT, EIGHT_WIRES, JOINED, NAMED, NEGATED_AND, NO_INPUTS, ONE_AND, OR_OF_NEGATIONS,
    PASSED_THROUGH, REGISTER, REGISTER_AND, SWAPPED, SYMBOLS, THREE_INPUTS, TWO_WIRES, WIRE, WIRES,
    XOR,
};
use aiger_read::read_aiger;
use bumpalo::Bump;
use cell_table::read::read_cells;
use clock_tree::classify;
use cube_proof::tabulate;
use dimacs_text::write_dimacs;
use env_table::bind::bind_env;
use env_table::read::read_env;
use golden_aig::match_ports;
use loading::load_circuit;
use lrat_check::{check_text, write_lrat};
use miter_cnf::{MiterCnf, launches, miter};
use net_graph::{Graph, build};
use proof_arena::{Answer, ProofLog};
use rsfq_ids::circuit::{Bench, Cnf, Flat};
use rsfq_ids::id::{Id, NetId, Var};
use rsfq_ids::table::CellTable;
use std::alloc::Global;
use std::process::Abort;
use std::test::Fail;

/// A netlist and its environment.
type Circuit = (&'static [u8], &'static [u8]);

/// The circuit of a netlist.
fn circuit_of(
    rt: &impl Abort,
    alloc: Global,
    netlist: &[u8],
    cells: &CellTable,
) -> Result<Flat, Fail>
    requires { IsTable cells.now }
    ensures { IfOk result (IsFlat cells.now) }
{
    assert!(rt; netlist.len() < 10_000);
    match load_circuit(alloc, netlist, cells, None) {
        Ok(flat) => Ok(flat),
        Err(_) => panic!(rt; "refused netlist"),
    }
}

/// The bench of a circuit in an environment.
fn bench_of(rt: &impl Abort, alloc: Global, env: &[u8], flat: &Flat) -> Result<Bench, Fail>
    ensures { IfOk result (IsBench flat.now) }
{
    let Ok(lines) = read_env(alloc, env) else {
        panic!(rt; "refused environment");
    };
    match bind_env(alloc, &lines, flat) {
        Ok(bench) => Ok(bench),
        Err(_) => panic!(rt; "refused binding"),
    }
}

/// The miter of a circuit that has a graph, and a golden circuit.
fn miter_on(
    rt: &impl Abort,
    alloc: Global,
    graph: &Graph<'_>,
    bench: &Bench,
    golden: &[u8],
) -> Result<MiterCnf, Fail>
    requires bench { IsBench graph.now.flat bench.now }
    ensures { IfOk result IsTabulable }
{
    graph.facts();
    assert!(rt; golden.len() < 10_000);
    let Ok(aig) = read_aiger(alloc, golden) else {
        panic!(rt; "refused golden circuit");
    };
    let Ok(ports) = match_ports(alloc, &aig, graph.flat(), bench) else {
        panic!(rt; "refused match");
    };
    let Ok(_clocked) = classify(alloc, graph, bench) else {
        panic!(rt; "refused clock");
    };
    assert!(rt; graph.flat().ports.len() <= 2_000_000);
    Ok(miter(alloc, graph, &aig, &ports)?)
}

/// The formula of a launch of two nets of a circuit that has a graph.
fn launch_on(
    rt: &impl Abort,
    alloc: Global,
    graph: &Graph<'_>,
    bench: &Bench,
    first: NetId,
    second: NetId,
) -> Result<MiterCnf, Fail>
    requires { IsBench graph.now.flat bench.now }
    ensures { IfOk result IsTabulable }
{
    let Ok(clocked) = classify(alloc, graph, bench) else {
        panic!(rt; "refused clock");
    };
    assert!(rt; graph.flat().ports.len() <= 2_000_000);
    assert!(rt; first.index() < graph.flat().nets.len());
    assert!(rt; second.index() < graph.flat().nets.len());
    assert!(rt; !clocked.is_clock(first));
    assert!(rt; !clocked.is_clock(second));
    Ok(launches(alloc, graph, bench, first, second)?)
}

/// The miter of a circuit and a golden circuit, given as the texts of their files.
fn miter_of(
    rt: &impl Abort,
    alloc: Global,
    netlist: &[u8],
    env: &[u8],
    golden: &[u8],
) -> Result<MiterCnf, Fail>
    ensures { IfOk result IsTabulable }
{
    let Ok(cells) = read_cells(alloc, CELLS) else {
        panic!(rt; "refused cell table");
    };
    let flat = circuit_of(rt, alloc, netlist, &cells)?;
    let bench = bench_of(rt, alloc, env, &flat)?;
    let Ok(graph) = build(alloc, &flat, &cells) else {
        panic!(rt; "refused graph");
    };
    miter_on(rt, alloc, &graph, &bench, golden)
}

/// The formula of a launch of two nets of a circuit, given as the texts of its files.
fn launch_of(
    rt: &impl Abort,
    alloc: Global,
    netlist: &[u8],
    env: &[u8],
    first: u32,
    second: u32,
) -> Result<MiterCnf, Fail>
    ensures { IfOk result IsTabulable }
{
    let Ok(cells) = read_cells(alloc, CELLS) else {
        panic!(rt; "refused cell table");
    };
    let flat = circuit_of(rt, alloc, netlist, &cells)?;
    let bench = bench_of(rt, alloc, env, &flat)?;
    let Ok(graph) = build(alloc, &flat, &cells) else {
        panic!(rt; "refused graph");
    };
    launch_on(
        rt,
        alloc,
        &graph,
        &bench,
        NetId::of(first),
        NetId::of(second),
    )
}

/// The values of the inputs as digits.
fn digits(alloc: Global, inputs: &[Var], values: &[bool]) -> Result<String, Fail> {
    let mut out = String::new(alloc);
    for input in inputs {
        match values.get(input.index()) {
            Some(true) => out.push_str("1")?,
            _ => out.push_str("0")?,
        }
    }
    Ok(out)
}

/// The text of a log, which the checker verifies.
fn verified_text(
    rt: &impl Abort,
    alloc: Global,
    cnf: &Cnf,
    log: &ProofLog<'_>,
) -> Result<Vec<u8>, Fail>
    requires formula { IsFormula cnf.now }
    requires stands { StandsFor log.now cnf.now }
{
    let mut text = Vec::new(alloc);
    write_lrat(cnf, log, &mut text)?;
    assert!(rt; text.len() < 10_000_000);
    let arena = Bump::new(alloc);
    assert!(rt; check_text(alloc, cnf, &text, &arena).is_ok());
    Ok(text)
}

/// What the tabulation answers: the inputs' values in a solution, or the number of steps of a verified log.
fn tabulated(rt: &impl Abort, alloc: Global, made: &MiterCnf) -> Result<String, Fail>
    requires { IsTabulable made.now }
{
    assert!(rt; made.inputs.len() <= 8);
    let arena = Bump::new(alloc);
    match tabulate(alloc, &made.cnf, &made.inputs, &arena)? {
        Answer::Assignment(values) => { digits(alloc, made.inputs.as_slice(), values.as_slice()) }
        Answer::Refuted(log) => {
            verified_text(rt, alloc, &made.cnf, &log)?;
            Ok(format!(in alloc; "{} steps", log.steps())?)
        }
        Answer::Spent(_) => panic!(rt; "spent"),
    }
}

/// The formula as text, followed by what the tabulation answers.
fn described(rt: &impl Abort, alloc: Global, made: &MiterCnf) -> Result<Vec<u8>, Fail>
    requires { IsTabulable made.now }
{
    let mut out = Vec::new(alloc);
    write_dimacs(&made.cnf, &mut out)?;
    out.extend_from_slice(tabulated(rt, alloc, made)?.as_bytes())?;
    Ok(out)
}

// Each row: a netlist, its environment, a golden circuit, and the miter with what its tabulation answers.
#[test]
fn miters_of_small_circuits(rt: HostRuntime) -> Result<(), Fail> {
    let rows: [(Circuit, &[u8], &str); 12] = [
        (
            REGISTER,
            PASSED_THROUGH,
            "p cnf 4 8\n1 -2 0\n-1 2 0\n-3 0\n-4 2 1 0\n-4 -2 -1 0\n4 -2 1 0\n4 2 -1 0\n4 0\n3 steps",
        ),
        (
            WIRE,
            PASSED_THROUGH,
            "p cnf 3 4\n-2 0\n-3 1 0\n-3 -1 0\n3 0\n3 steps",
        ),
        (
            JOINED,
            OR_OF_NEGATIONS,
            "p cnf 6 13\n1 2 -3 0\n-1 2 3 0\n1 -2 3 0\n-1 -2 3 0\n-4 -2 0\n-4 -1 0\n4 2 1 0\n-5 0\n-6 3 -4 0\n-6 -3 4 0\n6 -3 -4 0\n6 3 4 0\n6 0\n7 steps",
        ),
        (
            REGISTER_AND,
            ONE_AND,
            "p cnf 7 15\n1 -3 0\n-1 3 0\n3 2 -4 0\n-3 2 -4 0\n3 -2 -4 0\n-3 -2 4 0\n-5 2 0\n-5 1 0\n5 -2 -1 0\n-6 0\n-7 4 5 0\n-7 -4 -5 0\n7 -4 5 0\n7 4 -5 0\n7 0\n7 steps",
        ),
        (
            XOR,
            ONE_AND,
            "p cnf 6 13\n1 2 -3 0\n-1 2 3 0\n1 -2 3 0\n-1 -2 -3 0\n-4 2 0\n-4 1 0\n4 -2 -1 0\n-5 0\n-6 3 4 0\n-6 -3 -4 0\n6 -3 4 0\n6 3 -4 0\n6 0\n10",
        ),
        (
            THREE_INPUTS,
            NEGATED_AND,
            "p cnf 8 15\n3 4 0\n-3 -4 0\n4 1 -5 0\n-4 1 -5 0\n4 -1 -5 0\n-4 -1 5 0\n-6 -3 0\n-6 1 0\n6 3 -1 0\n-7 0\n-8 5 6 0\n-8 -5 -6 0\n8 -5 6 0\n8 5 -6 0\n8 0\n15 steps",
        ),
        (
            NAMED,
            SYMBOLS,
            "p cnf 7 14\n1 -3 0\n-1 3 0\n2 -4 0\n-2 4 0\n-5 0\n-6 3 1 0\n-6 -3 -1 0\n6 -3 1 0\n6 3 -1 0\n-7 4 2 0\n-7 -4 -2 0\n7 -4 2 0\n7 4 -2 0\n6 7 0\n7 steps",
        ),
        (
            TWO_WIRES,
            SWAPPED,
            "p cnf 5 6\n-3 0\n-4 1 0\n-4 -1 0\n-5 2 0\n-5 -2 0\n4 5 0\n7 steps",
        ),
        (
            TWO_WIRES,
            b"aag 2 2 0 2 0\n2\n4\n0\n1\n",
            "p cnf 5 10\n-3 0\n-4 1 3 0\n-4 -1 -3 0\n4 -1 3 0\n4 1 -3 0\n-5 2 -3 0\n-5 -2 3 0\n5 -2 -3 0\n5 2 3 0\n4 5 0\n00",
        ),
        (
            WIRE,
            CONSTANT,
            "p cnf 3 6\n-2 0\n-3 1 2 0\n-3 -1 -2 0\n3 -1 2 0\n3 1 -2 0\n3 0\n1",
        ),
        (
            WIRE,
            b"aag 1 1 0 1 0\n2\n3\n",
            "p cnf 3 4\n-2 0\n3 -1 0\n3 1 0\n3 0\n0",
        ),
        (NO_INPUTS, b"aag 0 0 0 0 0\n", "p cnf 1 2\n-1 0\n0\n1 steps"),
    ];
    for ((netlist, env), golden, text) in rows {
        let made = miter_of(&rt, rt.alloc(), netlist, env, golden)?;
        assert_eq!(rt;
            described(&rt, rt.alloc(), &made)?.as_slice(),
            text.as_bytes()
        );
    }
    Ok(())
}

// Eight wires, whose outputs are those of their inputs.
#[test]
fn eight_inputs(rt: HostRuntime) -> Result<(), Fail> {
    let (netlist, env) = EIGHT_WIRES;
    let made = miter_of(&rt, rt.alloc(), netlist, env, WIRES)?;
    assert_eq!(rt; made.differ.len(), 8);
    assert_eq!(rt; tabulated(&rt, rt.alloc(), &made)?.as_str(), "511 steps");
    Ok(())
}

// Each row: a netlist, its environment, two nets, and the formula with what its tabulation answers.
#[test]
fn launches_of_small_circuits(rt: HostRuntime) -> Result<(), Fail> {
    let rows: [(Circuit, (u32, u32), &str); 3] = [
        (
            XOR,
            (3, 3),
            "p cnf 3 5\n1 2 -3 0\n-1 2 3 0\n1 -2 3 0\n-1 -2 -3 0\n3 0\n10",
        ),
        (
            REGISTER_AND,
            (5, 6),
            "p cnf 4 8\n1 -3 0\n-1 3 0\n3 2 -4 0\n-3 2 -4 0\n3 -2 -4 0\n-3 -2 4 0\n3 0\n4 0\n11",
        ),
        (
            THREE_INPUTS,
            (3, 6),
            "p cnf 5 8\n3 4 0\n-3 -4 0\n4 1 -5 0\n-4 1 -5 0\n4 -1 -5 0\n-4 -1 5 0\n3 0\n4 0\n15 steps",
        ),
    ];
    for ((netlist, env), (first, second), text) in rows {
        let made = launch_of(&rt, rt.alloc(), netlist, env, first, second)?;
        assert_eq!(rt; made.differ.len(), 0);
        assert_eq!(rt;
            described(&rt, rt.alloc(), &made)?.as_slice(),
            text.as_bytes()
        );
    }
    Ok(())
}

/// The clauses of a log's text, without their hints.
fn without_hints(alloc: Global, text: &[u8]) -> Result<Vec<u8>, Fail> {
    let mut out = Vec::new(alloc);
    let mut is_clause = true;
    let mut before = b'\n';
    for byte in text {
        if is_clause || *byte == b'\n' {
            out.push(*byte)?;
        }
        if *byte == b'\n' {
            is_clause = true;
        }
        if *byte == b'0' && before == b' ' {
            is_clause = false;
        }
        before = *byte;
    }
    Ok(out)
}

// The words in counting order, and then the empty clause.
#[test]
fn log_of_a_register(rt: HostRuntime) -> Result<(), Fail> {
    let (netlist, env) = REGISTER;
    let made = miter_of(&rt, rt.alloc(), netlist, env, PASSED_THROUGH)?;
    assert!(rt; made.inputs.len() <= 8);
    let arena = Bump::new(rt.alloc());
    match tabulate(rt.alloc(), &made.cnf, &made.inputs, &arena)? {
        Answer::Refuted(log) => {
            let text = verified_text(&rt, rt.alloc(), &made.cnf, &log)?;
            let clauses = without_hints(rt.alloc(), &text)?;
            assert_eq!(rt; clauses.as_slice(), b"9 1 0\n10 -1 0\n11 0\n".as_slice());
        }
        _ => panic!(rt; "no refutation"),
    }
    Ok(())
}
