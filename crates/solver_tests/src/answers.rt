//! Answers on small formulas. Each log is written as a text and verified by the checker.
ghost use Rattle.std.specs.Prelude.{◌≤◌};
ghost use Rattle.rsfq_ids.specs.Formula.{IsFormula};
ghost use Rattle.lrat_check.specs.Written.{StandsFor};

use crate::formulas::{NINE_WIRES, WIRE, pigeons};
use bumpalo::Bump;
use cdcl_search::solve;
use dimacs_text::read_dimacs;
use lrat_check::{LratWhy, check_text, write_lrat};
use proof_arena::{Answer, ProofLog};
use rsfq_ids::circuit::Cnf;
use std::alloc::Global;
use std::process::Abort;
use std::test::Fail;

/// An answer's kind, and how many steps its log has.
#[derive(Clone, Copy, Debug, PartialEq, Eq)]
enum Outcome {
    Satisfied,
    Refuted(u32),
    Spent(u32),
}

/// What the checker says of the text of a log: `Ok`, or `NoEmpty` where each line holds and none adds the empty clause.
fn check_log(
    rt: &impl Abort,
    alloc: Global,
    cnf: &Cnf,
    log: &ProofLog<'_>,
) -> Result<Option<LratWhy>, Fail>
    requires formula { IsFormula cnf.now }
    requires stands { StandsFor log.now cnf.now }
{
    let mut text = Vec::new(alloc);
    write_lrat(cnf, log, &mut text)?;
    assert!(rt; text.len() < 1_000_000);
    let arena = Bump::new(alloc);
    match check_text(alloc, cnf, &text, &arena) {
        Ok(()) => Ok(None),
        Err(fault) => Ok(Some(fault.why)),
    }
}

/// Solves the formula of a text, and checks the answer.
fn outcome_of(rt: &impl Abort, alloc: Global, text: &[u8], budget: u32) -> Result<Outcome, Fail>
    requires { budget ≤ 1000000 }
{
    assert!(rt; text.len() < 1_000_000);
    let Ok(cnf) = read_dimacs(alloc, text) else {
        panic!(rt; "refused formula");
    };
    let arena = Bump::new(alloc);
    match solve(alloc, &cnf, budget, &arena)? {
        Answer::Assignment(values) => {
            assert_eq!(rt; values.len(), cnf.vars as usize);
            Ok(Outcome::Satisfied)
        }
        Answer::Refuted(log) => {
            assert_eq!(rt; check_log(rt, alloc, &cnf, &log)?, None);
            Ok(Outcome::Refuted(log.steps()))
        }
        Answer::Spent(log) => {
            assert_eq!(rt; check_log(rt, alloc, &cnf, &log)?, Some(LratWhy::NoEmpty));
            Ok(Outcome::Spent(log.steps()))
        }
    }
}

// Each row: a formula, the budget, and the answer.
#[test]
fn small_formulas(rt: HostRuntime) -> Result<(), Fail> {
    let rows: [(&[u8], u32, Outcome); 12] = [
        (b"p cnf 0 0\n", 0, Outcome::Satisfied),
        (b"p cnf 3 0\n", 0, Outcome::Satisfied),
        (b"p cnf 2 1\n1 2 0\n", 0, Outcome::Satisfied),
        (b"p cnf 3 3\n1 0\n-2 0\n3 0\n", 0, Outcome::Satisfied),
        (b"p cnf 2 2\n1 -1 0\n-2 0\n", 0, Outcome::Satisfied),
        (b"p cnf 1 1\n0\n", 0, Outcome::Refuted(1)),
        (b"p cnf 2 2\n1 2 0\n0\n", 1000, Outcome::Refuted(1)),
        (b"p cnf 2 2\n1 0\n-1 0\n", 0, Outcome::Refuted(1)),
        (b"p cnf 2 3\n1 0\n-1 2 0\n-2 0\n", 0, Outcome::Refuted(1)),
        (
            b"p cnf 2 4\n1 2 0\n1 -2 0\n-1 2 0\n-1 -2 0\n",
            0,
            Outcome::Spent(0),
        ),
        (
            b"p cnf 2 4\n1 2 0\n1 -2 0\n-1 2 0\n-1 -2 0\n",
            1,
            Outcome::Refuted(2),
        ),
        (NINE_WIRES, 1, Outcome::Spent(1)),
    ];
    for (text, budget, outcome) in rows {
        assert!(rt; budget <= 1000);
        assert_eq!(rt; outcome_of(&rt, rt.alloc(), text, budget)?, outcome);
    }
    Ok(())
}

/// The least budget, up to 1000, with which a formula is refuted. With each lower one as many clauses are learnt, and the refutation has one
/// step more than its budget.
fn least_budget(rt: &impl Abort, alloc: Global, text: &[u8]) -> Result<Option<u32>, Fail> {
    for budget in 0..1000 {
        match outcome_of(rt, alloc, text, budget)? {
            Outcome::Satisfied => return Ok(None),
            Outcome::Spent(steps) => assert_eq!(rt; steps, budget),
            Outcome::Refuted(steps) => {
                assert_eq!(rt; steps, budget + 1);
                return Ok(Some(budget));
            }
        }
    }
    Ok(None)
}

#[test]
fn budgets_are_used_up(rt: HostRuntime) -> Result<(), Fail> {
    let alloc = rt.alloc();
    let holes = pigeons(alloc, 3)?;
    let rows: [&[u8]; 3] = [WIRE, NINE_WIRES, &holes];
    for text in rows {
        let least = least_budget(&rt, alloc, text)?;
        assert!(rt; least.is_some());
    }
    Ok(())
}

// With the budget that a user has by default.
#[test]
fn six_pigeons_in_five_holes(rt: HostRuntime) -> Result<(), Fail> {
    let alloc = rt.alloc();
    let holes = pigeons(alloc, 5)?;
    let rows: [&[u8]; 2] = [NINE_WIRES, &holes];
    for text in rows {
        match outcome_of(&rt, alloc, text, 100_000)? {
            Outcome::Refuted(_) => {}
            _ => panic!(rt; "not refuted"),
        }
    }
    Ok(())
}

// The values of a formula of unit clauses.
#[test]
fn unit_clauses_give_the_values(rt: HostRuntime) -> Result<(), Fail> {
    let Ok(cnf) = read_dimacs(rt.alloc(), b"p cnf 3 3\n1 0\n-2 0\n3 0\n") else {
        panic!(rt; "refused formula");
    };
    let arena = Bump::new(rt.alloc());
    let Answer::Assignment(values) = solve(rt.alloc(), &cnf, 0, &arena)? else {
        panic!(rt; "no solution");
    };
    assert_eq!(rt; values.as_slice(), [true, false, true].as_slice());
    Ok(())
}
