//! A log over the formula `1`, `-1` of one variable.
ghost use Rattle.std.specs.Prelude.{IfOk};
ghost use Rattle.rsfq_ids.specs.Formula.{IsFormula};

use bumpalo::Bump;
use proof_arena::{Marks, ProofLog, step_holds};
use rsfq_ids::circuit::Cnf;
use rsfq_ids::id::{ClauseId, Id, Lit};
use rsfq_ids::list::{List, NoMemory};
use std::alloc::Global;
use std::test::Fail;

/// The formula of one variable, with the clauses `1` and `-1`.
fn contradiction(alloc: Global) -> Result<Cnf, NoMemory>
    ensures { IfOk result (λ cnf. IsFormula cnf) }
{
    let mut clauses = List::new(alloc);
    let mut positive = List::new(alloc);
    positive.push(Lit::of(0))?;
    let mut negative = List::new(alloc);
    negative.push(Lit::of(1))?;
    clauses.push(positive)?;
    clauses.push(negative)?;
    Ok(Cnf { vars: 1, clauses })
}

#[test]
fn a_log_ends_with_the_empty_clause(rt: HostRuntime) -> Result<(), Fail> {
    let cnf = contradiction(rt.alloc())?;
    let arena = Bump::new(rt.alloc());
    let mut log = ProofLog::new(rt.alloc(), &cnf, &arena);
    let mut marks = Marks::new(rt.alloc(), log.vars())?;
    assert!(rt; !log.ends());
    let hints = [ClauseId::of(0), ClauseId::of(1)];
    assert!(rt; !step_holds(&log, &[], &hints[..1], &mut marks));
    assert!(rt; !step_holds(&log, &[Lit::of(0), Lit::of(1)], &hints, &mut marks));
    assert!(rt; !step_holds(&log, &[Lit::of(2)], &hints, &mut marks));
    let holds = step_holds(&log, &[], &hints, &mut marks);
    assert!(rt; holds);
    let count = log.clauses();
    assert_eq!(rt; count, 2);
    let id = log.add(&[], &hints)?;
    assert_eq!(rt; id.index(), 2);
    assert_eq!(rt; log.steps(), 1);
    assert!(rt; log.ends());
    log.clauses_follow();
    assert_eq!(rt; log.clause(id).len(), 0);
    assert_eq!(rt; log.hints(id).len(), 2);
    Ok(())
}
