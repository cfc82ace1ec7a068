//! Proofs of small formulas.
use bumpalo::Bump;
use dimacs_text::read_dimacs;
use lrat_check::{
    LratWhy, additions_are_steps, check_text, ended_log_is_accepted, faults_break, write_lrat,
};
use proof_arena::{Marks, ProofLog, step_holds};
use rsfq_ids::id::{ClauseId, Id, Lit};
use std::alloc::Global;
use std::process::Abort;
use std::test::Fail;

const CHAIN: &[u8] = b"p cnf 2 3\n1 0\n-1 2 0\n-2 0\n";

/// A formula of one clause, which is empty.
const EMPTY: &[u8] = b"p cnf 1 1\n0\n";

const WIRE: &[u8] =
    b"p cnf 4 8\n1 -2 0\n-1 2 0\n-3 0\n-4 2 1 0\n-4 -2 -1 0\n4 -2 1 0\n4 2 -1 0\n4 0\n";

/// Formulas whose clauses name one variable, and the proofs more.
const FIVE: &[u8] = b"p cnf 5 2\n1 0\n-1 0\n";

const MANY: &[u8] = b"p cnf 2147483647 2\n1 0\n-1 0\n";

#[test]
fn proofs_are_verified(rt: HostRuntime) -> Result<(), Fail> {
    let proofs: [(&[u8], &[u8]); 15] = [
        (CHAIN, b"4 2 0 1 1 2 0\n5 0 4 3 0\n"),
        (WIRE, b"9 1 0 1 8 4 0\n10 -1 0 2 8 5 0\n11 0 9 10 0\n"),
        (CHAIN, b"4 0 1 2 3 0"),
        (
            CHAIN,
            b"c by hand\n\n4  2 0  1 2 0\n7 d 1 2 0\n4294967295 0 3 4 0\n",
        ),
        (CHAIN, b"4 0 1 2 3 99 0\n"),
        (CHAIN, b"4 0 1 2 3 0\n5 1 0 1 0\n6 d 4 0\n"),
        (CHAIN, b"4 2 2 0 1 2 0\n5 0 4 3 0\n"),
        (CHAIN, b"0004 0 0001 2 3 0\n"),
        (CHAIN, b"4 0 1 2 3 -9 2 0\n"),
        (CHAIN, b"4 2 0 1 2 0\n0 d 0002 0\n1 d 0\nc d\n5 0 4 3 0\n"),
        (EMPTY, b"2 0 1 0\n"),
        (b"p cnf 1 2\n1 1 0\n-1 -1 0\n", b"3 0 1 2 0\n"),
        (
            b"p cnf 2147483647 2\n2147483647 0\n-2147483647 0\n",
            b"3 0 1 2 0\n",
        ),
        (FIVE, b"3 5 0 1 2 0\n4 -5 0 1 2 0\n5 0 3 4 0\n"),
        (
            MANY,
            b"3 2147483647 0 1 2 0\n4 -2147483647 0 1 2 0\n5 0 3 4 0\n",
        ),
    ];
    for (formula, proof) in proofs {
        assert!(rt; formula.len() < 1000 && proof.len() < 1000);
        let arena = Bump::new(rt.alloc());
        let Ok(cnf) = read_dimacs(rt.alloc(), formula) else {
            panic!(rt; "refused formula");
        };
        assert!(rt; check_text(rt.alloc(), &cnf, proof, &arena).is_ok());
    }
    Ok(())
}

/// Each row: a proof of the chain's formula, the line that fails, and the cause.
fn refuse_each(
    rt: &impl Abort,
    alloc: Global,
    faults: &[(&[u8], u32, LratWhy)],
) -> Result<(), Fail> {
    let Ok(cnf) = read_dimacs(alloc, CHAIN) else {
        panic!(rt; "refused formula");
    };
    for (proof, line, why) in faults {
        assert!(rt; proof.len() < 1000);
        let arena = Bump::new(alloc);
        match check_text(alloc, &cnf, proof, &arena) {
            Ok(()) => panic!(rt; "verified"),
            Err(fault) => {
                assert_eq!(rt; fault.line, *line);
                assert_eq!(rt; fault.why, *why);
            }
        }
    }
    Ok(())
}

#[test]
fn faults_are_the_first(rt: HostRuntime) -> Result<(), Fail> {
    let faults: [(&[u8], u32, LratWhy); 40] = [
        (b"4 2 0 1 1 0\n5 0 4 3 0\n", 1, LratWhy::NoConflict),
        (b"4 1 0 -1 0\n", 1, LratWhy::Rat),
        (b"3 0 1 0\n", 1, LratWhy::Id),
        (b"4 0 9 0\n", 1, LratWhy::NoClause(9)),
        (b"4 1 -1 0 1 0\n", 1, LratWhy::Tautology),
        (b"4 3 0 1 0\n", 1, LratWhy::Range(3)),
        (b"4 0 2 0\n", 1, LratWhy::NotUnit(2)),
        (b"4 0 1 0\n", 1, LratWhy::NoConflict),
        (b"", 0, LratWhy::NoEmpty),
        (b"\n\n", 2, LratWhy::NoEmpty),
        (b"c 0", 1, LratWhy::NoEmpty),
        (b"4 2 0 1 2 0\n4 0 4 3 0\n", 2, LratWhy::Id),
        (
            b"4 2 0 1 2 0\n1 d 4 0\n5 0 4 3 0\n",
            3,
            LratWhy::NoClause(4),
        ),
        (
            b"4 2 0 1 2 0\n1 d 4 4 0\n5 0 4 3 0\n",
            2,
            LratWhy::NoClause(4),
        ),
        (b"4 0 1 2 3 0\n5 3 0 1 0\n", 2, LratWhy::Range(3)),
        (b"4 0 1 2 3 0\nx", 2, LratWhy::Syntax),
        (b"0 0 1 2 3 0\n", 1, LratWhy::Id),
        (b"4 -3 0 -1 0\n", 1, LratWhy::Range(-3)),
        (b"4 4294967295 0 1 0\n", 1, LratWhy::Range(4_294_967_295)),
        (b"4 4294967296 0 1 0\n", 1, LratWhy::Syntax),
        (b"4294967296 0 1 2 3 0\n", 1, LratWhy::Syntax),
        (b" 4 0 1 2 3 0\n", 1, LratWhy::Syntax),
        (b"4 0 1 2 3 0 \n", 1, LratWhy::Syntax),
        (b"4 0 1 2 3 0\r\n", 1, LratWhy::Syntax),
        (b"4 0\t1 2 3 0\n", 1, LratWhy::Syntax),
        (b"4 0 1 2 3\n", 1, LratWhy::Syntax),
        (b"4 0 1 2 3 0 0\n", 1, LratWhy::Syntax),
        (b"4 0\n", 1, LratWhy::Syntax),
        (b"4\n", 1, LratWhy::Syntax),
        (b"-4 0 1 2 3 0\n", 1, LratWhy::Syntax),
        (b"4 -0 1 2 3 0\n", 1, LratWhy::Syntax),
        (b"4 00 1 2 3 0\n", 1, LratWhy::Syntax),
        (b"4 +1 0 1 0\n", 1, LratWhy::Syntax),
        (b"3 5 5 0 y 0\n", 1, LratWhy::Syntax),
        (b"4 d -1 0\n", 1, LratWhy::Syntax),
        (b"4 d 1\n", 1, LratWhy::Syntax),
        (b"4 d 1 0 0\n", 1, LratWhy::Syntax),
        (b"4 d 0\n", 1, LratWhy::NoEmpty),
        (b"d 1 0\n", 1, LratWhy::Syntax),
        (b"4 d 1 7 0\n", 1, LratWhy::NoClause(7)),
    ];
    refuse_each(&rt, rt.alloc(), &faults)
}

// Each row: a proof of the chain's formula whose failing line has two causes or more, and the one that counts.
#[test]
fn the_first_cause_of_a_line(rt: HostRuntime) -> Result<(), Fail> {
    let faults: [(&[u8], u32, LratWhy); 23] = [
        (b"3 3 1 -1 0 -1 x 0", 1, LratWhy::Syntax),
        (b"3 3 1 -1 0 -1 9 0", 1, LratWhy::Id),
        (b"4 1 -1 3 0 -1 9 0", 1, LratWhy::Range(3)),
        (b"4 -4 3 0 -1 0", 1, LratWhy::Range(-4)),
        (b"4 1 -1 0 -1 9 0", 1, LratWhy::Tautology),
        (b"4 0 -9 2 0", 1, LratWhy::Rat),
        (b"4 0 9 -1 0", 1, LratWhy::NoClause(9)),
        (b"4 0 9 2 0", 1, LratWhy::NoClause(9)),
        (b"4 0 2 -1 0", 1, LratWhy::NotUnit(2)),
        (b"4 0 2 9 0", 1, LratWhy::NotUnit(2)),
        (b"4 0 1 2 9 0", 1, LratWhy::NoClause(9)),
        (b"4 0 1 2 -3 0", 1, LratWhy::Rat),
        (b"4 1 0 3 2 0", 1, LratWhy::NoConflict),
        (b"4 0 1 2 3 x 0", 1, LratWhy::Syntax),
        (b"4 d 9 x 0", 1, LratWhy::Syntax),
        (b"4 d 9 -1 0", 1, LratWhy::Syntax),
        (b"4 d 9 8 0", 1, LratWhy::NoClause(9)),
        (b"4 d 9 0 1 0", 1, LratWhy::Syntax),
        (b"4294967296 d 9 0", 1, LratWhy::Syntax),
        (b"4 2 0 1 2 0\n4 d 4 0\n4 3 0 4 0\n", 3, LratWhy::Id),
        (b"4 3 0 1 0\nx\n", 1, LratWhy::Range(3)),
        (b"4 0 1 0\n3 0 1 0\n", 1, LratWhy::NoConflict),
        (b"1 d 3 0\n4 0 1 2 3 0\n", 2, LratWhy::NoClause(3)),
    ];
    refuse_each(&rt, rt.alloc(), &faults)
}

// Each row: a proof of the chain's formula whose failing line hints at its own id, deletes a clause twice, or has fields that are no numbers.
#[test]
fn faults_of_ids_and_fields(rt: HostRuntime) -> Result<(), Fail> {
    let faults: [(&[u8], u32, LratWhy); 6] = [
        (b"4 2 0 4 0\n", 1, LratWhy::NoClause(4)),
        (b"1 d 1 0\n1 d 1 0\n", 2, LratWhy::NoClause(1)),
        (b" \n", 1, LratWhy::Syntax),
        (b"\r\n4 0 1 2 3 0\n", 1, LratWhy::Syntax),
        (b"4 - 0 1 0\n", 1, LratWhy::Syntax),
        (b"4 0 d 0\n", 1, LratWhy::Syntax),
    ];
    refuse_each(&rt, rt.alloc(), &faults)
}

// Ids that leave gaps, so that a clause is not at the place that its id names.
#[test]
fn ids_with_gaps(rt: HostRuntime) -> Result<(), Fail> {
    let Ok(cnf) = read_dimacs(rt.alloc(), CHAIN) else {
        panic!(rt; "refused formula");
    };
    let arena = Bump::new(rt.alloc());
    let proof = b"10 2 0 1 2 0\n20 0 10 3 0".as_slice();
    assert!(rt; proof.len() < 1000);
    assert!(rt; check_text(rt.alloc(), &cnf, proof, &arena).is_ok());
    let faults: [(&[u8], u32, LratWhy); 2] = [
        (b"10 2 0 1 2 0\n20 0 4 3 0", 2, LratWhy::NoClause(4)),
        (
            b"10 2 0 1 2 0\n11 d 10 0\n20 0 10 3 0",
            3,
            LratWhy::NoClause(10),
        ),
    ];
    refuse_each(&rt, rt.alloc(), &faults)
}

// The log of the formula of the wire, behind bytes that were there.
#[test]
fn a_written_log_is_verified(rt: HostRuntime) -> Result<(), Fail> {
    let alloc = rt.alloc();
    let Ok(cnf) = read_dimacs(alloc, WIRE) else {
        panic!(rt; "refused formula");
    };
    let arena = Bump::new(alloc);
    let mut log = ProofLog::new(alloc, &cnf, &arena);
    let mut marks = Marks::new(alloc, log.vars())?;
    let mut text = b"c\n".to_vec(alloc)?;
    write_lrat(&cnf, &log, &mut text)?;
    assert_eq!(rt; text.as_slice(), b"c\n".as_slice());

    let positive = [Lit::of(0)];
    let hints = [ClauseId::of(0), ClauseId::of(7), ClauseId::of(3)];
    assert_eq!(rt; log.clauses(), 8);
    assert!(rt; step_holds(&log, &positive, &hints, &mut marks));
    log.add(&positive, &hints)?;

    let negative = [Lit::of(1)];
    let hints = [ClauseId::of(1), ClauseId::of(7), ClauseId::of(4)];
    assert_eq!(rt; log.clauses(), 9);
    assert!(rt; step_holds(&log, &negative, &hints, &mut marks));
    log.add(&negative, &hints)?;

    let hints = [ClauseId::of(8), ClauseId::of(9)];
    assert_eq!(rt; log.clauses(), 10);
    assert!(rt; step_holds(&log, &[], &hints, &mut marks));
    log.add(&[], &hints)?;

    write_lrat(&cnf, &log, &mut text)?;
    assert_eq!(rt;
        text.as_slice(),
        b"c\n9 1 0 1 8 4 0\n10 -1 0 2 8 5 0\n11 0 9 10 0\n".as_slice()
    );
    ended_log_is_accepted(&cnf, &log);
    additions_are_steps();
    faults_break();
    assert!(rt; text.len() < 1000);
    assert!(rt; check_text(alloc, &cnf, &text, &arena).is_ok());
    Ok(())
}
