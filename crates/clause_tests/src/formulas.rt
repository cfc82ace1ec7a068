//! Texts of small formulas, byte for byte.
use dimacs_text::{
    TextWhy, one_formula_is_spelled, read_dimacs, readings_are_spelled, texts_say_formulas,
    write_dimacs,
};
use rsfq_ids::circuit::Cnf;
use rsfq_ids::id::{Id, Lit};
use rsfq_ids::list::{List, NoMemory};
use std::alloc::Global;
use std::test::Fail;

/// A clause of these literals: twice the variable, plus 1 for the negation.
fn clause_of(alloc: Global, lits: &[u32]) -> Result<List<Lit>, NoMemory> {
    let mut clause = List::new(alloc);
    for lit in lits {
        clause.push(Lit::of(*lit))?;
    }
    Ok(clause)
}

#[test]
fn texts_are_exact(rt: HostRuntime) -> Result<(), Fail> {
    let mut clauses = List::new(rt.alloc());
    clauses.push(clause_of(rt.alloc(), &[0, 3])?)?;
    clauses.push(clause_of(rt.alloc(), &[7, 2, 0])?)?;
    clauses.push(clause_of(rt.alloc(), &[])?)?;
    clauses.push(clause_of(rt.alloc(), &[6])?)?;
    let cnf = Cnf { vars: 4, clauses };
    let mut text = b"c a text before\n".to_vec(rt.alloc())?;
    write_dimacs(&cnf, &mut text)?;
    let whole: &[u8] = b"c a text before\np cnf 4 4\n1 -2 0\n-4 2 1 0\n0\n4 0\n";
    assert_eq!(rt; text.as_slice(), whole);
    Ok(())
}

#[test]
fn texts_are_read(rt: HostRuntime) -> Result<(), Fail> {
    let texts: [(&[u8], &[u8]); 8] = [
        (
            b"p cnf 4 8\n1 -2 0\n-1 2 0\n-3 0\n-4 2 1 0\n-4 -2 -1 0\n4 -2 1 0\n4 2 -1 0\n4 0\n",
            b"p cnf 4 8\n1 -2 0\n-1 2 0\n-3 0\n-4 2 1 0\n-4 -2 -1 0\n4 -2 1 0\n4 2 -1 0\n4 0\n",
        ),
        (
            b"c first\nc second\np cnf 2 3\nc between\n1\n2 0 -1\t-0\r\n2\x0c00\nc last",
            b"p cnf 2 3\n1 2 0\n-1 0\n2 0\n",
        ),
        (b"p cnf 2 1\n2 -1 2 -1 2 1 0", b"p cnf 2 1\n2 -1 1 0\n"),
        (b"p cnf 0 0", b"p cnf 0 0\n"),
        (b"p cnf 007 01\n0000000000000007 0\n", b"p cnf 7 1\n7 0\n"),
        (
            b"p cnf 2147483647 1\n-2147483647 0\n",
            b"p cnf 2147483647 1\n-2147483647 0\n",
        ),
        (b"p cnf 1 2\n0 0\n\n\n", b"p cnf 1 2\n0\n0\n"),
        (
            b"p cnf 17 1\n1 2 3 4 5 6 7 8 9 10 11 12 13 14 15 16 17 1 -17 17 0\n",
            b"p cnf 17 1\n1 2 3 4 5 6 7 8 9 10 11 12 13 14 15 16 17 -17 0\n",
        ),
    ];
    for (text, again) in texts {
        assert!(rt; text.len() < 1000);
        let cnf = match read_dimacs(rt.alloc(), text) {
            Ok(cnf) => cnf,
            Err(_) => panic!(rt; "refused"),
        };
        let mut written = Vec::new(rt.alloc());
        write_dimacs(&cnf, &mut written)?;
        assert_eq!(rt; written.as_slice(), again);
    }
    texts_say_formulas();
    readings_are_spelled();
    one_formula_is_spelled();
    Ok(())
}

#[test]
fn faults_are_the_first(rt: HostRuntime) -> Result<(), Fail> {
    let faults: [(&[u8], u32, TextWhy); 27] = [
        (b"", 0, TextWhy::Header),
        (b"c no more", 9, TextWhy::Header),
        (b"c no more\n", 10, TextWhy::Header),
        (b"\np cnf 1 0\n", 0, TextWhy::Header),
        (b"c a\n p cnf 1 0\n", 4, TextWhy::Header),
        (b"c a\np cnf 1 0 \n", 4, TextWhy::Header),
        (b"p  cnf 1 0\n", 0, TextWhy::Header),
        (b"p cnf 1  0\n", 0, TextWhy::Header),
        (b"p cnf 1\n", 0, TextWhy::Header),
        (b"p cnf 1 \n", 0, TextWhy::Header),
        (b"p cnf 1 0\r\n", 0, TextWhy::Header),
        (b"p cnf -1 0\n", 0, TextWhy::Header),
        (b"p cnf 2147483648 0\n", 0, TextWhy::Header),
        (b"p cnf 1 2147483648\n", 0, TextWhy::Header),
        (b"1 0\n", 0, TextWhy::Header),
        (b"p cnf 1 1\n1 x 2 0", 12, TextWhy::Number),
        (b"p cnf 1 1\n1\nc 0\n", 12, TextWhy::Number),
        (b"p cnf 1 1\n1 0 c\n", 14, TextWhy::Number),
        (b"p cnf 1 1\n 1 - 0\n", 13, TextWhy::Number),
        (b"p cnf 1 1\n+1 0\n", 10, TextWhy::Number),
        (b"p cnf 1 1\n4294967296 0\n", 10, TextWhy::Number),
        (
            b"p cnf 1 1\n4294967295 0\n",
            10,
            TextWhy::Range(4_294_967_295),
        ),
        (b"p cnf 1 1\n1 -2 x\n", 12, TextWhy::Range(-2)),
        (b"p cnf 1 1\n1\n", 12, TextWhy::Unended),
        (b"p cnf 1 9\n1\n", 12, TextWhy::Unended),
        (b"p cnf 1 1\n", 10, TextWhy::Count(0, 1)),
        (b"p cnf 1 1\n1 0 0\n", 16, TextWhy::Count(2, 1)),
    ];
    for (text, offset, why) in faults {
        assert!(rt; text.len() < 1000);
        match read_dimacs(rt.alloc(), text) {
            Ok(_) => panic!(rt; "taken"),
            Err(fault) => {
                assert_eq!(rt; fault.offset, offset);
                assert_eq!(rt; fault.why, why);
            }
        }
    }
    Ok(())
}
