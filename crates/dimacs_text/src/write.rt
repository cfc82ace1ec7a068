//! Writing the text of a formula.
ghost use Rattle.std.specs.Prelude.{◌≡◌, ◌++◌, length, take, OnOk, OnErr};
ghost use Rattle.std.specs.List.{flat_map};
ghost use Rattle.dimacs_text.specs.Text.{spaced_literal, clause_line, head_line, dimacs_of};

use crate::number::append_literal;
use decimal_text::append_number;
use rsfq_ids::circuit::Cnf;
use rsfq_ids::id::Lit;
use rsfq_ids::list::{List, NoMemory};
use std::alloc::AllocError;

/// Appends the text of a formula. After a refusal the bytes are as they were.
pub fn write_dimacs(cnf: &Cnf, out: &mut Vec<u8>) -> Result<(), NoMemory>
    ensures ok { OnOk result (out.new.items ≡ out.old.items ++ dimacs_of cnf.now) }
    ensures err { OnErr result (out.new.items ≡ out.old.items) }
{
    let start = out.len();
    match append_formula(out, cnf) {
        Ok(()) => Ok(()),
        Err(_) => {
            out.truncate(start);
            Err(NoMemory)
        }
    }
}

/// Appends the text of a formula. After a refusal some bytes may stand behind those that were there.
fn append_formula(out: &mut Vec<u8>, cnf: &Cnf) -> Result<(), AllocError>
    ensures ok { OnOk result (out.new.items ≡ out.old.items ++ dimacs_of cnf.now) }
    ensures err { OnErr result (take (length out.old.items) out.new.items ≡ out.old.items) }
{
    append_head(out, cnf.vars, cnf.clauses.len())?;
    append_clauses(out, cnf.clauses.as_slice())
}

/// Appends the head of a text.
fn append_head(out: &mut Vec<u8>, vars: u32, clauses: usize) -> Result<(), AllocError>
    ensures ok { OnOk result (out.new.items ≡ out.old.items ++ head_line vars clauses) }
    ensures err { OnErr result (take (length out.old.items) out.new.items ≡ out.old.items) }
{
    out.extend_from_slice(b"p cnf ")?;
    append_number(out, u64::from(vars))?;
    out.extend_from_slice(b" ")?;
    append_number(out, clauses as u64)?;
    out.extend_from_slice(b"\n")
}

/// Appends the lines of clauses.
fn append_clauses(out: &mut Vec<u8>, clauses: &[List<Lit>]) -> Result<(), AllocError>
    ensures ok { OnOk result (out.new.items ≡ out.old.items ++ flat_map clause_line clauses.now) }
    ensures err { OnErr result (take (length out.old.items) out.new.items ≡ out.old.items) }
{
    for clause in clauses {
        append_clause(out, clause.as_slice())?;
    }
    Ok(())
}

/// Appends the line of a clause.
fn append_clause(out: &mut Vec<u8>, clause: &[Lit]) -> Result<(), AllocError>
    ensures ok { OnOk result (out.new.items ≡ out.old.items ++ clause_line clause.now) }
    ensures err { OnErr result (take (length out.old.items) out.new.items ≡ out.old.items) }
{
    append_literals(out, clause)?;
    out.extend_from_slice(b"0\n")
}

/// Appends the literals of a clause, each with a space behind it. After a refusal some bytes may stand behind those that were there.
pub fn append_literals(out: &mut Vec<u8>, clause: &[Lit]) -> Result<(), AllocError>
    ensures ok { OnOk result (out.new.items ≡ out.old.items ++ flat_map spaced_literal clause.now) }
    ensures err { OnErr result (take (length out.old.items) out.new.items ≡ out.old.items) }
{
    for lit in clause {
        append_spaced(out, *lit)?;
    }
    Ok(())
}

/// Appends a literal and a space.
fn append_spaced(out: &mut Vec<u8>, lit: Lit) -> Result<(), AllocError>
    ensures ok { OnOk result (out.new.items ≡ out.old.items ++ spaced_literal lit) }
    ensures err { OnErr result (take (length out.old.items) out.new.items ≡ out.old.items) }
{
    append_literal(out, lit)?;
    out.extend_from_slice(b" ")
}
