//! The text of a log.
ghost use Rattle.std.specs.Prelude.{◌≡◌, ◌++◌, length, take, OnOk, OnErr};
ghost use Rattle.std.specs.List.{flat_map};
ghost use Rattle.lrat_check.specs.Written.{spaced_hint, clause_fields, step_line, lrat_of, StandsFor};

use decimal_text::append_number;
use dimacs_text::append_literals;
use proof_arena::ProofLog;
use rsfq_ids::circuit::Cnf;
use rsfq_ids::id::{ClauseId, Id, Lit};
use rsfq_ids::list::NoMemory;
use std::alloc::AllocError;

/// Appends the text of a log of a formula, in the LRAT text format: one line for each step. After a refusal the bytes are as they were.
pub fn write_lrat(cnf: &Cnf, log: &ProofLog<'_>, out: &mut Vec<u8>) -> Result<(), NoMemory>
    requires stands { StandsFor log.now cnf.now }
    ensures ok { OnOk result (out.new.items ≡ out.old.items ++ lrat_of log.now) }
    ensures err { OnErr result (out.new.items ≡ out.old.items) }
{
    let start = out.len();
    match append_steps(out, cnf.clauses.len(), log) {
        Ok(()) => Ok(()),
        Err(_) => {
            out.truncate(start);
            Err(NoMemory)
        }
    }
}

/// Appends the lines of the steps of a log, which stand behind so many clauses. After a refusal some bytes may stand behind those that were
/// there.
fn append_steps(out: &mut Vec<u8>, given: usize, log: &ProofLog<'_>) -> Result<(), AllocError>
    requires given { given ≡ length log.now.given }
    ensures ok { OnOk result (out.new.items ≡ out.old.items ++ lrat_of log.now) }
    ensures err { OnErr result (take (length out.old.items) out.new.items ≡ out.old.items) }
{
    for place in given..log.clauses() as usize {
        let id = ClauseId::of(place as u32);
        append_step(out, place as u64 + 1, log.clause(id), log.hints(id))?;
    }
    Ok(())
}

/// Appends the line of a step, whose clause has this id.
fn append_step(
    out: &mut Vec<u8>,
    id: u64,
    lits: &[Lit],
    hints: &[ClauseId],
) -> Result<(), AllocError>
    ensures ok { OnOk result (out.new.items ≡ out.old.items ++ step_line id (record { lits = lits.now; hints = hints.now })) }
    ensures err { OnErr result (take (length out.old.items) out.new.items ≡ out.old.items) }
{
    append_clause(out, id, lits)?;
    append_hints(out, hints)?;
    out.extend_from_slice(b"0\n")
}

/// Appends the id of a clause and its literals up to the 0 behind them.
fn append_clause(out: &mut Vec<u8>, id: u64, lits: &[Lit]) -> Result<(), AllocError>
    ensures ok { OnOk result (out.new.items ≡ out.old.items ++ clause_fields id lits.now) }
    ensures err { OnErr result (take (length out.old.items) out.new.items ≡ out.old.items) }
{
    append_number(out, id)?;
    out.extend_from_slice(b" ")?;
    append_literals(out, lits)?;
    out.extend_from_slice(b"0 ")
}

/// Appends hints, each with a space behind it.
fn append_hints(out: &mut Vec<u8>, hints: &[ClauseId]) -> Result<(), AllocError>
    ensures ok { OnOk result (out.new.items ≡ out.old.items ++ flat_map spaced_hint hints.now) }
    ensures err { OnErr result (take (length out.old.items) out.new.items ≡ out.old.items) }
{
    for hint in hints {
        append_hint(out, *hint)?;
    }
    Ok(())
}

/// Appends a hint and a space.
fn append_hint(out: &mut Vec<u8>, hint: ClauseId) -> Result<(), AllocError>
    ensures ok { OnOk result (out.new.items ≡ out.old.items ++ spaced_hint hint) }
    ensures err { OnErr result (take (length out.old.items) out.new.items ≡ out.old.items) }
{
    append_number(out, hint.index() as u64 + 1)?;
    out.extend_from_slice(b" ")
}
