//! Whether a step holds, before it is added.
ghost use Rattle.std.specs.Prelude.{◌≡◌, ◌*◌, ◌<◌, ◌≤◌, ◌↔◌, IsTrue, length};
ghost use Rattle.std.specs.List.{All};
ghost use Rattle.rsfq_ids.specs.Formula.{IsOver};
ghost use Rattle.proof_arena.specs.Step.{StepHolds, ends_in_conflict};
ghost use Rattle.proof_arena.specs.Table.{falses_of};
ghost use Rattle.proof_arena.specs.Log.{clauses_of};

use crate::hint::HintReading;
use crate::log::ProofLog;
use crate::marks::Marks;
use rsfq_ids::id::{ClauseId, Id, Lit};

/// Whether a step holds against the clauses of a log. It takes no memory, and leaves the marks fit for the next call.
pub fn step_holds(log: &ProofLog<'_>, lits: &[Lit], hints: &[ClauseId], marks: &mut Marks) -> bool
    requires { 2 * log.now.vars ≤ length marks.old.table }
    ensures exact { IsTrue result ↔ StepHolds log.now.vars (clauses_of log.now) lits.now hints.now }
    ensures size { length marks.new.table ≡ length marks.old.table }
{
    if !are_over(log.vars(), lits) {
        return false;
    }
    marks.clear();
    marks.deny(lits);
    !marks.has_true(lits) && find_conflict(log, hints, marks)
}

/// Whether each literal is one of so many variables.
fn are_over(vars: u32, lits: &[Lit]) -> bool
    ensures { IsTrue result ↔ IsOver vars lits.now }
{
    let most = 2 * vars as usize;
    lits.iter().all(|lit| lit.index() < most)
}

/// Whether the hints, read in order, end in a conflict. The marks are used up.
fn find_conflict(log: &ProofLog<'_>, hints: &[ClauseId], marks: &mut Marks) -> bool
    requires { 2 * log.now.vars ≤ length marks.old.table }
    ensures found { result ≡ ends_in_conflict (clauses_of log.now) (falses_of marks.old) hints.now }
    ensures size { length marks.new.table ≡ length marks.old.table }
{
    for hint in hints {
        if hint.index() >= log.clauses() as usize {
            return false;
        }
        match marks.read(log.clause(*hint)) {
            HintReading::Conflict => return true,
            HintReading::Passed => {}
            HintReading::Unit(lit) => marks.make_false(lit.opposite()),
            HintReading::NotUnit => return false,
        }
    }
    false
}
