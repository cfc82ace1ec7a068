//! Laws on texts of proofs: functions that do nothing, whose clauses serve the proofs of their callers.
ghost use Rattle.std.specs.Prelude.{◌≢◌, ◌↔◌, []};
ghost use Rattle.clap.specs.Words.{fault_of};
ghost use Rattle.lrat_check.specs.Breaks.{FaultsBreak};
ghost use Rattle.lrat_check.specs.Laws.{AdditionsAreSteps, HintsNameClauses};
ghost use Rattle.lrat_check.specs.Run.{AsksNothing, texts};
ghost use Rattle.lrat_check.specs.Usage.{lrat_command};
ghost use Rattle.lrat_check.specs.Written.{StandsFor, IsAccepted};

use proof_arena::ProofLog;
use rsfq_ids::circuit::Cnf;

/// Where a log of a formula has ended, the text that `write_lrat` writes of it is a proof of the formula with no fault: `check_text`
/// accepts it, where it is within the limit.
pub fn ended_log_is_accepted(cnf: &Cnf, log: &ProofLog<'_>)
    requires stands { StandsFor log.now cnf.now }
    ensures accepted { IsAccepted cnf.now log.now }
{
    let _formula = cnf.vars;
    let _vars = log.vars();
    let _clauses = log.clauses();
    let _ended = log.ends();
}

/// The checker reads hints as `step_holds` does: an addition of a text is accepted exactly where its id is above all earlier ones and its
/// clause is a step that holds against the clauses that its hints name. Such clauses can be listed for any hints.
pub fn additions_are_steps()
    ensures accepted { AdditionsAreSteps }
    ensures listed { HintsNameClauses }
{}

/// The fault that `check_text` answers is where the proof breaks, and why, told by its lines, literals and hints: at a line behind lines that
/// hold, or at the end where none added the empty clause. A proof that breaks nowhere has no fault.
pub fn faults_break()
    ensures { FaultsBreak }
{}

/// The simple command `rsfq_lrat CNF PROOF` refuses words exactly where they ask for nothing. There `lrat_run` answers `Words`, but for
/// want of memory and a fault.
pub fn refused_words_ask_for_nothing(words: &[String])
    ensures refused { (fault_of lrat_command (texts words.now) ≢ []) ↔ AsksNothing (texts words.now) }
{
    let _count = words.len();
}
