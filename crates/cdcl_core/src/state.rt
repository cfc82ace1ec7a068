//! A search and its calls.
ghost use Rattle.std.specs.Prelude.{◌≡◌, ◌↔◌, ℕ, ◌+◌, ◌-◌, ◌*◌, ◌<◌, ◌≤◌, ◌^◌, true, false, [], ◌∷◌, ◌++◌, length, List, Option, Some, None, IfOk, OnOk, OnErr, IsTrue, MatchOption, IfSome};
ghost use Rattle.std.specs.List.{All};
ghost use Rattle.rsfq_ids.specs.declared.limits.TheConstants.{FORMULA_LIMIT};
ghost use Rattle.rsfq_ids.specs.Formula.{IsFormula, Clause, opposite};
ghost use Rattle.proof_arena.specs.Log.{clauses_of};
ghost use Rattle.proof_arena.specs.Step.{StepHolds};
ghost use Rattle.cdcl_core.specs.Trail.{level_in, is_true, level_of, up_to, IsFree, IsFalse, IsQuiet, IsTrail};
ghost use Rattle.cdcl_core.specs.Search.{IsConflict, IsGrown, IsNew, HasLearnt, IsReady, first_of};

use crate::analysis::{Analysis, back_level};
use crate::engine::Core;
use crate::queue::Queue;
use bumpalo::Bump;
use proof_arena::{Marks, ProofLog};
use rsfq_ids::circuit::Cnf;
use rsfq_ids::id::{ClauseId, Id, Lit, Var};
use rsfq_ids::list::NoMemory;
use std::alloc::Global;
use std::marker::Model;

/// A search: the log, the literals that are true, and what was learnt last.
///
/// Contracts see these three. The true literals stand the newest first, each with the level at which it became true and the clause of the
/// log that made it true, or none where it was decided.
#[derive(Drop)]
pub struct SearchState<'a> {
    core: Core<'a>,
    analysis: Analysis,
}

impl<'a> Model for SearchState<'a> {
    ghost use Rattle.cdcl_core.specs.Search.{Search};

    ghost Value = { Search };

    ghost use Rattle.cdcl_core.specs.State.{search_of, IsState};

    ghost view = { search_of };

    ghost invariant = { IsState };
}

/// A search over a formula, with no true literal and a log with no step. It takes its memory from `alloc` and from the arena, as later calls do.
///
/// # Errors
///
/// Only for want of memory.
pub fn start<'a>(alloc: Global, cnf: &'a Cnf, arena: &'a Bump) -> Result<SearchState<'a>, NoMemory>
    requires { IsFormula cnf.now }
    ensures { IfOk result (λ state. state ≡ record { log = record { vars = cnf.entry.now.vars; given = cnf.entry.now.clauses; steps = [] }; trail = []; learnt = []; hints = [] }) }
{
    let core = Core::new(alloc, cnf, arena)?;
    let marks = Marks::new(alloc, cnf.vars)?;
    Ok(SearchState {
        core,
        analysis: Analysis {
            learnt: Vec::new(alloc),
            hints: Vec::new(alloc),
            marks,
            queue: Queue::new(alloc),
            open: 0,
        },
    })
}

/// The value of a variable, and `None` exactly where it has none.
pub fn value(state: &SearchState<'_>, var: Var) -> Option<bool>
    requires { var < state.now.log.vars }
    ensures positive { (result ≡ Some true) ↔ IsTrue (is_true state.now.trail (2 * var)) }
    ensures negative { (result ≡ Some false) ↔ IsTrue (is_true state.now.trail (2 * var + 1)) }
{
    let _done = state.core.done;
    let lit = Lit::of(2 * var.index() as u32);
    if state.core.trail.level_in(lit).is_some() {
        return Some(true);
    }
    if state.core.trail.level_in(lit.opposite()).is_some() {
        return Some(false);
    }
    None
}

/// The level that is open.
pub fn level(state: &SearchState<'_>) -> u32
    ensures { result ≡ level_of state.now.trail }
{
    state.core.trail.level()
}

/// The log, as it stands. Its formula has at most `FORMULA_LIMIT` variables.
pub fn kept_log<'s, 'a>(state: &'s SearchState<'a>) -> &'s ProofLog<'a>
    ensures log { result.now ≡ state.now.log }
    ensures vars { state.now.log.vars ≤ FORMULA_LIMIT }
{
    &state.core.log
}

/// Each true literal had no value before it became true, and a clause of the log made it true, whose other literals were false, or it was
/// decided where no clause was false or unit.
pub fn trail_holds(state: &SearchState<'_>)
    ensures { IsTrail state.now.log.vars (clauses_of state.now.log) state.now.trail }
{
    let _done = state.core.done;
}

/// Opens a level and makes a literal true.
pub fn decide(state: &mut SearchState<'_>, lit: Lit)
    requires within { lit < 2 * state.old.log.vars }
    requires free { IsFree state.old.trail lit }
    requires quiet { All (IsQuiet state.old.trail) (clauses_of state.old.log) }
    ensures decided { state.new ≡ record state.old { trail = record { lit = lit; level = level_of state.old.trail + 1; reason = None } ∷ state.old.trail } }
    ensures room { length state.old.trail < state.old.log.vars }
{
    let _vars = state.core.log.vars();
    let _none = state.core.settle();
    let level = state.core.trail.level() + 1;
    state.core.trail.push(lit, level, None);
}

/// Makes literals true by clauses until a clause is false, which it answers, or no clause is false or unit.
pub fn propagate(state: &mut SearchState<'_>) -> Option<ClauseId>
    ensures kept { state.new ≡ record state.old { trail = state.new.trail } }
    ensures grown { IsGrown state.old.trail state.new.trail }
    ensures answer { MatchOption result (All (IsQuiet state.new.trail) (clauses_of state.old.log)) (IsConflict (clauses_of state.old.log) state.new.trail) }
{
    state.core.settle()
}

/// Analyses a clause that is false: leaves the clause that follows, with its hints, and answers the level to go back to, which is the greatest
/// one at which another of its literals than the first became false, or 0 where there is none.
///
/// # Errors
///
/// Only for want of memory. The log and the true literals are then as they were, and what was learnt is lost.
pub fn analyse(state: &mut SearchState<'_>, conflict: ClauseId) -> Result<u32, NoMemory>
    requires level { 0 < level_of state.old.trail }
    requires conflict { IsConflict (clauses_of state.old.log) state.old.trail conflict }
    ensures log { state.new.log ≡ state.old.log }
    ensures trail { state.new.trail ≡ state.old.trail }
    ensures holds { OnOk result (StepHolds state.new.log.vars (clauses_of state.new.log) state.new.learnt state.new.hints) }
    ensures learnt { IfOk result (HasLearnt state.new.trail state.new.learnt) }
    ensures new { OnOk result (IsNew (clauses_of state.new.log) state.new.learnt) }
    ensures ready { IfOk result (λ back. IsReady (record state.new { trail = up_to back state.new.trail })) }
{
    let _clauses = state.core.log.clauses();
    state.analysis.run_on(&state.core, conflict)?;
    Ok(back_level(&state.core.trail, &state.analysis.learnt))
}

/// Adds the clause that was learnt, and makes its first literal, which alone has no value, true by it.
///
/// # Errors
///
/// Only for want of memory. The log and the true literals are then as they were.
pub fn learn(state: &mut SearchState<'_>) -> Result<ClauseId, NoMemory>
    requires ready { IsReady state.old }
    requires room { length (clauses_of state.old.log) < 2 ^ 32 - 1 }
    ensures id { IfOk result (λ id. id ≡ length (clauses_of state.old.log)) }
    ensures learnt { OnOk result (state.new ≡ record state.old { log = record state.old.log { steps = state.old.log.steps ++ record { lits = state.old.learnt; hints = state.old.hints } ∷ [] }; trail = record { lit = first_of state.old.learnt; level = level_of state.old.trail; reason = Some (length (clauses_of state.old.log)) } ∷ state.old.trail }) }
    ensures kept { OnErr result ((state.new.log ≡ state.old.log) × (state.new.trail ≡ state.old.trail)) }
{
    let _done = state.core.done;
    state
        .core
        .add_learnt(&state.analysis.learnt, &state.analysis.hints)
}

/// Takes the values of all literals above a level, which is the one that is open then.
pub fn backjump(state: &mut SearchState<'_>, level: u32)
    requires { level ≤ level_of state.old.trail }
    ensures state { state.new ≡ record state.old { trail = up_to level state.old.trail } }
    ensures level { level_of state.new.trail ≡ level }
{
    state.core.go_back(level);
}

/// Adds the empty clause, and hands back the log. No level is open, and a clause is false.
///
/// # Errors
///
/// Only for want of memory. The search is then dropped.
pub fn close<'a>(state: SearchState<'a>, conflict: ClauseId) -> Result<ProofLog<'a>, NoMemory>
    requires level { level_of state.trail ≡ 0 }
    requires conflict { IsConflict (clauses_of state.log) state.trail conflict }
    requires room { length (clauses_of state.log) < 2 ^ 32 - 1 }
    ensures { IfOk result (λ log. (hints : List ℕ) × (log ≡ record state.entry.log { steps = state.entry.log.steps ++ record { lits = []; hints = hints } ∷ [] })) }
{
    let SearchState { core, mut analysis } = state;
    let _clauses = core.log.clauses();
    analysis.run_on(&core, conflict)?;
    let mut log = core.log;
    log.add(&analysis.learnt, &analysis.hints)?;
    Ok(log)
}

/// Hands back the log.
pub fn into_log<'a>(state: SearchState<'a>) -> ProofLog<'a>
    ensures { result ≡ state.entry.log }
{
    state.core.log
}
