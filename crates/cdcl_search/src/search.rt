//! The search: propagate, and at a conflict learn and go back, and else decide.
ghost use Rattle.std.specs.Prelude.{◌≡◌, ℕ, ◌+◌, ◌-◌, ◌*◌, ◌<◌, ◌≤◌, ◌^◌, true, false, length, IfOk};
ghost use Rattle.std.specs.List.{All};
ghost use Rattle.rsfq_ids.specs.Formula.{IsFormula, IsOver};
ghost use Rattle.proof_arena.specs.Log.{clauses_of};
ghost use Rattle.cdcl_core.specs.Trail.{IsQuiet, is_true, level_of};
ghost use Rattle.cdcl_core.specs.Search.{IsConflict};
ghost use Rattle.cdcl_search.specs.Learnt.{IsAnswer, IsSolution};
ghost use Rattle.cdcl_search.specs.Turns.{IsGoing, IsTurned, HasValues};

use crate::scores::Scores;
use bumpalo::Bump;
use cdcl_core::{
    SearchState, analyse, backjump, close, decide, into_log, kept_log, learn, level, propagate,
    start, value,
};
use proof_arena::Answer;
use rsfq_ids::circuit::Cnf;
use rsfq_ids::id::{ClauseId, Id, Lit, Var};
use rsfq_ids::list::{List, NoMemory};
use std::alloc::Global;

/// What a turn of the search came to.
#[derive(Drop)]
pub(crate) enum Turn {
    /// The search goes on.
    Goes,
    /// Each variable has a value, and no clause is false or unit.
    Solved,
    /// This clause is false, and no level is open.
    Closes(ClauseId),
    /// A clause is false, and the budget is spent.
    Spent,
}

/// Decides a variable, false, if one has no value.
fn decide_next(state: &mut SearchState<'_>, scores: &mut Scores) -> Result<Turn, NoMemory>
    requires quiet { All (IsQuiet state.old.trail) (clauses_of state.old.log) }
    requires vars { length scores.old.order ≡ state.old.log.vars }
    ensures log { state.new.log ≡ state.old.log }
    ensures scores { length scores.new.order ≡ length scores.old.order }
    ensures turned { IfOk result (λ turn. (budget : ℕ) → IsGoing budget state.old.log → IsTurned budget state.old state.new turn) }
{
    let _vars = kept_log(state).vars();
    match scores.pick(state)? {
        None => Ok(Turn::Solved),
        Some(var) => {
            decide(state, Lit::of(2 * var.index() as u32 + 1));
            Ok(Turn::Goes)
        }
    }
}

/// Learns from a clause that is false.
fn learn_from(
    state: &mut SearchState<'_>,
    scores: &mut Scores,
    conflict: ClauseId,
    budget: u32,
) -> Result<Turn, NoMemory>
    requires conflict { IsConflict (clauses_of state.old.log) state.old.trail conflict }
    requires going { IsGoing budget state.old.log }
    requires room { length state.old.log.given + budget + 1 < 2 ^ 32 - 1 }
    requires vars { length scores.old.order ≡ state.old.log.vars }
    ensures vars { state.new.log.vars ≡ state.old.log.vars }
    ensures given { state.new.log.given ≡ state.old.log.given }
    ensures scores { length scores.new.order ≡ length scores.old.order }
    ensures turned { IfOk result (IsTurned budget state.old state.new) }
{
    if level(state) == 0 {
        return Ok(Turn::Closes(conflict));
    }
    let steps = kept_log(state).steps();
    if steps == budget {
        return Ok(Turn::Spent);
    }
    let back = analyse(state, conflict)?;
    backjump(state, back);
    let id = learn(state)?;
    scores.raise(kept_log(state), id, steps + 1);
    scores.put_back(back);
    Ok(Turn::Goes)
}

/// One turn of the search.
fn take_turn(
    state: &mut SearchState<'_>,
    scores: &mut Scores,
    budget: u32,
) -> Result<Turn, NoMemory>
    requires going { IsGoing budget state.old.log }
    requires room { length state.old.log.given + budget + 1 < 2 ^ 32 - 1 }
    requires vars { length scores.old.order ≡ state.old.log.vars }
    ensures vars { state.new.log.vars ≡ state.old.log.vars }
    ensures given { state.new.log.given ≡ state.old.log.given }
    ensures scores { length scores.new.order ≡ length scores.old.order }
    ensures turned { IfOk result (IsTurned budget state.old state.new) }
{
    match propagate(state) {
        None => decide_next(state, scores),
        Some(conflict) => learn_from(state, scores, conflict, budget),
    }
}

/// Whether a variable is true.
fn is_positive(state: &SearchState<'_>, var: Var) -> bool
    requires { var < state.now.log.vars }
    ensures positive { is_true state.now.trail (2 * var) ≡ true → result ≡ true }
    ensures negative { is_true state.now.trail (2 * var + 1) ≡ true → result ≡ false }
{
    match value(state, var) {
        Some(positive) => positive,
        None => false,
    }
}

/// The values of all variables.
fn values(alloc: Global, state: &SearchState<'_>) -> Result<List<bool>, NoMemory>
    requires quiet { All (IsQuiet state.now.trail) (clauses_of state.now.log) }
    requires whole { HasValues state.now.log.vars state.now.trail }
    requires over { All (IsOver state.now.log.vars) state.now.log.given }
    ensures { IfOk result (IsSolution state.now.log.vars state.now.log.given) }
{
    let mut values = List::new(alloc);
    for index in 0..kept_log(state).vars() {
        values.push(is_positive(state, Var::of(index)))?;
    }
    Ok(values)
}

/// Searches for an assignment that satisfies a formula, or for a proof that there is none, until `budget` clauses were learnt.
///
/// # Errors
///
/// Only for want of memory.
pub fn solve<'a>(
    alloc: Global,
    cnf: &'a Cnf,
    budget: u32,
    arena: &'a Bump,
) -> Result<Answer<'a>, NoMemory>
    requires formula { IsFormula cnf.now }
    requires room { length cnf.now.clauses + budget + 1 < 2 ^ 32 - 1 }
    ensures { IfOk result (IsAnswer cnf.entry.now.vars cnf.entry.now.clauses budget) }
{
    let mut state = start(alloc, cnf, arena)?;
    let mut scores = Scores::new(alloc, cnf.vars)?;
    'search: loop {
        match take_turn(&mut state, &mut scores, budget)? {
            Turn::Goes => {}
            Turn::Solved => return Ok(Answer::Assignment(values(alloc, &state)?)),
            Turn::Closes(conflict) => return Ok(Answer::Refuted(close(state, conflict)?)),
            Turn::Spent => return Ok(Answer::Spent(into_log(state))),
        }
    }
}
