//! Which variable is decided next: the one with the greatest score, and of those with the same the last.
//!
//! At conflict `k` the score of each variable that was met in its analysis becomes the mean of what it was and of `256 k`, so that
//! variables of late conflicts come first. No clause rests on the scores.
//!
//! A variable that has a value is taken out of the order when it comes to the top, and put back when its level is left.
ghost use Rattle.std.specs.Prelude.{◌≡◌, ◌⊎◌, ℕ, ◌+◌, ◌*◌, ◌<◌, ◌≤◌, length, IfOk, IfSome, MatchOption, IsTrue, Some, None};
ghost use Rattle.std.specs.List.{All};
ghost use Rattle.rsfq_ids.specs.Formula.{IsOver};
ghost use Rattle.proof_arena.specs.Log.{clauses_of};
ghost use Rattle.cdcl_core.specs.Trail.{is_true, IsFree};
ghost use Rattle.cdcl_search.specs.Turns.{HasValues, HasValue};

use cdcl_core::{SearchState, kept_log, level, value};
use proof_arena::ProofLog;
use rsfq_ids::id::{ClauseId, Id, Lit, Var};
use rsfq_ids::list::NoMemory;
use std::alloc::Global;
use variable_order::{Seat, VariableOrder};

/// A variable that was taken out of the order, and the level that was open then.
#[derive(Clone, Copy)]
struct Taken {
    var: Var,
    level: u32,
}

/// The order of the variables, the conflict that changed the score of each last, and the variables that were taken out, by rising levels.
#[derive(Drop)]
pub(crate) struct Scores {
    pub(crate) order: VariableOrder,
    stamps: Vec<u32>,
    taken: Vec<Taken>,
    ghost stamped: { length stamps.items ≡ length order },
    ghost known: { All (λ t. t.var < length order) taken.items },
}

/// A variable without a value, if there is one.
fn first_open(state: &SearchState<'_>) -> Option<Var>
    ensures { MatchOption result (HasValues state.now.log.vars state.now.trail) (λ var. (var < state.now.log.vars) × IsFree state.now.trail (2 * var + 1)) }
{
    for index in 0..kept_log(state).vars() {
        if value(state, Var::of(index)).is_none() {
            return Some(Var::of(index));
        }
    }
    None
}

impl Scores {
    /// Scores of so many variables, all 0.
    pub(crate) fn new(alloc: Global, vars: u32) -> Result<Scores, NoMemory>
        ensures { IfOk result (λ scores. length scores.order ≡ vars) }
    {
        let mut order = VariableOrder::new(alloc, vars)?;
        let stamps = vec![in alloc; 0; vars as usize]?;
        for index in 0..vars {
            let seat = Seat {
                score: 0,
                present: true,
            };
            order.put(Var::of(vars - 1 - index), seat);
        }
        Ok(Scores {
            order,
            stamps,
            taken: Vec::new(alloc),
        })
    }

    /// The variable with the greatest score, and of those with the same the last, among those without a value. All variables are looked at
    /// once where none in the order lacks a value.
    pub(crate) fn pick(&mut self, state: &SearchState<'_>) -> Result<Option<Var>, NoMemory>
        requires { length self.old.order ≡ state.now.log.vars }
        ensures size { length self.new.order ≡ length self.old.order }
        ensures picked { IfOk result (λ found. MatchOption found (HasValues state.now.log.vars state.now.trail) (λ var. (var < state.now.log.vars) × IsFree state.now.trail (2 * var + 1))) }
    {
        let open = level(state);
        for _turn in 0..kept_log(state).vars() {
            let Some(var) = self.order.greatest() else {
                return Ok(first_open(state));
            };
            if value(state, var).is_none() {
                return Ok(Some(var));
            }
            self.take_out(var, open)?;
        }
        Ok(first_open(state))
    }

    /// Takes a variable out of the order.
    fn take_out(&mut self, var: Var, level: u32) -> Result<(), NoMemory>
        requires { var < length self.old.order }
        ensures { length self.new.order ≡ length self.old.order }
    {
        self.taken.push(Taken { var, level })?;
        self.seat(var, false);
        Ok(())
    }

    /// Puts a variable into the order, or takes it out.
    fn seat(&mut self, var: Var, present: bool)
        requires { var < length self.old.order }
        ensures { length self.new.order ≡ length self.old.order }
    {
        let score = self.order.seat(var).score;
        self.order.put(var, Seat { score, present });
    }

    /// Puts the variables back that were taken out above a level.
    pub(crate) fn put_back(&mut self, level: u32)
        ensures { length self.new.order ≡ length self.old.order }
    {
        for _turn in 0..self.taken.len() {
            let Some(var) = self.last_above(level) else {
                return;
            };
            self.taken.pop();
            self.seat(var, true);
        }
    }

    /// The variable that was taken out last, if that was above a level.
    fn last_above(&self, level: u32) -> Option<Var>
        ensures { IfSome result (λ var. var < length self.now.order) }
    {
        match self.taken.last() {
            Some(last) if last.level > level => Some(last.var),
            _ => None,
        }
    }

    /// Raises the scores of the variables of the clauses that the step with this number names.
    pub(crate) fn raise(&mut self, log: &ProofLog<'_>, id: ClauseId, conflict: u32)
        requires vars { length self.old.order ≡ log.now.vars }
        requires given { length log.now.given ≤ id }
        requires known { id < length (clauses_of log.now) }
        ensures { length self.new.order ≡ length self.old.order }
    {
        for hint in log.hints(id) {
            if hint.index() < log.clauses() as usize {
                self.raise_all(log.clause(*hint), conflict);
            }
        }
    }

    fn raise_all(&mut self, lits: &[Lit], conflict: u32)
        requires { IsOver (length self.old.order) lits.now }
        ensures { length self.new.order ≡ length self.old.order }
    {
        for lit in lits {
            self.raise_one(Var::of(lit.index() as u32 / 2), conflict);
        }
    }

    fn raise_one(&mut self, var: Var, conflict: u32)
        requires { var < length self.old.order }
        ensures { length self.new.order ≡ length self.old.order }
    {
        if self.stamps[var.index()] != conflict {
            self.stamps[var.index()] = conflict;
            let seat = self.order.seat(var);
            let score = seat.score.saturating_add(256 * conflict as u64) / 2;
            self.order.put(
                var,
                Seat {
                    score,
                    present: seat.present,
                },
            );
        }
    }
}
