//! The log: its clauses and hints lie in an arena, which is owned outside and outlives it.
ghost use Rattle.std.specs.Prelude.{◌≡◌, ℕ, ◌+◌, ◌-◌, ◌<◌, ◌≤◌, ◌^◌, ◌↔◌, IsTrue, List, [], ◌∷◌, ◌++◌, length, Some, slice_get, IfOk, OnErr};
ghost use Rattle.std.specs.List.{All};
ghost use Rattle.std.specs.Option.{option_map};
ghost use Rattle.rsfq_ids.specs.Formula.{IsFormula, IsOver, HasSolution};
ghost use Rattle.proof_arena.specs.Step.{StepHolds};
ghost use Rattle.proof_arena.specs.Log.{LogStep, clauses_of, StepsHold, HasEnded, ClausesFollow};

use bumpalo::Bump;
use rsfq_ids::circuit::Cnf;
use rsfq_ids::id::{ClauseId, Id, Lit};
use rsfq_ids::list::NoMemory;
use std::alloc::Global;
use std::marker::Model;

/// A step: its clause, and the earlier clauses from which it follows.
#[derive(Clone, Copy)]
struct Step<'a> {
    lits: &'a [Lit],
    hints: &'a [ClauseId],
}

/// The steps of a proof, after the clauses of the formula that they begin from. Each step holds against the clauses before it.
///
/// Clauses are numbered from 0, first those of the formula and then those of the steps. In texts the numbers are one more.
#[derive(Drop)]
pub struct ProofLog<'a> {
    cnf: &'a Cnf,
    arena: &'a Bump,
    steps: Vec<Step<'a>>,
}

impl<'a> Model for ProofLog<'a> {
    ghost use Rattle.proof_arena.specs.Log.{Log};

    ghost Value = { Log };

    ghost use Rattle.proof_arena.specs.Held.{log_of, IsArena};

    ghost view = { log_of };

    ghost invariant = { IsArena };
}

impl<'a> ProofLog<'a> {
    /// The log of a formula, with no step. It takes no memory; later calls take it from `alloc` and from the arena.
    pub fn new(alloc: Global, cnf: &'a Cnf, arena: &'a Bump) -> ProofLog<'a>
        requires { IsFormula cnf.now }
        ensures { result ≡ record { vars = cnf.entry.now.vars; given = cnf.entry.now.clauses; steps = [] } }
    {
        ProofLog {
            cnf,
            arena,
            steps: Vec::new(alloc),
        }
    }

    /// Adds a step that holds and whose hints have printed numbers up to 4,294,967,295, copies its clause and its hints into the arena, and
    /// answers the number of its clause. After a refusal the log is as it was.
    pub fn add(&mut self, lits: &[Lit], hints: &[ClauseId]) -> Result<ClauseId, NoMemory>
        requires holds { StepHolds self.old.vars (clauses_of self.old) lits.now hints.now }
        requires printed { All (λ hint. hint < 2 ^ 32 - 1) hints.now }
        requires room { length (clauses_of self.old) < 2 ^ 32 - 1 }
        ensures id { IfOk result (λ id. id ≡ length (clauses_of self.old)) }
        ensures added { IfOk result (λ _. self.new ≡ record self.old { steps = self.old.steps ++ record { lits = lits.now; hints = hints.now } ∷ [] }) }
        ensures kept { OnErr result (self.new ≡ self.old) }
    {
        let index = (self.cnf.clauses.len() + self.steps.len()) as u32;
        let lits = self.arena.try_alloc_slice_copy(lits)?;
        let hints = self.arena.try_alloc_slice_copy(hints)?;
        self.steps.push(Step { lits, hints })?;
        Ok(ClauseId::of(index))
    }

    /// The clause of a number.
    pub fn clause(&self, id: ClauseId) -> &'a [Lit]
        requires { id < length (clauses_of self.now) }
        ensures clause { slice_get (clauses_of self.now) id ≡ Some result.now }
        ensures over { IsOver self.now.vars result.now }
    {
        let place = id.index();
        let cnf: &'a Cnf = self.cnf;
        if place < cnf.clauses.len() {
            cnf.clauses.get(place).unwrap().as_slice()
        } else {
            self.steps[place - cnf.clauses.len()].lits
        }
    }

    /// The hints of the step with this number.
    pub fn hints(&self, id: ClauseId) -> &'a [ClauseId]
        requires given { length self.now.given ≤ id }
        requires known { id < length (clauses_of self.now) }
        ensures { option_map (λ (s : LogStep). s.hints) (slice_get self.now.steps (id - length self.now.given)) ≡ Some result.now }
    {
        let place = id.index() - self.cnf.clauses.len();
        self.steps[place].hints
    }

    /// How many steps there are.
    pub fn steps(&self) -> u32
        ensures { result ≡ length self.now.steps }
    {
        self.steps.len() as u32
    }

    /// How many clauses there are, those of the formula and those of the steps.
    pub fn clauses(&self) -> u32
        ensures { result ≡ length (clauses_of self.now) }
    {
        (self.cnf.clauses.len() + self.steps.len()) as u32
    }

    /// How many variables the formula has.
    pub fn vars(&self) -> u32
        ensures { result ≡ self.now.vars }
    {
        self.cnf.vars
    }

    /// Each assignment that satisfies the formula satisfies all clauses of the log. So an empty clause at any place shows that none does.
    pub fn clauses_follow(&self)
        ensures { ClausesFollow self.now }
    {
        let _steps = self.steps.len();
    }

    /// Whether there is a last step and its clause is empty. Then no assignment satisfies the formula.
    pub fn ends(&self) -> bool
        ensures ended { IsTrue result ↔ HasEnded self.now.steps }
        ensures refutes { IsTrue result → ¬ (HasSolution self.now.given) }
        ensures held { StepsHold self.now.vars self.now.given self.now.steps }
    {
        match self.steps.last() {
            Some(step) => step.lits.is_empty(),
            None => false,
        }
    }
}
