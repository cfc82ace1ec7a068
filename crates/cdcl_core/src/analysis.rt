//! The analysis of a clause that is false: which clause follows, in which each literal is false and one alone became false at the open level.
//!
//! It goes back over the true literals that are marked, the newest first, and replaces each one of the open level by the other literals of
//! the clause that made it true, as long as another literal of that level is marked (the first unique implication point: Marques-Silva and
//! Sakallah, GRASP, 1996). Literals of level 0 are replaced too, and those of other levels whose clause adds none (local minimisation:
//! Sörensson and Biere, Minimizing learned clauses, 2009). The clauses that were used, in the other order, are the hints.
ghost use Rattle.std.specs.Prelude.{◌≡◌, ◌⊎◌, ◌||◌, ◌==◌, ℕ, ◌+◌, ◌*◌, ◌<◌, ◌≤◌, ◌^◌, Bool, true, false, [], ◌∷◌, length, List, Option, Some, None, IfOk, OnOk, IsTrue, MatchOption};
ghost use Rattle.std.specs.List.{All};
ghost use Rattle.rsfq_ids.specs.Formula.{IsOver, Clause, opposite};
ghost use Rattle.proof_arena.specs.Log.{clauses_of};
ghost use Rattle.proof_arena.specs.Step.{is_among, ends_in_conflict};
ghost use Rattle.proof_arena.specs.Table.{falses_of};
ghost use Rattle.cdcl_core.specs.declared.trail.TrueLit.{TrueLit};
ghost use Rattle.cdcl_core.specs.Trail.{level_in, level_of, clause_at, IsTrail};
ghost use Rattle.cdcl_core.specs.Oldest.{oldest};
ghost use Rattle.cdcl_core.specs.Queued.{AreQueued};
ghost use Rattle.cdcl_core.specs.Search.{IsConflict};
ghost use Rattle.cdcl_core.specs.Analysis.{open_in, IsNext, IsShape, IsBack, AreFalse};

use crate::engine::Core;
use crate::queue::Queue;
use crate::trail::{Trail, TrueLit};
use proof_arena::{Marks, ProofLog};
use rsfq_ids::id::{ClauseId, Id, Lit};
use rsfq_ids::list::NoMemory;

/// What was learnt last, its hints, and what an analysis marks. Where it ends, the hints stand in the order in which they are read.
#[derive(Drop)]
pub(crate) struct Analysis {
    pub(crate) learnt: Vec<Lit>,
    pub(crate) hints: Vec<ClauseId>,
    pub(crate) marks: Marks,
    pub(crate) queue: Queue,
    pub(crate) open: usize,
}

/// Marks a literal, and answers 1 where it became false at this level and was not marked before, and else 0.
fn mark_one(marks: &mut Marks, trail: &Trail, lit: Lit, level: u32) -> usize
    requires over { lit < 2 * trail.now.vars }
    requires table { length marks.old.table ≡ 2 * trail.now.vars }
    ensures table { length marks.new.table ≡ length marks.old.table }
    ensures marked { (other : ℕ) → falses_of marks.new other ≡ ((other == lit) || falses_of marks.old other) }
    ensures counted { (clauses : List Clause) (older : List TrueLit) → IsTrail trail.now.vars clauses older → level_in older (opposite lit) ≡ level_in trail.now.trail (opposite lit) → open_in (falses_of marks.new) level older ≡ result + open_in (falses_of marks.old) level older }
    ensures few { result ≤ 1 }
{
    if marks.is_false(lit) {
        return 0;
    }
    marks.make_false(lit);
    match trail.level_in(lit.opposite()) {
        Some(at) if at == level => 1,
        _ => 0,
    }
}

/// Marks the literals of a clause, and answers how many of them became false at this level and were not marked before.
fn mark(marks: &mut Marks, trail: &Trail, clause: &[Lit], level: u32) -> usize
    requires over { IsOver trail.now.vars clause.now }
    requires table { length marks.old.table ≡ 2 * trail.now.vars }
    ensures table { length marks.new.table ≡ length marks.old.table }
    ensures marked { (lit : ℕ) → falses_of marks.new lit ≡ (is_among clause.now lit || falses_of marks.old lit) }
    ensures counted { (clauses : List Clause) (older : List TrueLit) → IsTrail trail.now.vars clauses older → ((lit : ℕ) → is_among clause.now lit ≡ true → level_in older (opposite lit) ≡ level_in trail.now.trail (opposite lit)) → open_in (falses_of marks.new) level older ≡ result + open_in (falses_of marks.old) level older }
    ensures few { result ≤ length clause.now }
{
    let mut count = 0;
    for lit in clause {
        count += mark_one(marks, trail, *lit, level);
    }
    count
}

/// The level at which the second literal of a clause became false, or 0 where there is none. All its literals are false.
pub(crate) fn back_level(trail: &Trail, learnt: &[Lit]) -> u32
    requires over { IsOver trail.now.vars learnt.now }
    requires denied { AreFalse trail.now.trail learnt.now }
    ensures { IsBack trail.now.trail learnt.now result }
{
    if learnt.len() < 2 {
        return 0;
    }
    match trail.level_in(learnt[1].opposite()) {
        Some(level) => level,
        None => 0,
    }
}

/// 1 where two levels are the same, and else 0.
fn one_of(one: u32, other: u32) -> usize
    ensures same { one ≡ other → result ≡ 1 }
    ensures differ { (one ≡ other → ⊥) → result ≡ 0 }
{
    if one == other { 1 } else { 0 }
}

/// Whether a literal is false since level 0.
fn is_fixed(trail: &Trail, lit: Lit) -> bool
    requires { lit < 2 * trail.now.vars }
{
    match trail.level_in(lit.opposite()) {
        Some(level) => level == 0,
        None => false,
    }
}

/// Whether each literal of a clause but this one is marked or false since level 0.
fn is_covered(marks: &Marks, trail: &Trail, clause: &[Lit], but: Lit) -> bool
    requires { IsOver trail.now.vars clause.now }
{
    for lit in clause {
        if lit.index() != but.index() && !marks.is_false(*lit) && !is_fixed(trail, *lit) {
            return false;
        }
    }
    true
}

/// The clause by which a true literal that is marked is replaced, where so many of the open level are marked: one of level 0, one of the open
/// level while another of that level is marked, and one of a lower level where that adds no literal, so that the clause gets shorter.
fn replacement(
    marks: &Marks,
    count: usize,
    log: &ProofLog<'_>,
    trail: &Trail,
    entry: TrueLit,
    level: u32,
) -> Option<ClauseId>
    requires vars { trail.now.vars ≡ log.now.vars }
    requires next { (older : List TrueLit) × IsNext log.now.vars (clauses_of log.now) trail.now.trail entry older }
    ensures { MatchOption result ((entry.reason ≡ None) ⊎ ((0 < entry.level) × (entry.level ≡ level → count ≤ 1))) (λ reason. (entry.reason ≡ Some reason) × ((entry.level ≡ 0) ⊎ ((entry.level < level) ⊎ ((entry.level ≡ level) × (1 < count))))) }
{
    let reason = entry.reason?;
    if entry.level == 0 || (entry.level == level && count > 1) {
        return Some(reason);
    }
    if entry.level < level && is_covered(marks, trail, log.clause(reason), entry.lit) {
        return Some(reason);
    }
    None
}

impl Analysis {
    ghost use Rattle.cdcl_core.specs.Analysed.{IsAnalysed};

    /// Marks the literals of the clause that is false.
    fn begin(
        &mut self,
        log: &ProofLog<'_>,
        trail: &Trail,
        conflict: ClauseId,
    ) -> Result<(), NoMemory>
        requires vars { trail.now.vars ≡ log.now.vars }
        requires table { length self.old.marks.table ≡ 2 * trail.now.vars }
        requires known { IsTrail log.now.vars (clauses_of log.now) trail.now.trail }
        requires conflict { IsConflict (clauses_of log.now) trail.now.trail conflict }
        ensures table { length self.new.marks.table ≡ length self.old.marks.table }
        ensures queued { OnOk result (AreQueued trail.now.trail (falses_of self.new.marks) (length trail.now.trail) self.new.queue) }
        ensures begun { OnOk result (IsAnalysed log.now trail.now.trail trail.now.trail (level_of trail.now.trail) self.new) }
    {
        self.marks.clear();
        self.queue.clear();
        self.learnt.clear();
        self.hints.clear();
        self.hints.push(conflict)?;
        let clause = log.clause(conflict);
        self.queue.add(&self.marks, trail, clause)?;
        self.open = mark(&mut self.marks, trail, clause, trail.level());
        Ok(())
    }

    /// Replaces a true literal by the clause that made it true.
    fn resolve(
        &mut self,
        log: &ProofLog<'_>,
        trail: &Trail,
        entry: TrueLit,
        reason: ClauseId,
        level: u32,
    ) -> Result<(), NoMemory>
        requires vars { trail.now.vars ≡ log.now.vars }
        requires table { length self.old.marks.table ≡ 2 * trail.now.vars }
        requires known { IsTrail log.now.vars (clauses_of log.now) trail.now.trail }
        requires next { (older : List TrueLit) × (IsNext log.now.vars (clauses_of log.now) trail.now.trail entry older × IsAnalysed log.now trail.now.trail (entry ∷ older) level self.old) }
        requires reason { entry.reason ≡ Some reason }
        requires marked { falses_of self.old.marks (opposite entry.lit) ≡ true }
        requires why { (entry.level ≡ 0) ⊎ ((entry.level < level) ⊎ ((entry.level ≡ level) × (1 < self.old.open))) }
        ensures table { length self.new.marks.table ≡ length self.old.marks.table }
        ensures queued { OnOk result ((place : ℕ) → place ≤ length trail.now.trail → AreQueued trail.now.trail (falses_of self.old.marks) place self.old.queue → AreQueued trail.now.trail (falses_of self.new.marks) place self.new.queue) }
        ensures resolved { OnOk result ((older : List TrueLit) → IsNext log.now.vars (clauses_of log.now) trail.now.trail entry older → IsAnalysed log.now trail.now.trail (entry ∷ older) level self.old → IsAnalysed log.now trail.now.trail older level self.new) }
    {
        let _vars = log.vars();
        self.hints.push(reason)?;
        let clause = log.clause(reason);
        self.queue.add(&self.marks, trail, clause)?;
        let opened = mark(&mut self.marks, trail, clause, level);
        self.open = self.open - one_of(entry.level, level) + opened;
        Ok(())
    }

    /// Takes a true literal into the clause, by its opposite.
    fn take(
        &mut self,
        log: &ProofLog<'_>,
        trail: &Trail,
        entry: TrueLit,
        level: u32,
    ) -> Result<(), NoMemory>
        requires level { level ≡ level_of trail.now.trail }
        requires known { IsTrail log.now.vars (clauses_of log.now) trail.now.trail }
        requires next { (older : List TrueLit) × (IsNext log.now.vars (clauses_of log.now) trail.now.trail entry older × IsAnalysed log.now trail.now.trail (entry ∷ older) level self.old) }
        requires marked { falses_of self.old.marks (opposite entry.lit) ≡ true }
        requires why { (entry.reason ≡ None) ⊎ ((0 < entry.level) × (entry.level ≡ level → self.old.open ≤ 1)) }
        ensures table { length self.new.marks.table ≡ length self.old.marks.table }
        ensures queued { OnOk result ((place : ℕ) → place ≤ length trail.now.trail → AreQueued trail.now.trail (falses_of self.old.marks) place self.old.queue → AreQueued trail.now.trail (falses_of self.new.marks) place self.new.queue) }
        ensures taken { OnOk result ((older : List TrueLit) → IsNext log.now.vars (clauses_of log.now) trail.now.trail entry older → IsAnalysed log.now trail.now.trail (entry ∷ older) level self.old → IsAnalysed log.now trail.now.trail older level self.new) }
    {
        self.learnt.push(entry.lit.opposite())?;
        self.open -= one_of(entry.level, level);
        Ok(())
    }

    /// Whether the opposite of a literal is marked.
    fn is_marked(&self, lit: Lit) -> bool
        ensures { result ≡ falses_of self.now.marks (opposite lit) }
    {
        self.marks.is_false(lit.opposite())
    }

    /// The clause by which a true literal that is marked is replaced.
    fn replaced_by(
        &self,
        log: &ProofLog<'_>,
        trail: &Trail,
        entry: &TrueLit,
        level: u32,
    ) -> Option<ClauseId>
        requires vars { trail.now.vars ≡ log.now.vars }
        requires next { (older : List TrueLit) × (IsNext log.now.vars (clauses_of log.now) trail.now.trail entry.now older × IsAnalysed log.now trail.now.trail (entry.now ∷ older) level self.now) }
        ensures { MatchOption result ((entry.now.reason ≡ None) ⊎ ((0 < entry.now.level) × (entry.now.level ≡ level → self.now.open ≤ 1))) (λ reason. (entry.now.reason ≡ Some reason) × ((entry.now.level ≡ 0) ⊎ ((entry.now.level < level) ⊎ ((entry.now.level ≡ level) × (1 < self.now.open))))) }
    {
        replacement(&self.marks, self.open, log, trail, *entry, level)
    }

    /// Looks at the newest true literal that was not looked at.
    fn look_at(
        &mut self,
        log: &ProofLog<'_>,
        trail: &Trail,
        entry: TrueLit,
        level: u32,
    ) -> Result<(), NoMemory>
        requires vars { trail.now.vars ≡ log.now.vars }
        requires table { length self.old.marks.table ≡ 2 * trail.now.vars }
        requires known { IsTrail log.now.vars (clauses_of log.now) trail.now.trail }
        requires level { level ≡ level_of trail.now.trail }
        requires next { (older : List TrueLit) × (IsNext log.now.vars (clauses_of log.now) trail.now.trail entry older × IsAnalysed log.now trail.now.trail (entry ∷ older) level self.old) }
        ensures table { length self.new.marks.table ≡ length self.old.marks.table }
        ensures queued { OnOk result ((place : ℕ) → place ≤ length trail.now.trail → AreQueued trail.now.trail (falses_of self.old.marks) place self.old.queue → AreQueued trail.now.trail (falses_of self.new.marks) place self.new.queue) }
        ensures looked { OnOk result ((older : List TrueLit) → IsNext log.now.vars (clauses_of log.now) trail.now.trail entry older → IsAnalysed log.now trail.now.trail (entry ∷ older) level self.old → IsAnalysed log.now trail.now.trail older level self.new) }
    {
        if !self.is_marked(entry.lit) {
            return Ok(());
        }
        match self.replaced_by(log, trail, &entry, level) {
            Some(reason) => self.resolve(log, trail, entry, reason, level),
            None => self.take(log, trail, entry, level),
        }
    }

    /// Analyses a clause that is false.
    pub(crate) fn run(
        &mut self,
        log: &ProofLog<'_>,
        trail: &Trail,
        conflict: ClauseId,
    ) -> Result<(), NoMemory>
        requires vars { trail.now.vars ≡ log.now.vars }
        requires table { length self.old.marks.table ≡ 2 * trail.now.vars }
        requires known { IsTrail log.now.vars (clauses_of log.now) trail.now.trail }
        requires conflict { IsConflict (clauses_of log.now) trail.now.trail conflict }
        ensures table { length self.new.marks.table ≡ length self.old.marks.table }
        ensures ends { OnOk result (ends_in_conflict (clauses_of log.now) (is_among self.new.learnt.items) self.new.hints.items ≡ true) }
        ensures shape { OnOk result (IsShape trail.now.trail [] (level_of trail.now.trail) 0 self.new.learnt.items) }
        ensures printed { OnOk result (All (λ hint. hint < length (clauses_of log.now)) self.new.hints.items) }
    {
        self.begin(log, trail, conflict)?;
        let level = trail.level();
        let mut place = trail.len();
        'walk: while let Some(next) = self.queue.below(place) {
            place = next;
            let entry = trail.at(place);
            self.look_at(log, trail, entry, level)?;
        }
        self.hints.reverse();
        Ok(())
    }

    /// Analyses a clause that is false, of a core.
    pub(crate) fn run_on(&mut self, core: &Core<'_>, conflict: ClauseId) -> Result<(), NoMemory>
        requires vars { core.now.trail.vars ≡ core.now.log.vars }
        requires table { length self.old.marks.table ≡ 2 * core.now.trail.vars }
        requires known { IsTrail core.now.log.vars (clauses_of core.now.log) core.now.trail.trail }
        requires conflict { IsConflict (clauses_of core.now.log) core.now.trail.trail conflict }
        ensures table { length self.new.marks.table ≡ length self.old.marks.table }
        ensures ends { OnOk result (ends_in_conflict (clauses_of core.now.log) (is_among self.new.learnt.items) self.new.hints.items ≡ true) }
        ensures shape { OnOk result (IsShape core.now.trail.trail [] (level_of core.now.trail.trail) 0 self.new.learnt.items) }
        ensures printed { OnOk result (All (λ hint. hint < length (clauses_of core.now.log)) self.new.hints.items) }
    {
        self.run(&core.log, &core.trail, conflict)
    }
}
