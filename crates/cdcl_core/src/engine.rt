//! The core: the log, the true literals and the watches, and how literals become true by clauses.
ghost use Rattle.std.specs.Prelude.{◌≡◌, ◌≢◌, ℕ, ◌+◌, ◌*◌, ◌/◌, ◌<◌, ◌≤◌, ◌^◌, ◌-◌, true, false, [], ◌∷◌, ◌++◌, length, List, Option, Some, None, IfOk, IfSome, OnOk, OnErr, IsTrue, MatchOption, suc};
ghost use Rattle.std.specs.List.{All};
ghost use Rattle.rsfq_ids.specs.Formula.{IsOver, IsFormula, opposite};
ghost use Rattle.proof_arena.specs.Log.{clauses_of};
ghost use Rattle.proof_arena.specs.Step.{is_among, StepHolds};
ghost use Rattle.cdcl_core.specs.declared.trail.TrueLit.{TrueLit};
ghost use Rattle.cdcl_core.specs.Trail.{level_in, is_true, level_of, up_to, IsFree, IsFalse, IsQuiet, clause_at};
ghost use Rattle.cdcl_core.specs.Search.{IsGrown, IsConflict, IsAsserting, first_of};
ghost use Rattle.cdcl_core.specs.Watch.{IsVisit, Visits, CanVisit, IsMadeTrue, IsWired, node_at};

use crate::trail::Trail;
use crate::watches::{Watches, partner};
use bumpalo::Bump;
use proof_arena::ProofLog;
use rsfq_ids::circuit::Cnf;
use rsfq_ids::id::{ClauseId, Id, Lit};
use rsfq_ids::list::NoMemory;
use std::alloc::Global;

/// The log, the true literals, how many of them were looked at, how many clauses of the formula were looked at for those of one literal,
/// and the watches.
#[derive(Drop)]
pub(crate) struct Core<'a> {
    pub(crate) log: ProofLog<'a>,
    pub(crate) trail: Trail,
    pub(crate) done: usize,
    pub(crate) fresh: usize,
    pub(crate) watches: Watches,
}

/// A literal of a clause, other than this one, that is not false.
fn find_watch(trail: &Trail, clause: &[Lit], other: Lit) -> Option<Lit>
    requires { IsOver trail.now.vars clause.now }
    ensures { MatchOption result ((lit : ℕ) → is_among clause.now lit ≡ true → lit ≢ other → IsTrue (is_true trail.now.trail (opposite lit))) (λ lit. (is_among clause.now lit ≡ true) × ((lit ≢ other) × (level_in trail.now.trail (opposite lit) ≡ None))) }
{
    for lit in clause {
        if lit.index() != other.index() && trail.level_in(lit.opposite()).is_none() {
            return Some(*lit);
        }
    }
    None
}

/// Makes a literal that is not true true by a clause, or answers the clause where the literal is false.
fn force(trail: &mut Trail, lit: Lit, id: ClauseId) -> Option<ClauseId>
    requires within { lit < 2 * trail.old.vars }
    requires open { level_in trail.old.trail lit ≡ None }
    ensures vars { trail.new.vars ≡ trail.old.vars }
    ensures forced { MatchOption result (IsFree trail.old.trail lit × (trail.new.trail ≡ record { lit = lit; level = level_of trail.old.trail; reason = Some id } ∷ trail.old.trail)) (λ found. (found ≡ id) × (IsTrue (is_true trail.old.trail (opposite lit)) × (trail.new.trail ≡ trail.old.trail))) }
{
    if trail.level_in(lit.opposite()).is_some() {
        return Some(id);
    }
    let level = trail.level();
    trail.push(lit, level, Some(id));
    None
}

/// Makes the literal of a clause of one literal true, or answers the clause where all its literals are false. It has at most one.
fn make_lone(trail: &mut Trail, clause: &[Lit], id: ClauseId) -> Option<ClauseId>
    requires over { IsOver trail.old.vars clause.now }
    requires short { length clause.now < 2 }
    ensures vars { trail.new.vars ≡ trail.old.vars }
    ensures made { MatchOption result ((lit : ℕ) × ((clause.now ≡ lit ∷ []) × IsMadeTrue trail.old.trail trail.new.trail lit id)) (λ found. (found ≡ id) × ((trail.new.trail ≡ trail.old.trail) × IsFalse trail.old.trail clause.now)) }
{
    match clause.first() {
        None => Some(id),
        Some(lit) => {
            if trail.level_in(*lit).is_some() {
                None
            } else {
                force(trail, *lit, id)
            }
        }
    }
}

/// The watches of the clauses of a formula.
fn watch_all(alloc: Global, cnf: &Cnf) -> Result<Watches, NoMemory>
    requires { IsFormula cnf.now }
    ensures heads { IfOk result (λ watches. length watches.heads.items ≡ 2 * cnf.now.vars) }
    ensures nodes { IfOk result (λ watches. 2 * length cnf.now.clauses ≤ length watches.nodes.items) }
    ensures over { IfOk result (λ watches. (n : ℕ) → n < length watches.nodes.items → 0 < cnf.now.vars → (node_at watches.nodes.items n).lit < 2 * cnf.now.vars) }
    ensures wired { IfOk result (λ watches. IsWired cnf.now.clauses (length cnf.now.clauses) watches.heads.items watches.nodes.items) }
{
    let clauses = cnf.clauses.as_slice();
    let mut watches = Watches::new(alloc, cnf.vars)?;
    watches.make_room(2 * clauses.len())?;
    for i in 0..clauses.len() {
        watches.watch(i, clauses[i].as_slice());
    }
    Ok(watches)
}

impl<'a> Core<'a> {
    ghost use Rattle.cdcl_core.specs.Cores.{IsCoreOf, Begins};

    /// The core at the beginning.
    pub(crate) fn new(alloc: Global, cnf: &'a Cnf, arena: &'a Bump) -> Result<Core<'a>, NoMemory>
        requires { IsFormula cnf.now }
        ensures core { IfOk result (λ core. IsCoreOf core) }
        ensures log { IfOk result (λ core. core.log ≡ record { vars = cnf.entry.now.vars; given = cnf.entry.now.clauses; steps = [] }) }
        ensures trail { IfOk result (λ core. core.trail.trail ≡ []) }
    {
        let trail = Trail::new(alloc, cnf.vars)?;
        let watches = watch_all(alloc, cnf)?;
        let log = ProofLog::new(alloc, cnf, arena);
        Ok(Core {
            log,
            trail,
            done: 0,
            fresh: 0,
            watches,
        })
    }

    /// Looks at a node whose literal became false.
    fn visit_node(&mut self, node: usize, gone: Lit) -> Option<ClauseId>
        requires vars { self.old.trail.vars ≡ self.old.log.vars }
        requires visit { CanVisit self.old.log.vars (clauses_of self.old.log) self.old.trail.trail self.old.watches.heads.items self.old.watches.nodes.items gone node None }
        ensures log { self.new.log ≡ self.old.log }
        ensures vars { self.new.trail.vars ≡ self.old.trail.vars }
        ensures done { self.new.done ≡ self.old.done }
        ensures fresh { self.new.fresh ≡ self.old.fresh }
        ensures grown { IsGrown self.old.trail.trail self.new.trail.trail }
        ensures still { All (IsQuiet self.old.trail.trail) (clauses_of self.old.log) → (self.new.trail ≡ self.old.trail) × (result ≡ None) }
        ensures visited { (older : List TrueLit) (entry : TrueLit) (left : ℕ) → Visits self.old.log.vars (clauses_of self.old.log) self.old.trail.trail older entry self.old.watches.heads.items self.old.watches.nodes.items gone (Some node) (suc left) None → Visits self.old.log.vars (clauses_of self.old.log) self.new.trail.trail older entry self.new.watches.heads.items self.new.watches.nodes.items gone (node_at self.old.watches.nodes.items node).next left result }
    {
        let _clauses = self.log.clauses();
        let id = ClauseId::of((node / 2) as u32);
        let clause = self.log.clause(id);
        let other = self.watches.nodes[partner(node)].lit;
        if self.trail.level_in(other).is_some() {
            self.watches.attach(node, gone);
            return None;
        }
        match find_watch(&self.trail, clause, other) {
            Some(lit) => {
                self.watches.attach(node, lit);
                None
            }
            None => {
                self.watches.attach(node, gone);
                force(&mut self.trail, other, id)
            }
        }
    }

    /// Looks at a node whose literal became false, or puts it back where a clause was found to be false before.
    fn visit(&mut self, found: Option<ClauseId>, node: usize, gone: Lit) -> Option<ClauseId>
        requires vars { self.old.trail.vars ≡ self.old.log.vars }
        requires visit { CanVisit self.old.log.vars (clauses_of self.old.log) self.old.trail.trail self.old.watches.heads.items self.old.watches.nodes.items gone node found }
        ensures log { self.new.log ≡ self.old.log }
        ensures vars { self.new.trail.vars ≡ self.old.trail.vars }
        ensures done { self.new.done ≡ self.old.done }
        ensures fresh { self.new.fresh ≡ self.old.fresh }
        ensures grown { IsGrown self.old.trail.trail self.new.trail.trail }
        ensures still { All (IsQuiet self.old.trail.trail) (clauses_of self.old.log) → found ≡ None → (self.new.trail ≡ self.old.trail) × (result ≡ None) }
        ensures visited { (older : List TrueLit) (entry : TrueLit) (left : ℕ) → Visits self.old.log.vars (clauses_of self.old.log) self.old.trail.trail older entry self.old.watches.heads.items self.old.watches.nodes.items gone (Some node) (suc left) found → Visits self.old.log.vars (clauses_of self.old.log) self.new.trail.trail older entry self.new.watches.heads.items self.new.watches.nodes.items gone (node_at self.old.watches.nodes.items node).next left result }
    {
        match found {
            None => self.visit_node(node, gone),
            Some(_) => {
                self.watches.attach(node, gone);
                found
            }
        }
    }

    /// Looks at all clauses that watch a literal that became false.
    fn visit_all(&mut self, gone: Lit) -> Option<ClauseId>
        requires vars { self.old.trail.vars ≡ self.old.log.vars }
        requires begins { (older : List TrueLit) × ((entry : TrueLit) × Begins self.old.log.vars (clauses_of self.old.log) self.old.trail.trail older entry self.old.watches.heads.items self.old.watches.nodes.items gone) }
        ensures log { self.new.log ≡ self.old.log }
        ensures vars { self.new.trail.vars ≡ self.old.trail.vars }
        ensures done { self.new.done ≡ self.old.done }
        ensures fresh { self.new.fresh ≡ self.old.fresh }
        ensures grown { IsGrown self.old.trail.trail self.new.trail.trail }
        ensures still { All (IsQuiet self.old.trail.trail) (clauses_of self.old.log) → (self.new.trail ≡ self.old.trail) × (result ≡ None) }
        ensures visited { (older : List TrueLit) (entry : TrueLit) → Begins self.old.log.vars (clauses_of self.old.log) self.old.trail.trail older entry self.old.watches.heads.items self.old.watches.nodes.items gone → (left : ℕ) × Visits self.old.log.vars (clauses_of self.old.log) self.new.trail.trail older entry self.new.watches.heads.items self.new.watches.nodes.items gone None left result }
    {
        let mut cursor = self.watches.detach(gone);
        let mut left = self.watches.nodes.len();
        let mut found = None;
        'nodes: while let Some(node) = cursor {
            left -= 1;
            cursor = self.watches.nodes[node].next;
            found = self.visit(found, node, gone);
        }
        found
    }

    /// Looks at the clauses that watch the literal that the first true literal not looked at made false.
    fn look_next(&mut self) -> Option<ClauseId>
        requires core { IsCoreOf self.old }
        requires more { self.old.done < length self.old.trail.trail }
        ensures core { IsCoreOf self.new }
        ensures log { self.new.log ≡ self.old.log }
        ensures fresh { self.new.fresh ≡ self.old.fresh }
        ensures grown { IsGrown self.old.trail.trail self.new.trail.trail }
        ensures still { All (IsQuiet self.old.trail.trail) (clauses_of self.old.log) → (self.new.trail.trail ≡ self.old.trail.trail) × (result ≡ None) }
        ensures looked { MatchOption result (self.new.done ≡ self.old.done + 1) (IsConflict (clauses_of self.old.log) self.new.trail.trail) }
    {
        let _count = self.trail.len();
        let gone = self.trail.at(self.done).lit.opposite();
        let found = self.visit_all(gone);
        if found.is_none() {
            self.done += 1;
        }
        found
    }

    /// Looks at the first clause of the formula that was not looked at, whether it has at most one literal.
    fn take_short(&mut self) -> Option<ClauseId>
        requires core { IsCoreOf self.old }
        requires more { self.old.fresh < length self.old.log.given }
        ensures core { IsCoreOf self.new }
        ensures log { self.new.log ≡ self.old.log }
        ensures grown { IsGrown self.old.trail.trail self.new.trail.trail }
        ensures still { All (IsQuiet self.old.trail.trail) (clauses_of self.old.log) → (self.new.trail.trail ≡ self.old.trail.trail) × (result ≡ None) }
        ensures looked { MatchOption result (self.new.fresh ≡ self.old.fresh + 1) (IsConflict (clauses_of self.old.log) self.new.trail.trail) }
    {
        let _clauses = self.log.clauses();
        let id = ClauseId::of(self.fresh as u32);
        let clause = self.log.clause(id);
        if clause.len() >= 2 {
            self.fresh += 1;
            return None;
        }
        let found = make_lone(&mut self.trail, clause, id);
        if found.is_none() {
            self.fresh += 1;
        }
        found
    }

    /// Looks at the clauses of the formula that were not looked at, whether they have at most one literal.
    fn settle_shorts(&mut self) -> Option<ClauseId>
        requires core { IsCoreOf self.old }
        ensures core { IsCoreOf self.new }
        ensures log { self.new.log ≡ self.old.log }
        ensures grown { IsGrown self.old.trail.trail self.new.trail.trail }
        ensures still { All (IsQuiet self.old.trail.trail) (clauses_of self.old.log) → (self.new.trail.trail ≡ self.old.trail.trail) × (result ≡ None) }
        ensures looked { MatchOption result (self.new.fresh ≡ length self.new.log.given) (IsConflict (clauses_of self.old.log) self.new.trail.trail) }
    {
        let given = (self.log.clauses() - self.log.steps()) as usize;
        'shorts: while self.fresh < given {
            let found = self.take_short();
            if found.is_some() {
                return found;
            }
        }
        None
    }

    /// Looks at the clauses that watch the literals that are false, and makes literals true by them.
    fn settle_queue(&mut self) -> Option<ClauseId>
        requires core { IsCoreOf self.old }
        ensures core { IsCoreOf self.new }
        ensures log { self.new.log ≡ self.old.log }
        ensures fresh { self.new.fresh ≡ self.old.fresh }
        ensures grown { IsGrown self.old.trail.trail self.new.trail.trail }
        ensures still { All (IsQuiet self.old.trail.trail) (clauses_of self.old.log) → (self.new.trail.trail ≡ self.old.trail.trail) × (result ≡ None) }
        ensures looked { MatchOption result (self.new.done ≡ length self.new.trail.trail) (IsConflict (clauses_of self.old.log) self.new.trail.trail) }
    {
        'queue: while self.done < self.trail.len() {
            let found = self.look_next();
            if found.is_some() {
                return found;
            }
        }
        None
    }

    /// Makes literals true by clauses until a clause is false or none is false or unit.
    pub(crate) fn settle(&mut self) -> Option<ClauseId>
        requires core { IsCoreOf self.old }
        ensures core { IsCoreOf self.new }
        ensures log { self.new.log ≡ self.old.log }
        ensures grown { IsGrown self.old.trail.trail self.new.trail.trail }
        ensures still { All (IsQuiet self.old.trail.trail) (clauses_of self.old.log) → (self.new.trail.trail ≡ self.old.trail.trail) × (result ≡ None) }
        ensures looked { result ≡ None → self.new.done ≡ length self.new.trail.trail }
        ensures settled { MatchOption result (All (IsQuiet self.new.trail.trail) (clauses_of self.old.log)) (IsConflict (clauses_of self.old.log) self.new.trail.trail) }
    {
        let found = self.settle_shorts();
        if found.is_some() {
            return found;
        }
        self.settle_queue()
    }

    /// Takes the values of all literals above a level.
    pub(crate) fn go_back(&mut self, level: u32)
        requires core { IsCoreOf self.old }
        requires level { level ≤ level_of self.old.trail.trail }
        ensures core { IsCoreOf self.new }
        ensures log { self.new.log ≡ self.old.log }
        ensures trail { self.new.trail.trail ≡ up_to level self.old.trail.trail }
    {
        if self.trail.level() == level {
            return;
        }
        self.trail.drop_above(level);
        self.done = self.trail.len();
    }

    /// Adds a clause that was learnt, and makes its first literal true by it. After a refusal the log and the true literals are as they were.
    pub(crate) fn add_learnt(
        &mut self,
        lits: &[Lit],
        hints: &[ClauseId],
    ) -> Result<ClauseId, NoMemory>
        requires core { IsCoreOf self.old }
        requires holds { StepHolds self.old.log.vars (clauses_of self.old.log) lits.now hints.now }
        requires printed { All (λ hint. hint < 2 ^ 32 - 1) hints.now }
        requires asserts { IsAsserting self.old.trail.trail lits.now }
        requires room { length (clauses_of self.old.log) < 2 ^ 32 - 1 }
        ensures core { IsCoreOf self.new }
        ensures id { IfOk result (λ id. id ≡ length (clauses_of self.old.log)) }
        ensures log { OnOk result (self.new.log ≡ record self.old.log { steps = self.old.log.steps ++ record { lits = lits.now; hints = hints.now } ∷ [] }) }
        ensures trail { OnOk result (self.new.trail.trail ≡ record { lit = first_of lits.now; level = level_of self.old.trail.trail; reason = Some (length (clauses_of self.old.log)) } ∷ self.old.trail.trail) }
        ensures kept_log { OnErr result (self.new.log ≡ self.old.log) }
        ensures kept_trail { OnErr result (self.new.trail.trail ≡ self.old.trail.trail) }
    {
        let index = self.log.clauses() as usize;
        self.watches.make_room(2 * index + 2)?;
        let id = self.log.add(lits, hints)?;
        self.watches.watch(index, lits);
        let level = self.trail.level();
        self.trail.push(lits[0], level, Some(id));
        Ok(id)
    }
}
