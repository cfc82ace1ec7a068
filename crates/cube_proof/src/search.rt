//! Unit propagation from a word, in time linear in the formula.
//!
//! Each clause has a number of literals that count: those that are not false, and those whose clauses were not looked at since they became
//! false. A clause is read only where that number is at most one.
ghost use Rattle.std.specs.Prelude.{◌≡◌, ℕ, ◌*◌, ◌<◌, ◌∷◌, ◌++◌, ◌||◌, [], true, false, length, IfOk, OnOk, slice_index_or};
ghost use Rattle.std.specs.List.{All, Contains};
ghost use Rattle.rsfq_ids.specs.Formula.{IsFormula, IsOver};
ghost use Rattle.proof_arena.specs.Step.{reading, is_among, is_tautology};
ghost use Rattle.proof_arena.specs.declared.hint.HintReading.TheVariants as told;
ghost use Rattle.proof_arena.specs.Table.{falses_of};
ghost use Rattle.cube_proof.specs.Users.{lists_of, AreUsers};
ghost use Rattle.cube_proof.specs.Search.{point_of, sizes_of, IsTrace, AreHints, HasTables, IsVisit, IsUnderWay, AreWatched, IsLook, IsPass, IsBegun, IsClosed, IsRefuted};

use proof_arena::{HintReading, Marks};
use rsfq_ids::circuit::Cnf;
use rsfq_ids::id::{ClauseId, Id, Lit};
use rsfq_ids::list::{List, NoMemory};
use std::alloc::Global;

/// A clause is read where at most so many of its literals count.
const FEW: usize = 1;

/// A clause by which a literal became false: it is the opposite of the one literal that was open.
#[derive(Clone, Copy)]
pub(crate) struct Reason {
    pub(crate) clause: ClauseId,
    pub(crate) lit: Lit,
}

/// What propagation from a word has found so far.
#[derive(Drop)]
pub(crate) struct Search {
    /// Which literals are false.
    pub(crate) marks: Marks,
    /// For each clause how many of its literals count.
    pub(crate) left: Vec<usize>,
    /// The false literals whose clauses were not looked at yet.
    pub(crate) stack: Vec<Lit>,
    /// The clauses by which literals became false, in order.
    pub(crate) reasons: Vec<Reason>,
    /// Which literals a conflict needs to be false.
    pub(crate) needed: Marks,
    /// The clauses that lead to a conflict.
    pub(crate) hints: Vec<ClauseId>,
}

impl Search {
    /// Room for a formula of so many variables.
    pub(crate) fn new(alloc: Global, vars: u32) -> Result<Search, NoMemory>
        ensures { IfOk result (HasTables vars) }
    {
        Ok(Search {
            marks: Marks::new(alloc, vars)?,
            left: Vec::new(alloc),
            stack: Vec::new(alloc),
            reasons: Vec::new(alloc),
            needed: Marks::new(alloc, vars)?,
            hints: Vec::new(alloc),
        })
    }

    /// Takes a clause as a hint, whose literals have to be false.
    fn need(&mut self, cnf: &Cnf, clause: ClauseId) -> Result<(), NoMemory>
        requires formula { IsFormula cnf.now }
        requires there { clause < length cnf.now.clauses }
        requires table { length self.old.needed.table ≡ 2 * cnf.now.vars }
        ensures needed { falses_of self.new.needed ≡ (λ lit. is_among (slice_index_or cnf.now.clauses clause []) lit || falses_of self.old.needed lit) }
        ensures hints { OnOk result (self.new.hints.items ≡ self.old.hints.items ++ clause ∷ []) }
        ensures table { length self.new.needed.table ≡ length self.old.needed.table }
        ensures marks { self.new.marks ≡ self.old.marks }
        ensures left { self.new.left ≡ self.old.left }
        ensures stack { self.new.stack ≡ self.old.stack }
        ensures reasons { self.new.reasons ≡ self.old.reasons }
    {
        let lits = cnf.clauses.as_slice()[clause.index()].as_slice();
        self.needed.deny(lits);
        self.hints.push(clause)?;
        Ok(())
    }

    /// Goes back from a clause all of whose literals are false, and keeps as hints the clauses by which it came to that.
    fn go_back(&mut self, cnf: &Cnf, word: &[Lit], clause: ClauseId) -> Result<(), NoMemory>
        requires formula { IsFormula cnf.now }
        requires there { clause < length cnf.now.clauses }
        requires table { length self.old.needed.table ≡ 2 * cnf.now.vars }
        requires traced { IsTrace cnf.now.clauses (is_among word.now) self.old.reasons.items (falses_of self.old.marks) }
        requires conflict { reading (falses_of self.old.marks) (slice_index_or cnf.now.clauses clause []) ≡ told.Conflict }
        ensures hints { OnOk result (AreHints cnf.now.clauses word.now self.new.hints.items) }
        ensures table { length self.new.needed.table ≡ 2 * cnf.now.vars }
        ensures marks { self.new.marks ≡ self.old.marks }
        ensures left { self.new.left ≡ self.old.left }
        ensures stack { self.new.stack ≡ self.old.stack }
    {
        self.needed.clear();
        self.hints.clear();
        self.need(cnf, clause)?;
        while let Some(reason) = self.reasons.pop() {
            if self.needed.is_false(reason.lit) {
                self.need(cnf, reason.clause)?;
            }
        }
        self.hints.reverse();
        Ok(())
    }

    /// Reads a clause, and makes the one literal of a unit clause true. Answers whether all literals are false, to which the hints then
    /// lead.
    fn visit(&mut self, cnf: &Cnf, word: &[Lit], place: u32) -> Result<bool, NoMemory>
        requires formula { IsFormula cnf.now }
        requires there { place < length cnf.now.clauses }
        requires tables { HasTables cnf.now.vars self.old }
        requires traced { IsTrace cnf.now.clauses (is_among word.now) self.old.reasons.items (falses_of self.old.marks) }
        ensures visit { IfOk result (λ conflict. IsVisit (reading (falses_of self.old.marks) (slice_index_or cnf.now.clauses place [])) place (point_of self.old) conflict (point_of self.new)) }
        ensures hints { IfOk result (λ conflict. conflict ≡ true → AreHints cnf.now.clauses word.now self.new.hints.items) }
        ensures tables { HasTables cnf.now.vars self.new }
        ensures left { self.new.left ≡ self.old.left }
    {
        let clause = &cnf.clauses.as_slice()[place as usize];
        match self.marks.read(clause.as_slice()) {
            HintReading::Conflict => {
                self.go_back(cnf, word, ClauseId::of(place))?;
                Ok(true)
            }
            HintReading::Unit(lit) => {
                let other = lit.opposite();
                self.marks.make_false(other);
                self.reasons.push(Reason {
                    clause: ClauseId::of(place),
                    lit: other,
                })?;
                self.stack.push(other)?;
                Ok(false)
            }
            HintReading::Passed | HintReading::NotUnit => Ok(false),
        }
    }

    /// Looks at a clause one of whose literals counts no more. Answers whether all literals are false.
    fn look_at(&mut self, cnf: &Cnf, word: &[Lit], lit: Lit, place: u32) -> Result<bool, NoMemory>
        requires formula { IsFormula cnf.now }
        requires there { place < length cnf.now.clauses }
        requires under_way { IsUnderWay cnf.now.vars cnf.now.clauses word.now self.old }
        requires watched { AreWatched cnf.now.clauses (length cnf.now.clauses) (lit ∷ self.old.stack.items) self.old }
        ensures looked { IfOk result (λ conflict. conflict ≡ false → IsLook cnf.now.vars cnf.now.clauses word.now lit place self.old self.new) }
        ensures refuted { IfOk result (λ conflict. conflict ≡ true → IsRefuted cnf.now.vars cnf.now.clauses word.now self.new) }
    {
        let left = self.left[place as usize].saturating_sub(1);
        self.left[place as usize] = left;
        if left > FEW {
            return Ok(false);
        }
        self.visit(cnf, word, place)
    }

    /// Looks at the clauses of a literal that has left the stack. Answers whether all literals of one are false.
    fn look_at_all(
        &mut self,
        cnf: &Cnf,
        word: &[Lit],
        lit: Lit,
        places: &[u32],
    ) -> Result<bool, NoMemory>
        requires formula { IsFormula cnf.now }
        requires inside { All (λ place. place < length cnf.now.clauses) places.now }
        requires listed { (place : ℕ) → place < length cnf.now.clauses → Contains (slice_index_or cnf.now.clauses place []) lit → Contains places.now place }
        requires under_way { IsUnderWay cnf.now.vars cnf.now.clauses word.now self.old }
        requires watched { AreWatched cnf.now.clauses (length cnf.now.clauses) (lit ∷ self.old.stack.items) self.old }
        ensures passed { IfOk result (λ conflict. conflict ≡ false → IsPass cnf.now.vars cnf.now.clauses word.now self.old self.new) }
        ensures refuted { IfOk result (λ conflict. conflict ≡ true → IsRefuted cnf.now.vars cnf.now.clauses word.now self.new) }
    {
        for place in places {
            if self.look_at(cnf, word, lit, *place)? {
                return Ok(true);
            }
        }
        Ok(false)
    }

    /// Looks at the clauses of all literals on the stack and of those that come to it. Answers whether there is a conflict.
    fn run(&mut self, cnf: &Cnf, users: &Vec<Vec<u32>>, word: &[Lit]) -> Result<bool, NoMemory>
        requires formula { IsFormula cnf.now }
        requires users { AreUsers (2 * cnf.now.vars) cnf.now.clauses (length cnf.now.clauses) (lists_of users.now.items) }
        requires under_way { IsUnderWay cnf.now.vars cnf.now.clauses word.now self.old }
        requires watched { AreWatched cnf.now.clauses (length cnf.now.clauses) self.old.stack.items self.old }
        ensures closed { IfOk result (λ conflict. conflict ≡ false → IsClosed cnf.now.clauses word.now (falses_of self.new.marks)) }
        ensures tables { OnOk result (HasTables cnf.now.vars self.new) }
        ensures refuted { IfOk result (λ conflict. conflict ≡ true → IsRefuted cnf.now.vars cnf.now.clauses word.now self.new) }
    {
        while let Some(lit) = self.stack.pop() {
            let places = users[lit.index()].as_slice();
            if self.look_at_all(cnf, word, lit, places)? {
                return Ok(true);
            }
        }
        Ok(false)
    }

    /// The number of literals of each clause.
    fn recount(&mut self, cnf: &Cnf) -> Result<(), NoMemory>
        ensures left { OnOk result (self.new.left.items ≡ sizes_of cnf.now.clauses) }
        ensures others { OnOk result (self.new ≡ record self.old { left = self.new.left }) }
    {
        self.left.clear();
        for clause in cnf.clauses.as_slice() {
            self.left.push(clause.len())?;
        }
        Ok(())
    }

    /// Begins anew, from a word alone.
    fn begin(&mut self, cnf: &Cnf, word: &[Lit]) -> Result<(), NoMemory>
        requires tables { HasTables cnf.now.vars self.old }
        requires over { IsOver cnf.now.vars word.now }
        requires apart { is_tautology word.now ≡ false }
        ensures begun { OnOk result (IsBegun cnf.now.vars cnf.now.clauses word.now self.new) }
    {
        self.marks.clear();
        self.marks.deny(word);
        self.reasons.clear();
        self.stack.clear();
        self.stack.extend_from_slice(word)?;
        self.recount(cnf)
    }

    /// Looks at the clauses of at most one literal. Answers whether there is a conflict.
    fn look_at_short(&mut self, cnf: &Cnf, word: &[Lit]) -> Result<bool, NoMemory>
        requires formula { IsFormula cnf.now }
        requires begun { IsBegun cnf.now.vars cnf.now.clauses word.now self.old }
        ensures under_way { IfOk result (λ conflict. conflict ≡ false → IsUnderWay cnf.now.vars cnf.now.clauses word.now self.new) }
        ensures watched { IfOk result (λ conflict. conflict ≡ false → AreWatched cnf.now.clauses (length cnf.now.clauses) self.new.stack.items self.new) }
        ensures refuted { IfOk result (λ conflict. conflict ≡ true → IsRefuted cnf.now.vars cnf.now.clauses word.now self.new) }
    {
        for place in 0..cnf.clauses.len() {
            if self.left[place] <= FEW && self.visit(cnf, word, place as u32)? {
                return Ok(true);
            }
        }
        Ok(false)
    }

    /// Makes the literals of a word false and propagates. Answers whether there is a conflict, to which the hints then lead.
    pub(crate) fn propagate(
        &mut self,
        cnf: &Cnf,
        users: &Vec<Vec<u32>>,
        word: &[Lit],
    ) -> Result<bool, NoMemory>
        requires formula { IsFormula cnf.now }
        requires users { AreUsers (2 * cnf.now.vars) cnf.now.clauses (length cnf.now.clauses) (lists_of users.now.items) }
        requires tables { HasTables cnf.now.vars self.old }
        requires over { IsOver cnf.now.vars word.now }
        requires apart { is_tautology word.now ≡ false }
        ensures closed { IfOk result (λ conflict. conflict ≡ false → IsClosed cnf.now.clauses word.now (falses_of self.new.marks)) }
        ensures refuted { IfOk result (λ conflict. conflict ≡ true → IsRefuted cnf.now.vars cnf.now.clauses word.now self.new) }
        ensures tables { OnOk result (HasTables cnf.now.vars self.new) }
    {
        self.begin(cnf, word)?;
        if self.look_at_short(cnf, word)? {
            return Ok(true);
        }
        self.run(cnf, users, word)
    }
}
