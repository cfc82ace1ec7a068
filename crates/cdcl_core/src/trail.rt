//! The literals that are true, in the order in which they became true.
ghost use Rattle.std.specs.Prelude.{◌≡◌, ℕ, ◌+◌, ◌*◌, ◌<◌, ◌≤◌, [], ◌∷◌, length, drop, IfOk, List};
ghost use Rattle.rsfq_ids.specs.Formula.{Clause};
ghost use Rattle.cdcl_core.specs.Trail.{level_in, level_of, up_to, IsFree, IsTrail};
ghost use Rattle.cdcl_core.specs.Oldest.{oldest, IsAt};

use rsfq_ids::id::{ClauseId, Id, Lit};
use rsfq_ids::list::NoMemory;
use std::alloc::Global;
use std::marker::Model;

/// A literal that is true, the level at which it became true, and the clause that made it true, or none where it was decided.
#[derive(Clone, Copy)]
pub struct TrueLit {
    pub lit: Lit,
    pub level: u32,
    pub reason: Option<ClauseId>,
}

/// The true literals, with room for a literal of each variable. Contracts see them the newest first.
#[derive(Drop)]
pub(crate) struct Trail {
    entries: Vec<TrueLit>,
    count: usize,
    levels: Vec<Option<u32>>,
    places: Vec<usize>,
}

impl Model for Trail {
    ghost use Rattle.cdcl_core.specs.Oldest.{Truths};

    ghost Value = { Truths };

    ghost use Rattle.cdcl_core.specs.Kept.{truths_of, IsKept};

    ghost view = { truths_of };

    ghost invariant = { IsKept };
}

impl Trail {
    /// A trail over so many variables, with no true literal.
    pub(crate) fn new(alloc: Global, vars: u32) -> Result<Trail, NoMemory>
        ensures { IfOk result (λ trail. trail ≡ record { vars = vars; trail = [] }) }
    {
        let none = TrueLit {
            lit: Lit::of(0),
            level: 0,
            reason: None,
        };
        let entries = vec![in alloc; none; vars as usize]?;
        let levels = vec![in alloc; None; 2 * vars as usize]?;
        let places = vec![in alloc; 0; 2 * vars as usize]?;
        Ok(Trail {
            entries,
            count: 0,
            levels,
            places,
        })
    }

    /// How many literals are true.
    pub(crate) fn len(&self) -> usize
        ensures { result ≡ length self.now.trail }
    {
        self.count
    }

    /// The level at which a literal became true, if it is true.
    pub(crate) fn level_in(&self, lit: Lit) -> Option<u32>
        requires { lit < 2 * self.now.vars }
        ensures { result ≡ level_in self.now.trail lit }
    {
        self.levels[lit.index()]
    }

    /// The level that is open.
    pub(crate) fn level(&self) -> u32
        ensures { result ≡ level_of self.now.trail }
    {
        if self.count == 0 {
            0
        } else {
            self.entries[self.count - 1].level
        }
    }

    /// The true literal at this place, from the oldest on.
    pub(crate) fn at(&self, place: usize) -> TrueLit
        requires { place < length self.now.trail }
        ensures { oldest (place + 1) self.now.trail ≡ result ∷ oldest place self.now.trail }
    {
        self.entries[place]
    }

    /// The place of a literal that is true, from the oldest on. For another literal the answer is free.
    pub(crate) fn place_of(&self, lit: Lit) -> usize
        requires { lit < 2 * self.now.vars }
        ensures { (place : ℕ) → place < length self.now.trail → IsAt self.now.trail place lit → result ≡ place }
    {
        self.places[lit.index()]
    }

    /// Makes a literal true.
    pub(crate) fn push(&mut self, lit: Lit, level: u32, reason: Option<ClauseId>)
        requires within { lit < 2 * self.old.vars }
        requires free { IsFree self.old.trail lit }
        ensures pushed { self.new ≡ record self.old { trail = record { lit = lit; level = level; reason = reason } ∷ self.old.trail } }
        ensures room { length self.old.trail < self.old.vars }
    {
        let index = lit.index();
        self.entries[self.count] = TrueLit { lit, level, reason };
        self.levels[index] = Some(level);
        self.places[index] = self.count;
        self.count += 1;
    }

    /// Takes the value of the newest literal.
    pub(crate) fn pop(&mut self)
        requires { 0 < length self.old.trail }
        ensures vars { self.new.vars ≡ self.old.vars }
        ensures popped { self.new.trail ≡ drop 1 self.old.trail }
    {
        self.count -= 1;
        let lit = self.entries[self.count].lit;
        self.levels[lit.index()] = None;
    }

    /// Takes the values of the newest literals, down to one of this level or a lower one.
    pub(crate) fn drop_above(&mut self, level: u32)
        requires { (clauses : List Clause) × IsTrail self.old.vars clauses self.old.trail }
        ensures vars { self.new.vars ≡ self.old.vars }
        ensures dropped { self.new.trail ≡ up_to level self.old.trail }
    {
        'drop: while self.level() > level {
            self.pop();
        }
    }
}
