//! Which literals are false while a step is checked.
//!
//! Each literal of a table has a stamp, and is false where the stamp is the one that counts now. So all marks are taken back by counting
//! on, and a step costs no more than its own literals and those of its hints. Literals beyond the table stand in an ordered set while
//! they are false, so that a table may be small where a formula names more variables than it uses.
ghost use Rattle.std.specs.Prelude.{◌≡◌, ◌||◌, ℕ, ◌+◌, ◌*◌, ◌<◌, ◌^◌, IfOk, OnOk, OnErr, length, max, false};
ghost use Rattle.std.specs.List.{All, list_any};
ghost use Rattle.rsfq_ids.specs.Formula.{opposite};
ghost use Rattle.proof_arena.specs.Step.{is_among, makes_false, reading, reads_on};
ghost use Rattle.proof_arena.specs.Table.{falses_of};

use crate::hint::HintReading;
use rsfq_ids::id::{Id, Lit};
use rsfq_ids::list::NoMemory;
use std::alloc::Global;
use std::collections::BTreeSet;
use std::marker::Model;

/// Which literals are false, with a table that `clear_for` alone makes larger. Contracts see a bit for each literal of the table, and the
/// false literals beyond it.
#[derive(Drop)]
pub struct Marks {
    stamps: Vec<u32>,
    count: u32,
    beyond: BTreeSet<u32>,
}

impl Model for Marks {
    ghost use Rattle.proof_arena.specs.Table.{Marked};

    ghost Value = { Marked };

    ghost use Rattle.proof_arena.specs.Stamps.{marked_of, AreStamps};

    ghost view = { marked_of };

    ghost invariant = { AreStamps };
}

impl Marks {
    /// Marks with a table for the literals of so many variables, of 8 bytes a variable. No literal is false.
    pub fn new(alloc: Global, vars: u32) -> Result<Marks, NoMemory>
        ensures falses { IfOk result (λ m. falses_of m ≡ (λ _. false)) }
        ensures size { IfOk result (λ m. length m.table ≡ 2 * vars) }
    {
        let mut stamps = Vec::new(alloc);
        stamps.resize(2 * vars as usize, 0)?;
        Ok(Marks {
            stamps,
            count: 1,
            beyond: BTreeSet::new(alloc),
        })
    }

    /// Takes all marks back.
    pub fn clear(&mut self)
        ensures falses { falses_of self.new ≡ (λ _. false) }
        ensures size { length self.new.table ≡ length self.old.table }
    {
        self.beyond.clear();
        if self.count == u32::MAX {
            self.stamps.as_mut_slice().fill(0);
            self.count = 1;
        } else {
            self.count += 1;
        }
    }

    /// Takes all marks back, and makes a table that is smaller as large as for the literals of so many variables. After a refusal the marks
    /// are as they were.
    pub fn clear_for(&mut self, vars: u32) -> Result<(), NoMemory>
        ensures falses { OnOk result (falses_of self.new ≡ (λ _. false)) }
        ensures size { OnOk result (length self.new.table ≡ max (length self.old.table) (2 * vars)) }
        ensures kept { OnErr result (self.new ≡ self.old) }
    {
        let size = 2 * vars as usize;
        if self.stamps.len() < size {
            self.stamps.resize(size, 0)?;
        }
        self.clear();
        Ok(())
    }

    /// Makes a literal of the table false. It takes no memory.
    pub fn make_false(&mut self, lit: Lit)
        requires { lit < length self.old.table }
        ensures falses { falses_of self.new ≡ makes_false (falses_of self.old) lit }
        ensures size { length self.new.table ≡ length self.old.table }
    {
        self.stamps[lit.index()] = self.count;
    }

    /// Makes a literal false, in the table or beyond it.
    pub fn make_any_false(&mut self, lit: Lit) -> Result<(), NoMemory>
        ensures falses { OnOk result (falses_of self.new ≡ makes_false (falses_of self.old) lit) }
        ensures size { length self.new.table ≡ length self.old.table }
    {
        let place = lit.index();
        if place < self.stamps.len() {
            self.make_false(lit);
            return Ok(());
        }
        self.beyond.insert(place as u32)?;
        Ok(())
    }

    /// Whether a literal is false.
    pub fn is_false(&self, lit: Lit) -> bool
        ensures { result ≡ falses_of self.now lit }
    {
        let place = lit.index();
        if place < self.stamps.len() {
            self.stamps[place] == self.count
        } else {
            self.beyond.contains(&(place as u32))
        }
    }

    /// Makes all literals of a clause false, beside those that are. They are literals of the table, and it takes no memory.
    pub fn deny(&mut self, lits: &[Lit])
        requires { All (λ lit. lit < length self.old.table) lits.now }
        ensures falses { falses_of self.new ≡ (λ lit. is_among lits.now lit || falses_of self.old lit) }
        ensures size { length self.new.table ≡ length self.old.table }
    {
        for lit in lits {
            self.make_false(*lit);
        }
    }

    /// Makes all literals of any clause false, beside those that are.
    pub fn deny_any(&mut self, lits: &[Lit]) -> Result<(), NoMemory>
        ensures falses { OnOk result (falses_of self.new ≡ (λ lit. is_among lits.now lit || falses_of self.old lit)) }
        ensures size { length self.new.table ≡ length self.old.table }
    {
        for lit in lits {
            self.make_any_false(*lit)?;
        }
        Ok(())
    }

    /// Whether the opposite of a literal of a clause is false.
    pub fn has_true(&self, clause: &[Lit]) -> bool
        ensures { result ≡ list_any (λ lit. falses_of self.now (opposite lit)) clause.now }
    {
        for lit in clause {
            if self.is_false(lit.opposite()) {
                return true;
            }
        }
        false
    }

    /// What a clause says where these literals are false.
    pub fn read(&self, clause: &[Lit]) -> HintReading
        ensures { result ≡ reading (falses_of self.now) clause.now }
    {
        let mut said = HintReading::Conflict;
        for lit in clause {
            said = self.read_on(said, *lit);
        }
        said
    }

    /// What a clause says with one more literal at its end.
    fn read_on(&self, said: HintReading, lit: Lit) -> HintReading
        ensures { result ≡ reads_on (falses_of self.now) said lit }
    {
        if self.is_false(lit) {
            return said;
        }
        if self.is_false(lit.opposite()) {
            return HintReading::Passed;
        }
        match said {
            HintReading::Conflict => HintReading::Unit(lit),
            HintReading::Unit(other) if other.index() == lit.index() => said,
            HintReading::Passed => said,
            _ => HintReading::NotUnit,
        }
    }
}
