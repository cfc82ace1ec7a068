//! Clauses by their ids.
ghost use Rattle.std.specs.Prelude.{◌≡◌, ◌≤◌, ◌<◌, length, is_some, true, IfOk, IfSome, OnOk, OnErr, MatchOption};
ghost use Rattle.rsfq_ids.specs.declared.limits.TheConstants.{FORMULA_LIMIT};
ghost use Rattle.std.specs.Option.{option_map};
ghost use Rattle.lrat_table.specs.Found.{given_at, with_clause, without_clause};
ghost use Rattle.lrat_table.specs.Entries.{found_of, last_of, IsAt, IsAbsent};

use crate::guesses::Guesses;
use rsfq_ids::circuit::Cnf;
use rsfq_ids::id::Lit;
use rsfq_ids::list::NoMemory;
use std::alloc::Global;
use std::marker::Model;

/// A clause under its id, or none where it was deleted.
#[derive(Clone, Copy)]
pub(crate) struct Entry<'a> {
    pub id: u32,
    pub clause: Option<&'a [Lit]>,
}

/// The clauses that stand, by their ids. They lie where they were read or copied to. Contracts see the entries in the order of their ids,
/// which rise.
#[derive(Drop)]
pub struct ClauseTable<'a> {
    entries: Vec<Entry<'a>>,
    guesses: Guesses,
}

impl<'a> Model for ClauseTable<'a> {
    ghost use Rattle.std.specs.Prelude.{List};
    ghost use Rattle.lrat_table.specs.Entries.{TableEntry};

    ghost Value = { List TableEntry };

    ghost use Rattle.lrat_table.specs.Held.{entries_of, HasRisingIds};

    ghost view = { entries_of };

    ghost invariant = { HasRisingIds };
}

impl<'a> ClauseTable<'a> {
    /// The clauses of a formula, at most 2,147,483,647, with the ids from 1 on. It takes its memory from `alloc`, as later calls do.
    ///
    /// # Errors
    ///
    /// Only for want of memory.
    pub fn new(alloc: Global, cnf: &'a Cnf) -> Result<ClauseTable<'a>, NoMemory>
        requires { length cnf.now.clauses ≤ FORMULA_LIMIT }
        ensures found { IfOk result (λ table. found_of table ≡ given_at cnf.entry.now.clauses) }
        ensures last { IfOk result (λ table. last_of 0 table ≡ length cnf.entry.now.clauses) }
    {
        let mut table = ClauseTable {
            entries: Vec::new(alloc),
            guesses: Guesses::new(alloc),
        };
        let mut id = 0;
        for clause in cnf.clauses.as_slice() {
            id += 1;
            table.add(id, clause.as_slice())?;
        }
        Ok(table)
    }

    /// The greatest id so far, of a clause that stands or was deleted, and 0 where there is none.
    pub fn last(&self) -> u32
        ensures { result ≡ last_of 0 self.now }
    {
        match self.entries.last() {
            Some(entry) => entry.id,
            None => 0,
        }
    }

    /// The clause of an id, if there is one.
    pub fn find(&self, id: u32) -> Option<&'a [Lit]>
        ensures { option_map (λ clause. clause.now) result ≡ found_of self.now id }
    {
        match self.place_of(id) {
            Some(place) => self.entries[place].clause,
            None => None,
        }
    }

    /// Adds a clause under an id above all earlier ones.
    ///
    /// # Errors
    ///
    /// Only for want of memory. The table is then as it was.
    pub fn add(&mut self, id: u32, clause: &'a [Lit]) -> Result<(), NoMemory>
        requires { last_of 0 self.old < id }
        ensures found { OnOk result (found_of self.new ≡ with_clause (found_of self.old) id clause.entry.now) }
        ensures last { OnOk result (last_of 0 self.new ≡ id) }
        ensures err { OnErr result (self.new ≡ self.old) }
    {
        self.entries.push(Entry {
            id,
            clause: Some(clause),
        })?;
        self.guesses.note(&self.entries);
        Ok(())
    }

    /// Takes the clause of an id out, and answers whether there was one.
    pub fn remove(&mut self, id: u32) -> bool
        ensures found { result ≡ is_some (found_of self.old id) }
        ensures without { found_of self.new ≡ without_clause (found_of self.old) id }
        ensures last { last_of 0 self.new ≡ last_of 0 self.old }
    {
        match self.place_of(id) {
            Some(place) => {
                let stood = self.entries[place].clause.is_some();
                self.entries[place] = Entry { id, clause: None };
                stood
            }
            None => false,
        }
    }

    /// The place of an id, if it has an entry.
    fn place_of(&self, id: u32) -> Option<usize>
        ensures { MatchOption result (IsAbsent self.now id) (IsAt self.now id) }
    {
        match self.guess(id) {
            Some(place) => Some(place),
            None => self.search(id),
        }
    }

    /// The place of an id that stands where ids without gaps stand, or where its bucket says.
    fn guess(&self, id: u32) -> Option<usize>
        ensures { IfSome result (IsAt self.now id) }
    {
        let dense = (id as usize).saturating_sub(1);
        if self.stands_at(dense, id) {
            return Some(dense);
        }
        let places = self.guesses.of(id);
        for place in &places {
            if self.stands_at(*place as usize, id) {
                return Some(*place as usize);
            }
        }
        None
    }

    /// Whether the entry at a place has an id.
    fn stands_at(&self, place: usize, id: u32) -> bool
        ensures { result ≡ true → IsAt self.now id place }
    {
        place < self.entries.len() && self.entries[place].id == id
    }

    /// The place of an id, searched for among all.
    fn search(&self, id: u32) -> Option<usize>
        ensures { MatchOption result (IsAbsent self.now id) (IsAt self.now id) }
    {
        self.entries
            .binary_search_by_key(&id, |entry| entry.id)
            .ok()
    }
}
