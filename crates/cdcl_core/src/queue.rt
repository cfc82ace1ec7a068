//! Places of true literals that are still to be looked at, the newest first.
ghost use Rattle.std.specs.Prelude.{◌≡◌, ℕ, ◌*◌, ◌<◌, ◌≤◌, true, false, [], ◌∷◌, length, OnOk, MatchOption};
ghost use Rattle.std.specs.List.{All, Contains};
ghost use Rattle.std.specs.List.Sorted.{IsPermutation};
ghost use Rattle.rsfq_ids.specs.Formula.{IsOver, opposite};
ghost use Rattle.proof_arena.specs.Step.{is_among};
ghost use Rattle.proof_arena.specs.Table.{falses_of};
ghost use Rattle.cdcl_core.specs.Queued.{IsNextBelow};
ghost use Rattle.cdcl_core.specs.Oldest.{IsAt};

use crate::trail::Trail;
use proof_arena::Marks;
use rsfq_ids::id::Lit;
use rsfq_ids::list::NoMemory;
use std::alloc::Global;
use std::collections::BinaryHeap;
use std::marker::Model;

/// Places, some perhaps more than once. Contracts see the list of them, in any order.
#[derive(Drop)]
pub(crate) struct Queue {
    places: BinaryHeap<usize>,
}

impl Model for Queue {
    ghost use Rattle.std.specs.Prelude.{List, ℕ};

    ghost Value = { List ℕ };

    ghost use Rattle.cdcl_core.specs.Places.{places_of, IsHeapOf};

    ghost view = { places_of };

    ghost invariant = { IsHeapOf };
}

impl Queue {
    /// No place.
    pub(crate) fn new(alloc: Global) -> Queue
        ensures { result ≡ [] }
    {
        Queue {
            places: BinaryHeap::new(alloc),
        }
    }

    /// Takes all places out.
    pub(crate) fn clear(&mut self)
        ensures { self.new ≡ [] }
    {
        self.places.clear();
    }

    /// One place more.
    pub(crate) fn push(&mut self, place: usize) -> Result<(), NoMemory>
        ensures here { OnOk result (Contains self.new place) }
        ensures kept { (n : ℕ) → Contains self.old n → Contains self.new n }
    {
        self.places.push(place)?;
        Ok(())
    }

    /// Takes the greatest place out.
    fn pop(&mut self) -> Option<usize>
        ensures { MatchOption result (self.old ≡ []) (λ place. IsPermutation self.old (place ∷ self.new) × All (λ n. n ≤ place) self.new) }
    {
        self.places.pop()
    }

    /// The greatest place below another one, if there is one. It and all greater ones are taken out.
    pub(crate) fn below(&mut self, place: usize) -> Option<usize>
        ensures { MatchOption result ((n : ℕ) → n < place → Contains self.old n → ⊥) (IsNextBelow self.old self.new place) }
    {
        for _turn in 0..self.places.len() {
            let Some(next) = self.pop() else {
                return None;
            };
            if next < place {
                return Some(next);
            }
        }
        None
    }

    /// Puts the place in at which a literal became false, where it is not marked.
    fn add_one(&mut self, marks: &Marks, trail: &Trail, lit: Lit) -> Result<(), NoMemory>
        requires { lit < 2 * trail.now.vars }
        ensures kept { (n : ℕ) → Contains self.old n → Contains self.new n }
        ensures added { OnOk result (falses_of marks.now lit ≡ false → (n : ℕ) → n < length trail.now.trail → IsAt trail.now.trail n (opposite lit) → Contains self.new n) }
    {
        if marks.is_false(lit) {
            return Ok(());
        }
        self.push(trail.place_of(lit.opposite()))
    }

    /// Puts the places in at which the literals of a clause became false that are not marked.
    pub(crate) fn add(
        &mut self,
        marks: &Marks,
        trail: &Trail,
        clause: &[Lit],
    ) -> Result<(), NoMemory>
        requires { IsOver trail.now.vars clause.now }
        ensures kept { (n : ℕ) → Contains self.old n → Contains self.new n }
        ensures added { OnOk result ((lit : ℕ) → is_among clause.now lit ≡ true → falses_of marks.now lit ≡ false → (n : ℕ) → n < length trail.now.trail → IsAt trail.now.trail n (opposite lit) → Contains self.new n) }
    {
        for lit in clause {
            self.add_one(marks, trail, *lit)?;
        }
        Ok(())
    }
}
