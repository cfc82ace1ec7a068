//! The map from names to their first places.

ghost use Rattle.std.specs.Prelude.{◌≡◌, ℕ, List, None, Some, not, is_some, IfOk, OnOk, OnErr};
ghost use Rattle.name_table.specs.Places.{place_of, Sees, Keeps};

use crate::TextKeyed;
use indexmap::IndexMap;
use rsfq_ids::list::NoMemory;
use std::alloc::Global;

/// Names, each with the place at which it was first seen.
#[derive(Debug, Drop)]
pub struct FirstNames<'a> {
    places: IndexMap<&'a str, usize, TextKeyed>,
}

impl<'a> FirstNames<'a> {
    /// No names. It takes no memory; later calls take it from `alloc`.
    pub fn new(alloc: Global, keys: TextKeyed) -> FirstNames<'a>
        ensures { (name : List ℕ) → place_of result name ≡ None }
    {
        FirstNames {
            places: IndexMap::with_hasher(alloc, keys),
        }
    }

    /// The place at which a name was first seen, if it was.
    pub fn find(&self, name: &str) -> Option<usize>
        ensures { result ≡ place_of self.now name.now }
    {
        self.places.get(name).copied()
    }

    /// Sees a name at a place, and answers whether it is new. After a refusal nothing changed.
    pub fn see(&mut self, name: &'a str, place: usize) -> Result<bool, NoMemory>
        ensures is_new { IfOk result (λ new. new ≡ not (is_some (place_of self.old name.entry.now))) }
        ensures seen { OnOk result (Sees self.old self.new name.entry.now place) }
        ensures kept { OnErr result (Keeps self.old self.new) }
    {
        if self.places.get(name).is_some() {
            return Ok(false);
        }
        self.places.insert(name, place)?;
        Ok(true)
    }
}
