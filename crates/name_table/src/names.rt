//! Names and their numbers.

ghost use Rattle.std.specs.Prelude.{◌≡◌, ◌<◌, ◌-◌, ◌^◌, [], length, slice_get, not, is_some, Some, IfOk, IfSome, OnOk, OnErr};
ghost use Rattle.name_table.specs.Names.{number_of, with_name};

use crate::TextKeyed;
use indexmap::IndexSet;
use rsfq_ids::list::NoMemory;
use std::alloc::Global;
use std::marker::Model;

/// The names so far, in the order in which they were first seen. The number of a name is its place among them, from 0.
#[derive(Debug, Drop)]
pub struct NameTable<'a> {
    names: IndexSet<&'a str, TextKeyed>,
}

impl<'a> Model for NameTable<'a> {
    ghost use Rattle.std.specs.Prelude.{ℕ, List, map};
    ghost use Rattle.name_table.specs.Names.{AreFewNames};

    ghost Value = { List (List ℕ) };

    ghost view = { λ a. map (λ s. s.now) a.names.keys };

    ghost invariant = { λ a. AreFewNames a.names.keys };
}

impl<'a> NameTable<'a> {
    /// No names. It takes no memory; later calls take it from `alloc`.
    pub fn new(alloc: Global, keys: TextKeyed) -> NameTable<'a>
        ensures { result ≡ [] }
    {
        NameTable {
            names: IndexSet::with_hasher(alloc, keys),
        }
    }

    /// Sees a name, which stands at the end from then on unless it was seen before. It answers the name's number and whether the name is
    /// new. After a refusal, for want of memory, nothing changed.
    pub fn see(&mut self, name: &'a str) -> Result<(u32, bool), NoMemory>
        requires { length self.old < 2 ^ 32 - 1 }
        ensures number { IfOk result (λ r. number_of self.new name.entry.now ≡ Some r.0) }
        ensures is_new { IfOk result (λ r. r.1 ≡ not (is_some (number_of self.old name.entry.now))) }
        ensures names { OnOk result (self.new ≡ with_name self.old name.entry.now) }
        ensures kept { OnErr result (self.new ≡ self.old) }
    {
        let (place, new) = self.names.insert_full(name)?;
        Ok((place as u32, new))
    }

    /// The number of a name, if it was seen.
    pub fn number(&self, name: &str) -> Option<u32>
        ensures number { result ≡ number_of self.now name.now }
        ensures within { IfSome result (λ number. number < length self.now) }
        ensures small { IfSome result (λ number. number < 2 ^ 32 - 1) }
    {
        match self.names.get_index_of(name) {
            Some(place) => Some(place as u32),
            None => None,
        }
    }

    /// The name of a number.
    pub fn name(&self, number: u32) -> &'a str
        requires { number < length self.now }
        ensures name { slice_get self.now number ≡ Some result.now }
        ensures number { number_of self.now result.now ≡ Some number }
    {
        self.names.get_index(number as usize).unwrap()
    }

    /// How many names there are.
    pub fn len(&self) -> u32
        ensures { result ≡ length self.now }
    {
        self.names.len() as u32
    }
}
