//! Lists as the product passes them about, and the refusal for want of memory.
//!
//! Contracts see a `List<T>` and an `IdVec<I, T>` as the list of their items.
ghost use Rattle.std.specs.Prelude.{◌≡◌, [], ◌∷◌, ◌++◌, ◌<◌, ◌^◌, ◌-◌, length, slice_get, IfOk, OnOk, OnErr};
ghost use Rattle.std.specs.Option.{option_copied};

use crate::id::Id;
use std::alloc::{AllocError, AllocFailed, Global};
use std::marker::{Model, PhantomData};
use thiserror::Error;

/// Memory could not be had. Every call that allocates may answer so, and no clause ties the answer to a cause.
#[derive(Clone, Copy, Debug, PartialEq, Eq, Error)]
#[error("out of memory")]
pub struct NoMemory;

impl From<AllocError> for NoMemory {
    fn from(_: AllocError) -> Self {
        NoMemory
    }
}

impl<T: Drop> From<AllocFailed<T>> for NoMemory {
    fn from(_: AllocFailed<T>) -> Self {
        NoMemory
    }
}

/// A list, which contracts see as the list of its items.
#[derive(Debug, Drop)]
pub struct List<T> {
    items: Vec<T>,
}

impl<T> Model for List<T> {
    ghost use Rattle.std.specs.Prelude.{List};
    ghost use Rattle.std.specs.Coded.{coded_list};

    ghost Value = { List T };

    ghost coded = { coded_list T.code };

    ghost view = { λ l. l.items.items };
}

impl<T: Drop> List<T> {
    /// An empty list. It takes no memory; later calls take it from `alloc`.
    pub fn new(alloc: Global) -> Self
        ensures { result ≡ [] }
    {
        List {
            items: Vec::new(alloc),
        }
    }

    /// The list of these items.
    pub fn of(items: Vec<T>) -> Self
        ensures { result ≡ items.items }
    {
        List { items }
    }

    /// Adds an item at the end. After a refusal the list is as it was, and the item is dropped.
    pub fn push(&mut self, item: T) -> Result<(), NoMemory>
        ensures ok { OnOk result (self.new ≡ self.old ++ item ∷ []) }
        ensures err { OnErr result (self.new ≡ self.old) }
    {
        match self.items.push(item) {
            Ok(()) => Ok(()),
            Err(_) => Err(NoMemory),
        }
    }

    /// Adds the items of another list at the end, all or none. After a refusal the list is as it was, and the items are dropped.
    pub fn append(&mut self, more: List<T>) -> Result<(), NoMemory>
        ensures ok { OnOk result (self.new ≡ self.old ++ more) }
        ensures err { OnErr result (self.new ≡ self.old) }
    {
        let mut items = more.items;
        match self.items.append(&mut items) {
            Ok(()) => Ok(()),
            Err(_) => Err(NoMemory),
        }
    }

    /// The item at a place, and `None` exactly where the place is not below the length.
    pub fn get(&self, place: usize) -> Option<&T>
        ensures { option_copied result ≡ slice_get self.now place }
    {
        self.items.get(place)
    }

    /// How many items there are.
    pub fn len(&self) -> usize
        ensures { result ≡ length self.now }
    {
        self.items.len()
    }

    /// The items in order.
    pub fn as_slice(&self) -> &[T]
        ensures { result.now ≡ self.now }
    {
        self.items.as_slice()
    }
}

/// A list whose places are numbered by ids of one kind, and so has fewer than 2^32 items.
#[derive(Debug, Drop)]
pub struct IdVec<I: Id, T> {
    items: Vec<T>,
    ids: PhantomData<I>,
}

impl<I: Id, T> Model for IdVec<I, T> {
    ghost use Rattle.std.specs.Prelude.{List, length, ◌<◌, ◌^◌};
    ghost use Rattle.std.specs.Coded.{coded_list};

    ghost Value = { List T };

    ghost coded = { coded_list T.code };

    ghost view = { λ l. l.items.items };

    ghost invariant = { λ l. length l.items.items < 2 ^ 32 };
}

impl<I: Id, T: Drop> IdVec<I, T> {
    /// No items. It takes no memory; later calls take it from `alloc`.
    pub fn new(alloc: Global) -> Self
        ensures { result ≡ [] }
    {
        IdVec {
            items: Vec::new(alloc),
            ids: PhantomData,
        }
    }

    /// Adds an item at the end and answers its id, which is the length before. After a refusal the list is as it was, and the item is dropped.
    pub fn push(&mut self, item: T) -> Result<I, NoMemory>
        requires { length self.old < 2 ^ 32 - 1 }
        ensures ok { OnOk result (self.new ≡ self.old ++ item ∷ []) }
        ensures id { IfOk result (λ id. I.number id ≡ length self.old) }
        ensures err { OnErr result (self.new ≡ self.old) }
    {
        let place = self.items.len() as u32;
        match self.items.push(item) {
            Ok(()) => Ok(I::of(place)),
            Err(_) => Err(NoMemory),
        }
    }

    /// The item of an id, and `None` exactly where the id is not below the length.
    pub fn get(&self, id: I) -> Option<&T>
        ensures { option_copied result ≡ slice_get self.now (I.number id) }
    {
        self.items.get(id.index())
    }

    /// How many items there are.
    pub fn len(&self) -> usize
        ensures len { result ≡ length self.now }
        ensures small { result < 2 ^ 32 }
    {
        self.items.len()
    }

    /// The items in order.
    pub fn as_slice(&self) -> &[T]
        ensures value { result.now ≡ self.now }
        ensures small { length result.now < 2 ^ 32 }
    {
        self.items.as_slice()
    }
}
