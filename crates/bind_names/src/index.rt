//! An index of the names of one sort of things.

ghost use Rattle.std.specs.Prelude.{◌≡◌, ◌+◌, ◌<◌, length, map, IfOk, OnOk};
ghost use Rattle.name_table.specs.Places.{place_of, Sees};
ghost use Rattle.bind_sites.specs.View.{view_site};
ghost use Rattle.bind_names.specs.Indexed.{IsIndex, again_after};

use bind_sites::{Site, Sort};
use name_table::{FirstNames, TextKeyed};
use rsfq_ids::list::NoMemory;
use std::alloc::Global;

/// The names of one sort of things in a module, each with the first place that gives it, and the first place that gives a name again.
#[derive(Debug, Drop)]
pub(crate) struct Index<'a> {
    pub(crate) names: FirstNames<'a>,
    pub(crate) again: Option<(usize, &'a str)>,
}

impl<'a> Index<'a> {
    /// The index of a module's sites.
    pub(crate) fn of(
        alloc: Global,
        keys: TextKeyed,
        sites: &[Site<'a>],
        sort: Sort,
    ) -> Result<Index<'a>, NoMemory>
        ensures { IfOk result (IsIndex sort (map view_site sites.now) (length sites.now)) }
    {
        let mut index = Index {
            names: FirstNames::new(alloc, keys),
            again: None,
        };
        for at in 0..sites.len() {
            index.add(sites, at, sort)?;
        }
        Ok(index)
    }

    /// Sees the site at a place, which is the next one.
    fn add(&mut self, sites: &[Site<'a>], at: usize, sort: Sort) -> Result<(), NoMemory>
        requires there { at < length sites.now }
        requires before { IsIndex sort (map view_site sites.now) at self.old }
        ensures { OnOk result (IsIndex sort (map view_site sites.now) (at + 1) self.new) }
    {
        match sort.name(&sites[at]) {
            None => Ok(()),
            Some(name) => self.give(name, at),
        }
    }

    /// Sees a name at a place, which is the next one.
    fn give(&mut self, name: &'a str, at: usize) -> Result<(), NoMemory>
        ensures seen { OnOk result (Sees self.old.names self.new.names name.entry.now at) }
        ensures again { OnOk result (self.new.again ≡ again_after (place_of self.old.names name.entry.now) (at, name.entry) self.old.again) }
    {
        let is_new = self.names.see(name, at)?;
        if !is_new && self.again.is_none() {
            self.again = Some((at, name));
        }
        Ok(())
    }
}
