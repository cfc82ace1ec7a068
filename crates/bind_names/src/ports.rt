//! The ports of a list of sites, by their names.

ghost use Rattle.std.specs.Prelude.{◌≡◌, ℕ, List, Option, Some, None, map, length, MatchOption, IfOk, OnOk};
ghost use Rattle.std.specs.Option.{option_copied};
ghost use Rattle.bind_sites.specs.View.{view_site};
ghost use Rattle.bind_sites.specs.Again.{HasFirstRange};
ghost use Rattle.bind_names.specs.Places.{listed_name, directed_name, FitsSite, Indexes, SeesAny};
ghost use Rattle.bind_names.specs.Crossing.{IsVectorBit, CrossesBefore, CrossesAmong, IsLeast};

use crate::crossing::{Crossing, first_of};
use crate::keys::keys_of;
use crate::written::{place_in, split_bit};
use bind_sites::Site;
use name_table::FirstNames;
use rsfq_ids::list::NoMemory;
use std::alloc::Global;

/// Where each name is listed first, and where it is given a direction first.
#[derive(Debug, Drop)]
pub(crate) struct Ports<'a> {
    listed: FirstNames<'a>,
    directed: FirstNames<'a>,
}

fn listed_name<'a>(site: &Site<'a>) -> Option<&'a str>
    ensures { option_copied result ≡ listed_name (view_site site.now) }
{
    match site {
        Site::Listed(name) => Some(name),
        _ => None,
    }
}

fn directed_name<'a>(site: &Site<'a>) -> Option<&'a str>
    ensures name { option_copied result ≡ directed_name (view_site site.now) }
    ensures fit { FitsSite (view_site site.now) }
{
    match site {
        Site::Port {
            name,
            range: Some((left, right)),
            ..
        } => {
            // Read for the contract: the ends fit their type.
            let _ends = (*left, *right);
            Some(name)
        }
        Site::Port { name, .. } => Some(name),
        _ => None,
    }
}

fn see<'a>(names: &mut FirstNames<'a>, name: Option<&'a str>, place: usize) -> Result<(), NoMemory>
    ensures { OnOk result (SeesAny names.old names.new (option_copied name.entry) place) }
{
    if let Some(name) = name {
        names.see(name, place)?;
    }
    Ok(())
}

impl<'a> Ports<'a> {
    /// The ports of these sites.
    pub(crate) fn of(alloc: Global, sites: &[Site<'a>]) -> Result<Ports<'a>, NoMemory>
        ensures { IfOk result (λ ports. Indexes ports (map view_site sites.now)) }
    {
        let keys = keys_of(sites);
        let mut listed = FirstNames::new(alloc, keys);
        let mut directed = FirstNames::new(alloc, keys);
        for (at, site) in sites.iter().enumerate() {
            see(&mut listed, listed_name(site), at)?;
            see(&mut directed, directed_name(site), at)?;
        }
        Ok(Ports { listed, directed })
    }

    /// The range of a port, by its first direction: `Some(None)` is a scalar.
    fn range_of(&self, sites: &[Site<'a>], name: &str) -> Option<Option<(u32, u32)>>
        requires { Indexes self.now (map view_site sites.now) }
        ensures { MatchOption result
            ((range : Option (ℕ × ℕ)) → ¬ HasFirstRange (map view_site sites.now) name.now range)
            (λ range. HasFirstRange (map view_site sites.now) name.now range) }
    {
        match sites.get(self.directed.find(name)?)? {
            Site::Port { range, .. } => Some(*range),
            _ => None,
        }
    }

    /// The place of the vector, and of its bit, that have a printed name.
    fn vector_bit(&self, sites: &[Site<'a>], printed: &str) -> Option<(usize, u32)>
        requires { Indexes self.now (map view_site sites.now) }
        ensures { MatchOption result
            ((vector bit : ℕ) → ¬ IsVectorBit (map view_site sites.now) printed.now vector bit)
            (λ found. IsVectorBit (map view_site sites.now) printed.now found.0 found.1) }
    {
        let (name, index) = split_bit(printed)?;
        let (left, right) = self.range_of(sites, name)??;
        let bit = place_in(left, right, index)?;
        Some((self.listed.find(name)?, bit))
    }

    /// The crossing of the scalar at a place, where there is one and both ports are listed before the limit.
    pub(crate) fn crossing_at(
        &self,
        sites: &[Site<'a>],
        limit: usize,
        scalar: usize,
    ) -> Option<Crossing<'a>>
        requires { Indexes self.now (map view_site sites.now) }
        ensures { IsLeast (CrossesBefore (map view_site sites.now) limit scalar) result }
    {
        let printed = listed_name(sites.get(scalar)?)?;
        let None = self.range_of(sites, printed)? else {
            return None;
        };
        let (vector, place) = self.vector_bit(sites, printed)?;
        let bit = if scalar < vector { place } else { 0 };
        let at = scalar.max(vector);
        if at < limit {
            Some(Crossing { at, bit, printed })
        } else {
            None
        }
    }
    /// The first crossing of ports that are listed before the limit.
    pub(crate) fn first_crossing(&self, sites: &[Site<'a>], limit: usize) -> Option<Crossing<'a>>
        requires { Indexes self.now (map view_site sites.now) }
        ensures { IsLeast (CrossesAmong (map view_site sites.now) limit (length sites.now)) result }
    {
        let mut first = None;
        for scalar in 0..sites.len() {
            first = first_of(first, self.crossing_at(sites, limit, scalar));
        }
        first
    }
}
