//! The names of a module and what they are.

ghost use Rattle.std.specs.Prelude.{◌≡◌, ◌<◌, length, map, ℕ, IfOk, OnOk, IfSome, IfNone, MatchBool};
ghost use Rattle.std.specs.Option.{option_map};
ghost use Rattle.bind_sites.specs.Sites.{Listed, Wire};
ghost use Rattle.bind_sites.specs.Scope.{Stands, IsPort, HasDirection, HasDeclaration, IsLinked, HasRange, IsKnown};
ghost use Rattle.bind_sites.specs.View.{view_site};
ghost use Rattle.bind_names.specs.Scoped.{IsScope, IsFirstDouble, IsMadeByLinks, sites_of, Declares, earlier};

use crate::index::Index;
use crate::keys::keys_of;
use bind_sites::{Site, Sort};
use name_table::{FirstNames, TextKeyed};
use rsfq_ids::list::NoMemory;
use std::alloc::Global;

/// The names of a module, each with its first place in the sites as a listed port, a direction, a wire and a whole name in a link.
#[derive(Debug, Drop)]
pub struct Scope<'s, 'a> {
    pub sites: &'s [Site<'a>],
    /// The hasher of tables of names of this module.
    pub keys: TextKeyed,
    listed: FirstNames<'a>,
    pub(crate) directions: FirstNames<'a>,
    pub(crate) wires: FirstNames<'a>,
    linked: FirstNames<'a>,
    /// The first place that gives a port, a direction, a wire or an instance a name that an earlier one has.
    pub double: Option<(usize, &'a str)>,
}

impl<'s, 'a> Scope<'s, 'a> {
    /// The names of a module, by its sites.
    pub fn of(alloc: Global, sites: &'s [Site<'a>]) -> Result<Scope<'s, 'a>, NoMemory>
        ensures scope { IfOk result IsScope }
        ensures sites { IfOk result (λ scope. sites_of scope ≡ map view_site sites.entry.now) }
        ensures double { IfOk result (λ scope. IsFirstDouble (map view_site sites.entry.now) (option_map (λ (at, name). (at, name.now)) scope.double)) }
    {
        let keys = keys_of(sites);
        let listed = Index::of(alloc, keys, sites, Sort::Listed)?;
        let directions = Index::of(alloc, keys, sites, Sort::Direction)?;
        let wires = Index::of(alloc, keys, sites, Sort::Wire)?;
        let instances = Index::of(alloc, keys, sites, Sort::Instance)?;
        let linked = Index::of(alloc, keys, sites, Sort::Linked)?;
        let ports = earlier(listed.again, directions.again);
        let others = earlier(wires.again, instances.again);
        Ok(Scope {
            sites,
            keys,
            listed: listed.names,
            directions: directions.names,
            wires: wires.names,
            linked: linked.names,
            double: earlier(ports, others),
        })
    }

    /// The range that the site at a place declares.
    pub(crate) fn range_at(&self, at: usize) -> Option<(u32, u32)>
        requires { at < length (sites_of self.now) }
        ensures { Declares (sites_of self.now) at result }
    {
        match self.sites[at] {
            Site::Port { range, .. } => range,
            Site::Wire { range, .. } => range,
            _ => None,
        }
    }

    /// Whether a name is listed as a port.
    pub fn is_listed(&self, name: &str) -> bool
        requires { IsScope self.now }
        ensures { MatchBool result (Stands (sites_of self.now) (Listed name.now)) (¬ Stands (sites_of self.now) (Listed name.now)) }
    {
        match self.listed.find(name) {
            Some(_) => true,
            None => false,
        }
    }

    /// Whether a name is an output and the range of it, by its first direction.
    pub fn direction(&self, name: &str) -> Option<(bool, Option<(u32, u32)>)>
        requires { IsScope self.now }
        ensures found { IfSome result (λ (output, range). IsPort (sites_of self.now) name.now output range) }
        ensures missed { IfNone result (¬ HasDirection (sites_of self.now) name.now) }
    {
        let at = self.directions.find(name)?;
        match self.sites[at] {
            Site::Port { output, range, .. } => Some((output, range)),
            _ => None,
        }
    }

    /// The range with which a name is first declared as a wire.
    fn declaration(&self, name: &str) -> Option<Option<(u32, u32)>>
        requires { IsScope self.now }
        ensures found { IfSome result (λ range. Stands (sites_of self.now) (Wire name.now range)) }
        ensures missed { IfNone result (¬ HasDeclaration (sites_of self.now) name.now) }
    {
        let at = self.wires.find(name)?;
        Some(self.range_at(at))
    }

    /// Whether a name stands whole in a link.
    fn is_linked(&self, name: &str) -> bool
        requires { IsScope self.now }
        ensures { MatchBool result (IsLinked (sites_of self.now) name.now) (¬ IsLinked (sites_of self.now) name.now) }
    {
        match self.linked.find(name) {
            Some(_) => true,
            None => false,
        }
    }

    /// The range of a name: that of the port, else that of the wire, else none where a link makes it. `None` where the name is neither
    /// declared nor made.
    pub fn range_of(&self, name: &str) -> Option<Option<(u32, u32)>>
        requires { IsScope self.now }
        ensures known { IfSome result (HasRange (sites_of self.now) name.now) }
        ensures unknown { IfNone result (¬ IsKnown (sites_of self.now) name.now) }
    {
        if let Some((_, range)) = self.direction(name) {
            return Some(range);
        }
        if let Some(range) = self.declaration(name) {
            return Some(range);
        }
        if self.is_linked(name) {
            Some(None)
        } else {
            None
        }
    }

    /// Whether a link alone makes a name: it has no direction, is not declared as a wire, and stands whole in a link.
    pub fn is_made_by_links(&self, name: &str) -> bool
        requires { IsScope self.now }
        ensures { MatchBool result (IsMadeByLinks (sites_of self.now) name.now) (¬ IsMadeByLinks (sites_of self.now) name.now) }
    {
        if let Some(_) = self.direction(name) {
            return false;
        }
        if let Some(_) = self.declaration(name) {
            return false;
        }
        self.is_linked(name)
    }
}

/// The one of two places that comes first.
fn earlier<'a>(
    one: Option<(usize, &'a str)>,
    other: Option<(usize, &'a str)>,
) -> Option<(usize, &'a str)>
    ensures { result ≡ earlier one.entry other.entry }
{
    match (one, other) {
        (None, _) => other,
        (_, None) => one,
        (Some(first), Some(second)) => { if first.0 <= second.0 { one } else { other } }
    }
}
