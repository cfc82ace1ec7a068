//! What is refused of the names of a module, site by site.

ghost use Rattle.std.specs.Prelude.{◌≡◌, ◌<◌, ◌↔◌, ℕ, List, length, Some, IfSome, IfNone, IsTrue};
ghost use Rattle.std.specs.Option.{option_map};
ghost use Rattle.bind_sites.specs.Scope.{IsKnown};
ghost use Rattle.bind_sites.specs.Refused.{IsUnknownName, IsTooWide};
ghost use Rattle.bind_sites.specs.View.{view_site};
ghost use Rattle.bind_names.specs.Scoped.{IsScope, HasNoDouble, sites_of};
ghost use Rattle.bind_names.specs.Checked.{wanted_name, selected_name, IsWidePort};

use crate::ranges::width_of;
use crate::scope::Scope;
use bind_sites::{Operand, Site, Sort};
use rsfq_ids::limits::WIDTH_LIMIT;

/// The name of an operand of which bits are selected.
fn selected_name<'a>(operand: Operand<'a>) -> Option<&'a str>
    ensures { option_map (λ name. name.now) result ≡ selected_name operand.entry.name.now operand.entry.select }
{
    match operand.select {
        Some(_) => Some(operand.name),
        None => None,
    }
}

/// The name that is to be known at a site.
fn wanted_name<'a>(site: &Site<'a>) -> Option<&'a str>
    ensures { option_map (λ name. name.now) result ≡ wanted_name (view_site site.now) }
{
    match site {
        Site::Assigned(operand) => Some(operand.name),
        Site::Linked(operand) => selected_name(*operand),
        _ => None,
    }
}

impl<'a> Scope<'_, 'a> {
    /// The name that the site at a place uses and that is neither declared nor made by a link. A name that stands whole in a link makes itself.
    pub fn unknown_name(&self, at: usize) -> Option<&'a str>
        requires scope { IsScope self.now }
        requires there { at < length (sites_of self.now) }
        ensures found { IfSome result (λ name. IsUnknownName (sites_of self.now) at name.now) }
        ensures none { IfNone result ((name : List ℕ) → ¬ IsUnknownName (sites_of self.now) at name) }
    {
        match wanted_name(&self.sites[at]) {
            Some(name) => self.unless_known(name),
            None => None,
        }
    }

    /// The name, where it is neither declared nor made by a link.
    fn unless_known(&self, name: &'a str) -> Option<&'a str>
        requires { IsScope self.now }
        ensures found { IfSome result (λ found. (found.now ≡ name.entry.now) × (¬ IsKnown (sites_of self.now) name.entry.now)) }
        ensures none { IfNone result (IsKnown (sites_of self.now) name.entry.now) }
    {
        match self.range_of(name) {
            Some(_) => None,
            None => Some(name),
        }
    }

    /// The width in bits of the port that is listed at a place, where it is above the limit of 4,096.
    pub fn too_wide(&self, at: usize) -> Option<u64>
        requires scope { IsScope self.now }
        requires single { HasNoDouble (sites_of self.now) (length (sites_of self.now)) }
        requires there { at < length (sites_of self.now) }
        ensures found { IfSome result (λ width. IsTooWide (sites_of self.now) at width) }
        ensures none { IfNone result ((width : ℕ) → ¬ IsTooWide (sites_of self.now) at width) }
    {
        match Sort::Listed.name(&self.sites[at]) {
            Some(name) => self.wide_port(name),
            None => None,
        }
    }

    /// The width of a port, where it is above the limit.
    fn wide_port(&self, name: &str) -> Option<u64>
        requires scope { IsScope self.now }
        requires single { HasNoDouble (sites_of self.now) (length (sites_of self.now)) }
        ensures found { IfSome result (IsWidePort (sites_of self.now) name.now) }
        ensures none { IfNone result ((width : ℕ) → ¬ IsWidePort (sites_of self.now) name.now width) }
    {
        let (_, range) = self.direction(name)?;
        let width = width_of(range);
        if width > WIDTH_LIMIT {
            Some(width)
        } else {
            None
        }
    }
}
