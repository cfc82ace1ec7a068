//! Ports that an instance links twice.

ghost use Rattle.std.specs.Prelude.{◌≡◌, ◌+◌, ◌<◌, length, map, IfOk, OnOk};
ghost use Rattle.std.specs.Option.{option_map};
ghost use Rattle.name_table.specs.Places.{place_of, Sees};
ghost use Rattle.bind_sites.specs.View.{view_site};
ghost use Rattle.bind_names.specs.Scoped.{sites_of};
ghost use Rattle.bind_names.specs.Linked.{AreLinked, seen_again, IsLinkedAgain, IsFirstPortTwice};

use crate::scope::Scope;
use bind_sites::Site;
use name_table::{FirstNames, TextKeyed};
use rsfq_ids::list::NoMemory;
use std::alloc::Global;

impl<'a> Scope<'_, 'a> {
    /// The first link by name of a port that an earlier link of the same instance names: its place and the name of the port. It takes memory
    /// from `alloc`.
    pub fn port_twice(&self, alloc: Global) -> Result<Option<(usize, &'a str)>, NoMemory>
        ensures { IfOk result (λ twice. IsFirstPortTwice (sites_of self.now) (option_map (λ (at, name). (at, name.now)) twice)) }
    {
        let mut linked = FirstNames::new(alloc, self.keys);
        for at in 0..self.sites.len() {
            if let Some(name) = see_link(alloc, self.keys, self.sites, at, &mut linked)? {
                return Ok(Some((at, name)));
            }
        }
        Ok(None)
    }
}

/// Sees the site at a place, which is the next one, and answers the port that is linked again there.
fn see_link<'a>(
    alloc: Global,
    keys: TextKeyed,
    sites: &[Site<'a>],
    at: usize,
    linked: &mut FirstNames<'a>,
) -> Result<Option<&'a str>, NoMemory>
    requires there { at < length sites.now }
    requires before { AreLinked (map view_site sites.now) at linked.old }
    ensures linked { OnOk result (AreLinked (map view_site sites.now) (at + 1) linked.new) }
    ensures again { IfOk result (λ again. IsLinkedAgain (map view_site sites.now) at (option_map (λ name. name.now) again)) }
{
    match sites[at] {
        Site::Instance { .. } => {
            *linked = FirstNames::new(alloc, keys);
            Ok(None)
        }
        Site::Named { port, .. } => see_port(linked, port, at),
        _ => Ok(None),
    }
}

/// Sees a port that is linked at a place, and answers it where it was seen before.
fn see_port<'a>(
    linked: &mut FirstNames<'a>,
    port: &'a str,
    at: usize,
) -> Result<Option<&'a str>, NoMemory>
    ensures seen { OnOk result (Sees linked.old linked.new port.entry.now at) }
    ensures again { IfOk result (λ again. option_map (λ name. name.now) again ≡ seen_again (place_of linked.old port.entry.now) port.entry.now) }
{
    let is_new = linked.see(port, at)?;
    if is_new { Ok(None) } else { Ok(Some(port)) }
}
