//! The lists of a netlist.

ghost use Rattle.std.specs.Prelude.{◌≡◌, ℕ, List, map, IfOk};
ghost use Rattle.std.specs.List.{AllZip};
ghost use Rattle.verilog_tree.specs.Trees.{Module};
ghost use Rattle.verilog_tree.specs.Views.{view_head, view_source};
ghost use Rattle.bind_sites.specs.Sites.{port_names, sites};
ghost use Rattle.bind_sites.specs.Listing.{all_sites};
ghost use Rattle.name_table.specs.Places.{place_of};
ghost use Rattle.bind_hierarchy.specs.Names.{IsFirstPlace};
ghost use Rattle.bind_kinds.specs.Netlist.{IsScopeOf, ArePortsOf};
ghost use Rattle.bind_kinds.specs.Ports.{HasFirstDouble};

use crate::pins::{head_count, head_port};
use bind_names::Scope;
use bind_sites::Sites;
use name_table::{FirstNames, TextKeyed};
use rsfq_ids::list::NoMemory;
use std::alloc::Global;
use verilog_tree::{Head, Source};

/// The sites of each module of a text.
pub fn sites_of<'a>(alloc: Global, source: &'a Source) -> Result<Vec<Sites<'a>>, NoMemory>
    ensures { IfOk result (λ all. map all_sites all.items ≡ map sites (view_source source.entry.now)) }
{
    let mut all = Vec::new(alloc);
    for module in source.modules.as_slice() {
        all.push(Sites::of(alloc, module)?)?;
    }
    Ok(all)
}

/// The names in each module of a text, by the sites of each.
pub fn scopes_of<'s, 'a>(
    alloc: Global,
    all: &'s [Sites<'a>],
) -> Result<Vec<Scope<'s, 'a>>, NoMemory>
    ensures scopes { IfOk result (λ scopes. (modules : List Module) → map all_sites all.entry.now ≡ map sites modules → AllZip IsScopeOf modules scopes.items) }
    ensures doubles { IfOk result (λ scopes. (modules : List Module) → map all_sites all.entry.now ≡ map sites modules → AllZip HasFirstDouble modules scopes.items) }
{
    let mut scopes = Vec::new(alloc);
    for sites in all {
        scopes.push(Scope::of(alloc, sites.as_slice())?)?;
    }
    Ok(scopes)
}

/// The ports of each module of a text, each name with its first place in the head.
pub fn ports_of<'a>(alloc: Global, source: &'a Source) -> Result<Vec<FirstNames<'a>>, NoMemory>
    ensures { IfOk result (λ ports. AllZip ArePortsOf (view_source source.entry.now) ports.items) }
{
    let mut ports = Vec::new(alloc);
    for module in source.modules.as_slice() {
        ports.push(head_places(alloc, &module.head)?)?;
    }
    Ok(ports)
}

/// A hasher that has read the names of the ports of a head.
fn head_keys(head: &Head) -> TextKeyed {
    let mut keys = TextKeyed::of(b"");
    for place in 0..head_count(head) {
        if let Some(name) = head_port(head, place) {
            keys = keys.and(name.as_bytes());
        }
    }
    keys
}

/// The ports of a head, each name with its first place.
fn head_places<'a>(alloc: Global, head: &'a Head) -> Result<FirstNames<'a>, NoMemory>
    ensures { IfOk result (λ places. (name : List ℕ) → IsFirstPlace (port_names (view_head head.entry.now)) name (place_of places name)) }
{
    let mut places = FirstNames::new(alloc, head_keys(head));
    for place in 0..head_count(head) {
        if let Some(name) = head_port(head, place) {
            places.see(name, place)?;
        }
    }
    Ok(places)
}
