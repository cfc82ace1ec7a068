//! Ports that there are not, and links by order past the last port.

ghost use Rattle.std.specs.Prelude.{◌≡◌, ◌<◌, ℕ, List, length, Some, IfSome, IfNone};
ghost use Rattle.verilog_tree.specs.Views.{view_links};
ghost use Rattle.bind_sites.specs.Sites.{Listed};
ghost use Rattle.bind_sites.specs.Scope.{Stands, HasDirection};
ghost use Rattle.bind_sites.specs.View.{view_site};
ghost use Rattle.bind_names.specs.Scoped.{IsScope, sites_of};
ghost use Rattle.bind_forms.specs.Faults.{IsUnknownPort, HasTooMany};
ghost use Rattle.bind_kinds.specs.Netlist.{IsNetlist, setting_of};
ghost use Rattle.bind_kinds.specs.Meanings.{IsMeant, IsMeantAt};
ghost use Rattle.bind_faults.specs.Sited.{InModule, LacksPort, IsNoPort, HasMore, HasMoreLinks, HasMoreAt};

use crate::lookup::look;
use bind_hierarchy::Meaning;
use bind_kinds::{KindName, Netlist, ports_are_one};
use bind_names::Scope;
use bind_sites::Site;
use verilog_tree::Links;

/// The name of a port that there is not, at a site of the module at a place of the text: a listed port without a direction, a direction
/// without a listed port, or a link by name that the kind has no port for. Nothing stands at a place or a site past the last.
pub(crate) fn unknown_port<'a>(netlist: &Netlist<'_, 'a>, at: usize, site: usize) -> Option<&'a str>
    requires { IsNetlist netlist.now }
    ensures found { IfSome result (λ name. InModule (setting_of netlist.now) at (λ all. IsUnknownPort (setting_of netlist.now) all site name.now)) }
    ensures none { IfNone result ((name : List ℕ) → ¬ InModule (setting_of netlist.now) at (λ all. IsUnknownPort (setting_of netlist.now) all site name)) }
{
    let here = look(netlist, at, site)?;
    unknown_at(netlist, here.scope, here.site, here.meaning)
}

/// The name of a port that there is not, at one site, given what the kind there means.
fn unknown_at<'a>(
    netlist: &Netlist<'_, 'a>,
    scope: &Scope<'_, 'a>,
    site: &Site<'a>,
    meaning: Option<Meaning>,
) -> Option<&'a str>
    requires netlist { IsNetlist netlist.now }
    requires scope { IsScope scope.now }
    requires meant { IsMeantAt (setting_of netlist.now) (view_site site.now) meaning }
    ensures found { IfSome result (λ name. LacksPort (setting_of netlist.now) (sites_of scope.now) (view_site site.now) name.now) }
    ensures none { IfNone result ((name : List ℕ) → ¬ LacksPort (setting_of netlist.now) (sites_of scope.now) (view_site site.now) name) }
{
    match *site {
        Site::Listed(name) => without_direction(scope, name),
        Site::Port { name, .. } => without_listing(scope, name),
        Site::Named { kind, port, .. } => {
            let kind = KindName {
                name: kind,
                meaning,
            };
            without_port(netlist, kind, port)
        }
        _ => None,
    }
}

/// The name, where it has no direction.
fn without_direction<'a>(scope: &Scope<'_, 'a>, name: &'a str) -> Option<&'a str>
    requires { IsScope scope.now }
    ensures found { IfSome result (λ found. (name.entry.now ≡ found.now) × (¬ HasDirection (sites_of scope.now) name.entry.now)) }
    ensures none { IfNone result (HasDirection (sites_of scope.now) name.entry.now) }
{
    match scope.direction(name) {
        Some(_) => None,
        None => Some(name),
    }
}

/// The name, where it is not listed.
fn without_listing<'a>(scope: &Scope<'_, 'a>, name: &'a str) -> Option<&'a str>
    requires { IsScope scope.now }
    ensures found { IfSome result (λ found. (name.entry.now ≡ found.now) × (¬ Stands (sites_of scope.now) (Listed name.entry.now))) }
    ensures none { IfNone result (Stands (sites_of scope.now) (Listed name.entry.now)) }
{
    if scope.is_listed(name) {
        None
    } else {
        Some(name)
    }
}

/// The name, where a kind that is a module or a cell has no such port.
fn without_port<'a>(netlist: &Netlist<'_, 'a>, kind: KindName<'_>, name: &'a str) -> Option<&'a str>
    requires netlist { IsNetlist netlist.now }
    requires meant { IsMeant (setting_of netlist.now) kind }
    ensures found { IfSome result (λ found. (name.entry.now ≡ found.now) × IsNoPort (setting_of netlist.now) kind.entry.name.now name.entry.now) }
    ensures none { IfNone result (¬ IsNoPort (setting_of netlist.now) kind.entry.name.now name.entry.now) }
{
    ports_are_one();
    netlist.port_count(kind)?;
    match netlist.port_place(kind, name) {
        Some(_) => None,
        None => Some(name),
    }
}

/// The number of links by order of the instance at a site, and that of the ports of its kind, where there are more links. Nothing stands at a
/// place or a site past the last.
pub(crate) fn too_many(netlist: &Netlist<'_, '_>, at: usize, site: usize) -> Option<(u64, u64)>
    requires { IsNetlist netlist.now }
    ensures found { IfSome result (λ counts. InModule (setting_of netlist.now) at (λ all. HasTooMany (setting_of netlist.now) all site counts.0 counts.1)) }
    ensures none { IfNone result ((have want : ℕ) → ¬ InModule (setting_of netlist.now) at (λ all. HasTooMany (setting_of netlist.now) all site have want)) }
{
    let here = look(netlist, at, site)?;
    more_at(netlist, here.site, here.meaning)
}

/// The number of links by order of the instance at one site, and that of the ports of its kind, where there are more links, given what the
/// kind means.
fn more_at(
    netlist: &Netlist<'_, '_>,
    site: &Site<'_>,
    meaning: Option<Meaning>,
) -> Option<(u64, u64)>
    requires netlist { IsNetlist netlist.now }
    requires meant { IsMeantAt (setting_of netlist.now) (view_site site.now) meaning }
    ensures found { IfSome result (λ counts. HasMoreAt (setting_of netlist.now) (view_site site.now) counts.0 counts.1) }
    ensures none { IfNone result ((have want : ℕ) → ¬ HasMoreAt (setting_of netlist.now) (view_site site.now) have want) }
{
    match *site {
        Site::Instance { kind, links, .. } => {
            let kind = KindName {
                name: kind,
                meaning,
            };
            more_links(netlist, kind, links)
        }
        _ => None,
    }
}

/// The number of links by order, and that of the ports of a kind, where there are more links.
fn more_links(netlist: &Netlist<'_, '_>, kind: KindName<'_>, links: &Links) -> Option<(u64, u64)>
    requires netlist { IsNetlist netlist.now }
    requires meant { IsMeant (setting_of netlist.now) kind }
    ensures found { IfSome result (λ counts. HasMoreLinks (setting_of netlist.now) kind.entry.name.now (view_links links.now) counts.0 counts.1) }
    ensures none { IfNone result ((have want : ℕ) → ¬ HasMoreLinks (setting_of netlist.now) kind.entry.name.now (view_links links.now) have want) }
{
    match links {
        Links::Named(_) => None,
        Links::Ordered(links) => more_than_ports(netlist, kind, links.len()),
    }
}

/// A number, and that of the ports of a kind, where the first is greater.
fn more_than_ports(netlist: &Netlist<'_, '_>, kind: KindName<'_>, have: usize) -> Option<(u64, u64)>
    requires netlist { IsNetlist netlist.now }
    requires meant { IsMeant (setting_of netlist.now) kind }
    ensures found { IfSome result (λ counts. (counts.0 ≡ have) × HasMore (setting_of netlist.now) kind.entry.name.now counts.0 counts.1) }
    ensures none { IfNone result ((want : ℕ) → ¬ HasMore (setting_of netlist.now) kind.entry.name.now have want) }
{
    ports_are_one();
    let want = netlist.port_count(kind)?;
    if want < have {
        Some((have as u64, want as u64))
    } else {
        None
    }
}
