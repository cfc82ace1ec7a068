//! Kinds that mean nothing.

ghost use Rattle.std.specs.Prelude.{◌≡◌, ◌<◌, ℕ, List, length, IfSome, IfNone};
ghost use Rattle.std.specs.Option.{option_map};
ghost use Rattle.bind_sites.specs.View.{view_site};
ghost use Rattle.bind_names.specs.Scoped.{sites_of};
ghost use Rattle.bind_forms.specs.Modules.{Setting};
ghost use Rattle.bind_forms.specs.Faults.{IsKind, HasSites};
ghost use Rattle.bind_kinds.specs.Netlist.{setting_of};
ghost use Rattle.bind_kinds.specs.Meanings.{IsMeant};
ghost use Rattle.bind_faults.specs.declared.check.SiteCheck.TheVariants.{Kinds};
ghost use Rattle.bind_faults.specs.Checks.{AnswersAt, IsUnknownKind, kind_of};
ghost use Rattle.bind_faults.specs.Told.{IsTold};

use bind_forms::BindFault;
use bind_kinds::{KindName, Netlist};
use bind_names::Scope;
use bind_sites::Site;
use rsfq_ids::name::Name;
use std::alloc::Global;

/// The kind of the instance that a site is.
fn instance_kind<'a>(site: &Site<'a>) -> Option<&'a str>
    ensures { option_map (λ kind. kind.now) result ≡ kind_of (view_site site.now) }
{
    match site {
        Site::Instance { kind, .. } => Some(kind),
        _ => None,
    }
}

/// The name of a kind, where it is neither a module's nor a cell's.
fn unless_kind<'k>(kind: KindName<'k>) -> Option<&'k str>
    ensures found { IfSome result (λ found. (found.now ≡ kind.entry.name.now) × ((setting : Setting) → IsMeant setting kind.entry → ¬ IsKind setting kind.entry.name.now)) }
    ensures none { IfNone result ((setting : Setting) → IsMeant setting kind.entry → IsKind setting kind.entry.name.now) }
{
    match kind.meaning {
        Some(_) => None,
        None => Some(kind.name),
    }
}

/// The kind of an instance at a site of the module at a place of the text, where it is neither a module nor a cell.
fn find_unknown_kind<'a>(
    netlist: &Netlist<'_, 'a>,
    scope: &Scope<'_, 'a>,
    at: usize,
    site: usize,
) -> Option<&'a str>
    requires told { IsTold netlist.now }
    requires sites { HasSites (setting_of netlist.now) at (sites_of scope.now) }
    requires there { site < length (sites_of scope.now) }
    ensures found { IfSome result (λ kind. IsUnknownKind (setting_of netlist.now) (sites_of scope.now) site kind.now) }
    ensures none { IfNone result ((kind : List ℕ) → ¬ IsUnknownKind (setting_of netlist.now) (sites_of scope.now) site kind) }
{
    match instance_kind(&scope.sites[site]) {
        Some(name) => unless_kind(KindName {
            name,
            meaning: netlist.meaning_at(at, site),
        }),
        None => None,
    }
}

/// An instance of a kind that is neither a module nor a cell.
pub(crate) fn unknown_kind<'a>(
    alloc: Global,
    netlist: &Netlist<'_, 'a>,
    scope: &Scope<'_, 'a>,
    at: usize,
    site: usize,
) -> Result<(), BindFault>
    requires told { IsTold netlist.now }
    requires sites { HasSites (setting_of netlist.now) at (sites_of scope.now) }
    requires there { site < length (sites_of scope.now) }
    ensures { AnswersAt Kinds (setting_of netlist.now) (sites_of scope.now) site result }
{
    match find_unknown_kind(netlist, scope, at, site) {
        Some(kind) => Err(BindFault::NoSuchModule(Name::of(alloc, kind)?)),
        None => Ok(()),
    }
}
