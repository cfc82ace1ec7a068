//! A site of a module of the text.

ghost use Rattle.std.specs.Prelude.{List, IfSome, IfNone};
ghost use Rattle.bind_sites.specs.Sites.{Site};
ghost use Rattle.bind_sites.specs.Scope.{IsAt};
ghost use Rattle.bind_forms.specs.Faults.{HasSites};
ghost use Rattle.bind_kinds.specs.Netlist.{IsNetlist, setting_of};
ghost use Rattle.bind_faults.specs.Looked.{IsLooked};

use bind_hierarchy::Meaning;
use bind_kinds::Netlist;
use bind_names::Scope;
use bind_sites::Site as CodeSite;

/// A site with the names of its module and what the kind at it means.
#[derive(Clone, Copy, Debug)]
pub(crate) struct Looked<'n, 'a> {
    pub(crate) scope: &'n Scope<'n, 'a>,
    pub(crate) site: &'n CodeSite<'a>,
    pub(crate) meaning: Option<Meaning>,
}

/// The site at a place of the module at a place of the text. Nothing stands at a place or a site past the last.
pub(crate) fn look<'n, 'a>(
    netlist: &Netlist<'n, 'a>,
    at: usize,
    site: usize,
) -> Option<Looked<'n, 'a>>
    requires { IsNetlist netlist.now }
    ensures found { IfSome result (IsLooked (setting_of netlist.now) at site) }
    ensures none { IfNone result ((all : List Site) (here : Site) → HasSites (setting_of netlist.now) at all → ¬ IsAt all site here) }
{
    let scope = netlist.scopes.get(at)?;
    let here = scope.sites.get(site)?;
    Some(Looked {
        scope,
        site: here,
        meaning: netlist.meaning_at(at, site),
    })
}
