//! The links of an instance.

ghost use Rattle.std.specs.Prelude.{◌≡◌, ◌++◌, [], ◌∷◌, ℕ, List, map, IfOk, OnOk};
ghost use Rattle.std.specs.List.{All, AllZip};
ghost use Rattle.bind_forms.specs.Modules.{HasPorts};
ghost use Rattle.bind_forms.specs.Binds.{BindsNamed, BindsOrdered, BindsLinks, named_exprs, ordered_exprs};
ghost use Rattle.verilog_tree.specs.Trees.{Expr};
ghost use Rattle.verilog_tree.specs.Views.{view_expr, view_named, view_optional, view_links};
ghost use Rattle.bind_sites.specs.Sites.{operands};
ghost use Rattle.bind_kinds.specs.Meanings.{IsMeant};
ghost use Rattle.verilog_bind.specs.Fitting.{IsSound, IsUsed};
ghost use Rattle.verilog_bind.specs.Numbered.{IsWires, sites_in};
ghost use Rattle.verilog_bind.specs.Sound.{IsBinder, setting_in, HasPort, IsSoundNamed, IsSoundOrdered, AreSoundLinks, AddsNamed, AddsOrdered};

use crate::binder::Binder;
use crate::wires::Wires;
use bind_forms::BoundLink;
use bind_kinds::{KindName, ports_are_one};
use rsfq_ids::list::{List as Items, NoMemory};
use std::alloc::Global;
use verilog_tree::{Expr as Tree, Links, NamedLink};

impl Binder<'_, '_> {
    /// The links of an instance that have an expression, in text order.
    pub(crate) fn bind_links(
        &self,
        alloc: Global,
        wires: &Wires<'_, '_>,
        kind: KindName<'_>,
        links: &Links,
    ) -> Result<Items<BoundLink>, NoMemory>
        requires binder { IsBinder self.now }
        requires meant { IsMeant (setting_in self.now) kind }
        requires wires { IsWires wires.now }
        requires sound { IsSound (sites_in wires.now) }
        requires links { AreSoundLinks (setting_in self.now) (sites_in wires.now) kind.name.now (view_links links.now) }
        ensures { IfOk result (λ bound. (names : List (List ℕ)) → HasPorts (setting_in self.now) kind.entry.name.now names → BindsLinks names wires.now.list (view_links links.now) bound) }
    {
        match links {
            Links::Named(links) => self.bind_named(alloc, wires, kind, links.as_slice()),
            Links::Ordered(links) => bind_ordered(alloc, wires, links.as_slice()),
        }
    }

    /// Links by name.
    fn bind_named(
        &self,
        alloc: Global,
        wires: &Wires<'_, '_>,
        kind: KindName<'_>,
        links: &[NamedLink],
    ) -> Result<Items<BoundLink>, NoMemory>
        requires binder { IsBinder self.now }
        requires meant { IsMeant (setting_in self.now) kind }
        requires wires { IsWires wires.now }
        requires sound { IsSound (sites_in wires.now) }
        requires links { All (IsSoundNamed (setting_in self.now) (sites_in wires.now) kind.name.now) (map view_named links.now) }
        ensures { IfOk result (λ bound. (names : List (List ℕ)) → HasPorts (setting_in self.now) kind.entry.name.now names → AllZip (BindsNamed names wires.now.list) (named_exprs (map view_named links.now)) bound) }
    {
        let mut bound = Items::new(alloc);
        for link in links {
            self.add_named(alloc, wires, kind, link, &mut bound)?;
        }
        Ok(bound)
    }

    /// Adds a link by name, if it has an expression.
    fn add_named(
        &self,
        alloc: Global,
        wires: &Wires<'_, '_>,
        kind: KindName<'_>,
        link: &NamedLink,
        bound: &mut Items<BoundLink>,
    ) -> Result<(), NoMemory>
        requires binder { IsBinder self.now }
        requires meant { IsMeant (setting_in self.now) kind }
        requires wires { IsWires wires.now }
        requires sound { IsSound (sites_in wires.now) }
        requires link { IsSoundNamed (setting_in self.now) (sites_in wires.now) kind.name.now (view_named link.now) }
        ensures { OnOk result (AddsNamed (setting_in self.now) kind.entry.name.now wires.now.list (view_named link.now) bound.old bound.new) }
    {
        match &link.expr {
            None => Ok(()),
            Some(expr) => {
                bound.push(self.named_link(alloc, wires, kind, link.name.as_str(), expr)?)
            }
        }
    }

    /// A link by name with its expression.
    fn named_link(
        &self,
        alloc: Global,
        wires: &Wires<'_, '_>,
        kind: KindName<'_>,
        name: &str,
        expr: &Tree,
    ) -> Result<BoundLink, NoMemory>
        requires binder { IsBinder self.now }
        requires meant { IsMeant (setting_in self.now) kind }
        requires wires { IsWires wires.now }
        requires sound { IsSound (sites_in wires.now) }
        requires port { HasPort (setting_in self.now) kind.name.now name.now }
        requires used { All (IsUsed (sites_in wires.now)) (operands (view_expr expr.now)) }
        ensures { IfOk result (λ link. (names : List (List ℕ)) → HasPorts (setting_in self.now) kind.entry.name.now names → BindsNamed names wires.now.list (name.now, view_expr expr.now) link) }
    {
        ports_are_one();
        let Some(port) = self.netlist.port_place(kind, name) else {
            unreachable!()
        };
        if port > u32::MAX as usize {
            return Err(NoMemory);
        }
        let parts = wires.bind_expr(alloc, expr)?;
        Ok(BoundLink {
            port: port as u32,
            parts,
        })
    }
}

/// Links by order.
fn bind_ordered(
    alloc: Global,
    wires: &Wires<'_, '_>,
    links: &[Option<Tree>],
) -> Result<Items<BoundLink>, NoMemory>
    requires wires { IsWires wires.now }
    requires sound { IsSound (sites_in wires.now) }
    requires links { All (IsSoundOrdered (sites_in wires.now)) (map view_optional links.now) }
    ensures { IfOk result (AllZip (BindsOrdered wires.now.list) (ordered_exprs (map view_optional links.now))) }
{
    let mut bound = Items::new(alloc);
    for (place, link) in links.iter().enumerate() {
        add_ordered(alloc, wires, place, link, &mut bound)?;
    }
    Ok(bound)
}

/// Adds a link by order, if it has an expression.
fn add_ordered(
    alloc: Global,
    wires: &Wires<'_, '_>,
    place: usize,
    link: &Option<Tree>,
    bound: &mut Items<BoundLink>,
) -> Result<(), NoMemory>
    requires wires { IsWires wires.now }
    requires sound { IsSound (sites_in wires.now) }
    requires link { IsSoundOrdered (sites_in wires.now) (view_optional link.now) }
    ensures { OnOk result (AddsOrdered wires.now.list (place, view_optional link.now) bound.old bound.new) }
{
    match link {
        None => Ok(()),
        Some(expr) => {
            if place > u32::MAX as usize {
                return Err(NoMemory);
            }
            let parts = wires.bind_expr(alloc, expr)?;
            bound.push(BoundLink {
                port: place as u32,
                parts,
            })
        }
    }
}
