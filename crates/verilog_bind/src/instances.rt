//! The instances of a module.

ghost use Rattle.std.specs.Prelude.{◌≡◌, ◌+◌, ◌<◌, length, take, IfOk, OnOk};
ghost use Rattle.std.specs.List.{AllZip, flat_map, filter_map};
ghost use Rattle.bind_forms.specs.Faults.{HasSites};
ghost use Rattle.bind_forms.specs.Binds.{BindsInstance, item_instances};
ghost use Rattle.verilog_tree.specs.Trees.{Module};
ghost use Rattle.verilog_tree.specs.Views.{view_links};
ghost use Rattle.bind_sites.specs.Sites.{sites, Instance};
ghost use Rattle.bind_sites.specs.Scope.{Stands};
ghost use Rattle.bind_kinds.specs.Meanings.{IsMeant};
ghost use Rattle.verilog_bind.specs.Fitting.{IsSound};
ghost use Rattle.verilog_bind.specs.Listed.{instance_of, AreSites};
ghost use Rattle.verilog_bind.specs.Numbered.{IsWires, sites_in};
ghost use Rattle.verilog_bind.specs.Sound.{IsBinder, setting_in, IsSoundModule};

use crate::binder::Binder;
use crate::laws::instances_are_sites;
use crate::wires::Wires;
use bind_forms::BoundInstance;
use bind_kinds::KindName;
use bind_sites::Site;
use rsfq_ids::list::{List, NoMemory};
use rsfq_ids::name::Name;
use std::alloc::Global;
use verilog_tree::Links;

impl Binder<'_, '_> {
    /// The instances of the module at a place of the text, in text order.
    pub(crate) fn instances(
        &self,
        alloc: Global,
        wires: &Wires<'_, '_>,
        place: usize,
    ) -> Result<List<BoundInstance>, NoMemory>
        requires binder { IsBinder self.now }
        requires wires { IsWires wires.now }
        requires sound { IsSoundModule (setting_in self.now) self.now.places.now (sites_in wires.now) }
        requires sites { AreSites (sites_in wires.now) }
        requires has { HasSites (setting_in self.now) place (sites_in wires.now) }
        ensures { IfOk result (λ bound. (owner : Module) → sites_in wires.now ≡ sites owner → AllZip (BindsInstance (setting_in self.now) self.now.places.now wires.now.list) (flat_map item_instances owner.items) bound) }
    {
        instances_are_sites();
        let mut bound = List::new(alloc);
        for at in 0..wires.sites.len() {
            self.add_instance(alloc, wires, place, at, &mut bound)?;
        }
        Ok(bound)
    }

    /// Adds the instance at a site of the module at a place of the text, if one stands there. The site is the next one.
    fn add_instance(
        &self,
        alloc: Global,
        wires: &Wires<'_, '_>,
        place: usize,
        at: usize,
        bound: &mut List<BoundInstance>,
    ) -> Result<(), NoMemory>
        requires binder { IsBinder self.now }
        requires wires { IsWires wires.now }
        requires sound { IsSoundModule (setting_in self.now) self.now.places.now (sites_in wires.now) }
        requires sites { AreSites (sites_in wires.now) }
        requires has { HasSites (setting_in self.now) place (sites_in wires.now) }
        requires there { at < length (sites_in wires.now) }
        requires before { AllZip (BindsInstance (setting_in self.now) self.now.places.now wires.now.list) (filter_map instance_of (take at (sites_in wires.now))) bound.old }
        ensures { OnOk result (AllZip (BindsInstance (setting_in self.now) self.now.places.now wires.now.list) (filter_map instance_of (take (at + 1) (sites_in wires.now))) bound.new) }
    {
        match wires.sites[at] {
            Site::Instance { kind, name, links } => {
                let kind = KindName {
                    name: kind,
                    meaning: self.netlist.meaning_at(place, at),
                };
                bound.push(self.bind_instance(alloc, wires, kind, name, links)?)
            }
            _ => Ok(()),
        }
    }

    /// An instance that stands in the module.
    fn bind_instance(
        &self,
        alloc: Global,
        wires: &Wires<'_, '_>,
        kind: KindName<'_>,
        name: &str,
        links: &Links,
    ) -> Result<BoundInstance, NoMemory>
        requires binder { IsBinder self.now }
        requires wires { IsWires wires.now }
        requires sound { IsSoundModule (setting_in self.now) self.now.places.now (sites_in wires.now) }
        requires sites { AreSites (sites_in wires.now) }
        requires meant { IsMeant (setting_in self.now) kind }
        requires stands { Stands (sites_in wires.now) (Instance kind.name.now name.now (view_links links.now)) }
        ensures { IfOk result (BindsInstance (setting_in self.now) self.now.places.now wires.now.list (kind.entry.name.now, record { name = name.now; links = view_links links.now })) }
    {
        instances_are_sites();
        let meant = self.bind_kind(kind)?;
        let links = self.bind_links(alloc, wires, kind, links)?;
        Ok(BoundInstance {
            name: Name::of(alloc, name)?,
            kind: meant,
            links,
        })
    }
}
