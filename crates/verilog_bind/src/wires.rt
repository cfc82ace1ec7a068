//! The wires of a module and their numbers.

ghost use Rattle.std.specs.Prelude.{◌≡◌, ◌+◌, ◌<◌, length, IfOk, OnOk};
ghost use Rattle.std.specs.List.{AllZip};
ghost use Rattle.bind_forms.specs.Binds.{BindsPort};
ghost use Rattle.verilog_tree.specs.Trees.{Module};
ghost use Rattle.bind_sites.specs.Sites.{sites, port_names};
ghost use Rattle.bind_names.specs.Scoped.{IsScope, sites_of};
ghost use Rattle.verilog_bind.specs.Fitting.{IsSound};
ghost use Rattle.verilog_bind.specs.Numbered.{IsWires, sites_in, IsStarted, HasPortsTo, HasOthersTo, Puts};

use crate::making::made_at;
use bind_forms::{BoundPort, BoundWire};
use bind_names::Scope;
use bind_sites::{Site, Sort};
use name_table::FirstNames;
use rsfq_ids::list::{List, NoMemory};
use rsfq_ids::name::Name;
use std::alloc::Global;

/// The ports and the wires of a module. The wires are the ports, in port order, and then the others, in the order of the sites that make them.
#[derive(Debug, Drop)]
pub(crate) struct Wires<'s, 'a> {
    pub(crate) sites: &'s [Site<'a>],
    pub(crate) ports: List<BoundPort>,
    pub(crate) list: List<BoundWire>,
    pub(crate) numbers: FirstNames<'a>,
}

impl<'s, 'a> Wires<'s, 'a> {
    /// The ports and the wires of a module, by what its names are. A fixed number of look-ups in hash tables for each site.
    ///
    /// # Errors
    ///
    /// `NoMemory` alone, which may come at any time, and comes where there are 2^32 wires or more.
    pub(crate) fn of(alloc: Global, scope: &Scope<'s, 'a>) -> Result<Wires<'s, 'a>, NoMemory>
        requires scope { IsScope scope.now }
        requires sound { IsSound (sites_of scope.now) }
        ensures sites { IfOk result (λ wires. sites_in wires ≡ sites_of scope.now) }
        ensures wires { IfOk result IsWires }
        ensures ports { IfOk result (λ wires. (owner : Module) → sites_of scope.now ≡ sites owner → AllZip (BindsPort (sites owner)) (port_names owner.head) wires.ports) }
    {
        let mut wires = Wires {
            sites: scope.sites,
            ports: List::new(alloc),
            list: List::new(alloc),
            numbers: FirstNames::new(alloc, scope.keys),
        };
        wires.add_ports(alloc, scope)?;
        wires.add_others(alloc, scope)?;
        Ok(wires)
    }

    /// The ports and the wires.
    pub(crate) fn into_parts(self) -> (List<BoundPort>, List<BoundWire>)
        ensures ports { result.0 ≡ self.entry.ports }
        ensures wires { result.1 ≡ self.entry.list }
    {
        (self.ports, self.list)
    }

    fn add_ports(&mut self, alloc: Global, scope: &Scope<'s, 'a>) -> Result<(), NoMemory>
        requires scope { IsScope scope.now }
        requires sound { IsSound (sites_of scope.now) }
        requires sites { self.old.sites ≡ scope.now.sites }
        requires started { IsStarted self.old }
        ensures sites { self.new.sites ≡ self.old.sites }
        ensures ports { OnOk result (HasPortsTo (sites_of scope.now) (length (sites_of scope.now)) self.new) }
    {
        for at in 0..scope.sites.len() {
            self.add_port(alloc, scope, at)?;
        }
        Ok(())
    }

    /// Takes the port that is listed at a place, if one is, which is the next place.
    fn add_port(&mut self, alloc: Global, scope: &Scope<'s, 'a>, at: usize) -> Result<(), NoMemory>
        requires scope { IsScope scope.now }
        requires sound { IsSound (sites_of scope.now) }
        requires there { at < length (sites_of scope.now) }
        requires before { HasPortsTo (sites_of scope.now) at self.old }
        ensures sites { self.new.sites ≡ self.old.sites }
        ensures ports { OnOk result (HasPortsTo (sites_of scope.now) (at + 1) self.new) }
    {
        let Some(name) = Sort::Listed.name(&scope.sites[at]) else {
            return Ok(());
        };
        let Some((output, range)) = scope.direction(name) else {
            unreachable!()
        };
        self.put(alloc, name, range)?;
        let name = Name::of(alloc, name)?;
        self.ports.push(BoundPort {
            name,
            output,
            range,
        })
    }

    fn add_others(&mut self, alloc: Global, scope: &Scope<'s, 'a>) -> Result<(), NoMemory>
        requires scope { IsScope scope.now }
        requires sound { IsSound (sites_of scope.now) }
        requires sites { self.old.sites ≡ scope.now.sites }
        requires ports { HasPortsTo (sites_of scope.now) (length (sites_of scope.now)) self.old }
        ensures sites { self.new.sites ≡ self.old.sites }
        ensures wires { OnOk result (IsWires self.new) }
    {
        for at in 0..scope.sites.len() {
            self.add_other(alloc, scope, at)?;
        }
        Ok(())
    }

    /// Takes the wire that the site at a place makes, if it makes one that is no port. The place is the next one.
    fn add_other(&mut self, alloc: Global, scope: &Scope<'s, 'a>, at: usize) -> Result<(), NoMemory>
        requires scope { IsScope scope.now }
        requires there { at < length (sites_of scope.now) }
        requires before { HasOthersTo (sites_of scope.now) at self.old }
        ensures sites { self.new.sites ≡ self.old.sites }
        ensures others { OnOk result (HasOthersTo (sites_of scope.now) (at + 1) self.new) }
    {
        match made_at(scope, at, &self.numbers) {
            Some((name, range)) => self.put(alloc, name, range),
            None => Ok(()),
        }
    }

    /// Adds a wire at the end.
    fn put(
        &mut self,
        alloc: Global,
        name: &'a str,
        range: Option<(u32, u32)>,
    ) -> Result<(), NoMemory>
        ensures sites { self.new.sites ≡ self.old.sites }
        ensures ports { self.new.ports ≡ self.old.ports }
        ensures put { OnOk result (Puts self.old self.new (record { name = name.entry.now; range = range })) }
    {
        let number = self.list.len();
        if number >= u32::MAX as usize {
            return Err(NoMemory);
        }
        self.list.push(BoundWire {
            name: Name::of(alloc, name)?,
            range,
        })?;
        self.numbers.see(name, number)?;
        Ok(())
    }
}
