//! A cause is looked for over the reached modules.

ghost use Rattle.std.specs.Prelude.{◌+◌, ◌<◌, List, length};
ghost use Rattle.bind_sites.specs.Sites.{Site};
ghost use Rattle.bind_forms.specs.Modules.{Setting, IsReached};
ghost use Rattle.bind_names.specs.Scoped.{IsScope, sites_of};
ghost use Rattle.bind_forms.specs.Faults.{HasSites, HasReachedSites};
ghost use Rattle.bind_forms.specs.First.{IsFirstFault};
ghost use Rattle.bind_kinds.specs.Netlist.{setting_of};
ghost use Rattle.bind_faults.specs.declared.check.Check.TheVariants.{PortsTwice, EachSite};
ghost use Rattle.bind_faults.specs.Order.{rank, IsClear, Answers};
ghost use Rattle.bind_faults.specs.Checks.{site_line, line_of, AnswersIn, AreReached};
ghost use Rattle.bind_faults.specs.Told.{IsTold};

use crate::check::{Check, SiteCheck};
use bind_forms::BindFault;
use bind_kinds::Netlist;
use bind_names::Scope;
use rsfq_ids::name::Name;
use std::alloc::Global;

impl SiteCheck {
    /// Looks for the cause site by site in a reached module.
    fn look_in<'a>(
        self,
        alloc: Global,
        netlist: &Netlist<'_, 'a>,
        scope: &Scope<'_, 'a>,
        at: usize,
    ) -> Result<(), BindFault>
        requires told { IsTold netlist.now }
        requires scope { IsScope scope.now }
        requires sites { HasReachedSites (setting_of netlist.now) at (sites_of scope.now) }
        requires before { IsClear (setting_of netlist.now) (rank (site_line self)) }
        ensures { AnswersIn (EachSite self) (setting_of netlist.now) (sites_of scope.now) result }
    {
        for site in 0..scope.sites.len() {
            self.look_at(alloc, netlist, scope, at, site)?;
        }
        Ok(())
    }
}

/// The first port in a module that an instance links twice.
fn refuse_port_twice(alloc: Global, scope: &Scope<'_, '_>) -> Result<(), BindFault>
    ensures { (setting : Setting) → AnswersIn PortsTwice setting (sites_of scope.now) result }
{
    match scope.port_twice(alloc)? {
        Some((_, name)) => Err(BindFault::PortTwice(Name::of(alloc, name)?)),
        None => Ok(()),
    }
}

impl Check {
    /// Looks for the cause in a reached module.
    fn look_in(self, alloc: Global, netlist: &Netlist<'_, '_>, at: usize) -> Result<(), BindFault>
        requires told { IsTold netlist.now }
        requires reached { IsReached (setting_of netlist.now) at }
        requires there { at < length netlist.now.scopes.now }
        requires before { IsClear (setting_of netlist.now) (rank (line_of self)) }
        ensures { (all : List Site) → HasSites (setting_of netlist.now) at all → AnswersIn self (setting_of netlist.now) all result }
    {
        let scope = &netlist.scopes[at];
        match self {
            Check::PortsTwice => refuse_port_twice(alloc, scope),
            Check::EachSite(check) => check.look_in(alloc, netlist, scope, at),
        }
    }

    /// Looks for the cause in the reached modules, where the causes before it stand nowhere.
    pub(crate) fn look_over(
        self,
        alloc: Global,
        netlist: &Netlist<'_, '_>,
        reached: &[bool],
    ) -> Result<(), BindFault>
        requires told { IsTold netlist.now }
        requires reached { AreReached (setting_of netlist.now) reached.now }
        requires before { IsClear (setting_of netlist.now) (rank (line_of self)) }
        ensures { Answers result (IsClear (setting_of netlist.now) (rank (line_of self) + 1)) (IsFirstFault (setting_of netlist.now)) }
    {
        for (at, is_reached) in reached.iter().enumerate() {
            if *is_reached {
                self.look_in(alloc, netlist, at)?;
            }
        }
        Ok(())
    }
}
