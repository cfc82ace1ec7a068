//! The assigns of a module.

ghost use Rattle.std.specs.Prelude.{◌≡◌, ◌+◌, ◌<◌, length, take, IfOk, OnOk};
ghost use Rattle.std.specs.List.{AllZip, flat_map, filter_map};
ghost use Rattle.bind_forms.specs.Binds.{BindsAssign, item_assigns};
ghost use Rattle.verilog_tree.specs.Trees.{Module};
ghost use Rattle.bind_sites.specs.Sites.{sites};
ghost use Rattle.verilog_bind.specs.Fitting.{IsSound};
ghost use Rattle.verilog_bind.specs.Listed.{assign_of, AreSites};
ghost use Rattle.verilog_bind.specs.Numbered.{IsWires, sites_in};

use crate::wires::Wires;
use bind_forms::BoundAssign;
use bind_sites::Site;
use rsfq_ids::list::{List, NoMemory};
use std::alloc::Global;

impl<'s, 'a> Wires<'s, 'a> {
    /// The assigns of the module, in text order.
    ///
    /// # Errors
    ///
    /// `NoMemory` alone, which may come at any time.
    pub(crate) fn assigns(&self, alloc: Global) -> Result<List<BoundAssign>, NoMemory>
        requires wires { IsWires self.now }
        requires sound { IsSound (sites_in self.now) }
        requires sites { AreSites (sites_in self.now) }
        ensures { IfOk result (λ assigns. (owner : Module) → sites_in self.now ≡ sites owner → AllZip (BindsAssign self.now.list) (flat_map item_assigns owner.items) assigns) }
    {
        let mut assigns = List::new(alloc);
        for at in 0..self.sites.len() {
            self.add_assign(alloc, at, &mut assigns)?;
        }
        Ok(assigns)
    }

    /// Adds the assign at a place, if one stands there. The place is the next one.
    fn add_assign(
        &self,
        alloc: Global,
        at: usize,
        assigns: &mut List<BoundAssign>,
    ) -> Result<(), NoMemory>
        requires wires { IsWires self.now }
        requires sound { IsSound (sites_in self.now) }
        requires sites { AreSites (sites_in self.now) }
        requires there { at < length (sites_in self.now) }
        requires before { AllZip (BindsAssign self.now.list) (filter_map assign_of (take at (sites_in self.now))) assigns.old }
        ensures { OnOk result (AllZip (BindsAssign self.now.list) (filter_map assign_of (take (at + 1) (sites_in self.now))) assigns.new) }
    {
        match self.sites[at] {
            Site::Assign { to, from } => {
                let to = self.bind_expr(alloc, to)?;
                let from = self.bind_expr(alloc, from)?;
                assigns.push(BoundAssign { to, from })
            }
            _ => Ok(()),
        }
    }
}
