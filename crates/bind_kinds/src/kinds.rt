//! What the kinds at sites mean, and what the ports of a kind are.

ghost use Rattle.std.specs.Prelude.{◌≡◌, ℕ, List, length, slice_get, IfSome, IfNone};
ghost use Rattle.bind_sites.specs.Sites.{Site};
ghost use Rattle.bind_sites.specs.Scope.{IsAt};
ghost use Rattle.bind_hierarchy.specs.Names.{IsFirstPlace};
ghost use Rattle.bind_forms.specs.Modules.{HasPorts};
ghost use Rattle.bind_forms.specs.Faults.{HasSites, PortWidth};
ghost use Rattle.bind_kinds.specs.Netlist.{IsNetlist, setting_of};
ghost use Rattle.bind_kinds.specs.Meanings.{IsMeant, IsMeantAt};
ghost use Rattle.bind_kinds.specs.Ports.{HasPortCount, HasPortPlace, HasWidthAt};

use crate::netlist::{KindName, Netlist};
use crate::pins::{cell_count, cell_place, head_count, pin_width};
use crate::widths::name_width;
use bind_hierarchy::Meaning;

impl Netlist<'_, '_> {
    /// What the kind at a site means: the kind of an instance, or of a link's instance. At another site anything.
    pub fn meaning_at(&self, at: usize, site: usize) -> Option<Meaning>
        requires { IsNetlist self.now }
        ensures { (all : List Site) (here : Site) → HasSites (setting_of self.now) at all → IsAt all site here → IsMeantAt (setting_of self.now) here result }
    {
        *self.meanings.get(at)?.get(site)?
    }

    /// How many ports a kind has. `None` exactly where it is neither a module nor a cell.
    pub fn port_count(&self, kind: KindName<'_>) -> Option<usize>
        requires netlist { IsNetlist self.now }
        requires meant { IsMeant (setting_of self.now) kind }
        ensures found { IfSome result (HasPortCount (setting_of self.now) kind.entry.name.now) }
        ensures none { IfNone result ((names : List (List ℕ)) → ¬ HasPorts (setting_of self.now) kind.entry.name.now names) }
    {
        match kind.meaning {
            Some(Meaning::Module(at)) => Some(head_count(&self.source.modules.get(at)?.head)),
            Some(Meaning::Cell(row)) => Some(cell_count(self.cells.rows.get(row)?)),
            None => None,
        }
    }

    /// The first place of a name among the ports of a kind. `None` exactly where the name is no port of it, or it is neither a module nor a
    /// cell.
    pub fn port_place(&self, kind: KindName<'_>, name: &str) -> Option<usize>
        requires netlist { IsNetlist self.now }
        requires meant { IsMeant (setting_of self.now) kind }
        ensures found { IfSome result (HasPortPlace (setting_of self.now) kind.entry.name.now name.now) }
        ensures none { IfNone result ((names : List (List ℕ)) → HasPorts (setting_of self.now) kind.entry.name.now names → IsFirstPlace names name.now None) }
    {
        match kind.meaning {
            Some(Meaning::Module(at)) => self.ports.get(at)?.find(name),
            Some(Meaning::Cell(row)) => cell_place(self.cells.rows.get(row)?, name),
            None => None,
        }
    }

    /// The width in bits of a port of a kind: that of its first direction in a module, and 1 of a cell's pin. `None` exactly where the kind is
    /// a module without a direction for the name, or neither a module nor a cell.
    pub fn port_width(&self, kind: KindName<'_>, name: &str) -> Option<u64>
        requires netlist { IsNetlist self.now }
        requires meant { IsMeant (setting_of self.now) kind }
        ensures found { IfSome result (PortWidth (setting_of self.now) kind.entry.name.now name.now) }
        ensures none { IfNone result ((width : ℕ) → ¬ PortWidth (setting_of self.now) kind.entry.name.now name.now width) }
    {
        match kind.meaning {
            Some(Meaning::Module(at)) => name_width(self.scopes.get(at)?, name),
            Some(Meaning::Cell(_)) => Some(1),
            None => None,
        }
    }

    /// The width in bits of the port at a place of a kind, as that of the port of its name. `None` exactly where the kind has no more ports,
    /// is a module without a direction for the port, or neither a module nor a cell.
    pub fn width_at(&self, kind: KindName<'_>, place: usize) -> Option<u64>
        requires netlist { IsNetlist self.now }
        requires meant { IsMeant (setting_of self.now) kind }
        ensures found { IfSome result (HasWidthAt (setting_of self.now) kind.entry.name.now place) }
        ensures none { IfNone result ((width : ℕ) → ¬ HasWidthAt (setting_of self.now) kind.entry.name.now place width) }
    {
        match kind.meaning {
            Some(Meaning::Module(at)) => *self.widths.get(at)?.get(place)?,
            Some(Meaning::Cell(row)) => pin_width(self.cells.rows.get(row)?, place),
            None => None,
        }
    }
}
