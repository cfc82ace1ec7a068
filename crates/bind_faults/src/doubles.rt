//! Names that are given twice.

ghost use Rattle.std.specs.Prelude.{◌+◌, ◌≡◌, ◌<◌, ℕ, length, IfOk};
ghost use Rattle.std.specs.Option.{option_map};
ghost use Rattle.bind_names.specs.Scoped.{HasNoDouble, sites_of};
ghost use Rattle.bind_forms.specs.declared.fault.BindFault.TheVariants.{DuplicateName};
ghost use Rattle.bind_forms.specs.Modules.{IsTop};
ghost use Rattle.bind_faults.specs.declared.doubles.Double.{Double};
ghost use Rattle.bind_forms.specs.First.{Duplicates, IsFirstFault};
ghost use Rattle.bind_kinds.specs.Netlist.{setting_of};
ghost use Rattle.bind_faults.specs.Order.{rank, IsClear, Answers};
ghost use Rattle.bind_faults.specs.Checks.{AreReached};
ghost use Rattle.bind_faults.specs.Doubles.{IsFirstOf, IsKindTwice, IsWithin, IsTopBit, TellsDouble, IsDoubleAt, is_before, first_of};
ghost use Rattle.bind_faults.specs.Told.{IsTold};

use bind_forms::BindFault;
use bind_hierarchy::first_duplicate;
use bind_kinds::Netlist;
use bind_names::{Scope, find_bit_again};
use rsfq_ids::list::NoMemory;
use rsfq_ids::name::Name;
use std::alloc::Global;

/// A name that is given twice, by the module and the site at which it stands again.
#[derive(Debug, Drop)]
pub(crate) struct Double {
    pub at: usize,
    pub site: usize,
    pub name: Name,
}

impl Double {
    /// Whether it stands before another.
    fn is_before(&self, other: &Double) -> bool
        ensures { result ≡ is_before self.now other.now }
    {
        self.at < other.at || (self.at == other.at && self.site < other.site)
    }
}

/// The one of two that stands first.
fn first_of(one: Option<Double>, other: Option<Double>) -> Option<Double>
    ensures { result ≡ first_of one other }
{
    match (one, other) {
        (None, other) => other,
        (one, None) => one,
        (Some(one), Some(other)) => Some(if other.is_before(&one) { other } else { one }),
    }
}

/// The first module that has the name of an earlier one, or of a cell.
fn kind_twice(alloc: Global, netlist: &Netlist<'_, '_>) -> Result<Option<Double>, NoMemory>
    requires { IsTold netlist.now }
    ensures { IfOk result (IsFirstOf (IsKindTwice (setting_of netlist.now))) }
{
    let Some(at) = first_duplicate(netlist.source, netlist.kinds) else {
        return Ok(None);
    };
    match netlist.source.modules.get(at) {
        Some(module) => Ok(Some(Double {
            at,
            site: 0,
            name: Name::of(alloc, module.name.as_str())?,
        })),
        None => Ok(None),
    }
}

/// The first name that is given twice within the module at a place, where it is reached.
fn double_at<'a>(netlist: &Netlist<'_, 'a>, reached: &[bool], at: usize) -> Option<(usize, &'a str)>
    requires told { IsTold netlist.now }
    requires reached { AreReached (setting_of netlist.now) reached.now }
    requires there { at < length netlist.now.scopes.now }
    requires flag { at < length reached.now }
    ensures { IsDoubleAt (setting_of netlist.now) at (option_map (λ (site, name). (site, name.now)) result) }
{
    if reached[at] {
        netlist.scopes[at].double
    } else {
        None
    }
}

/// The first name that is given twice within a reached module.
fn name_twice(
    alloc: Global,
    netlist: &Netlist<'_, '_>,
    reached: &[bool],
) -> Result<Option<Double>, NoMemory>
    requires told { IsTold netlist.now }
    requires reached { AreReached (setting_of netlist.now) reached.now }
    ensures { IfOk result (IsFirstOf (IsWithin (setting_of netlist.now))) }
{
    for at in 0..netlist.scopes.len() {
        if let Some((site, name)) = double_at(netlist, reached, at) {
            return Ok(Some(Double {
                at,
                site,
                name: Name::of(alloc, name)?,
            }));
        }
    }
    Ok(None)
}

/// The place up to which no name is given twice.
fn single_until(scope: &Scope<'_, '_>) -> usize
    requires { TellsDouble (sites_of scope.now) scope.now }
    ensures before { HasNoDouble (sites_of scope.now) result }
    ensures last { (site : ℕ) → site < length (sites_of scope.now) → HasNoDouble (sites_of scope.now) (site + 1) → site < result }
{
    match scope.double {
        Some((site, _)) => site,
        None => scope.sites.len(),
    }
}

/// The first name that two bits of a module's ports have, before any name in the module is given twice.
fn bit_twice(
    alloc: Global,
    netlist: &Netlist<'_, '_>,
    top: usize,
) -> Result<Option<Double>, NoMemory>
    requires told { IsTold netlist.now }
    requires there { top < length netlist.now.scopes.now }
    ensures { IfOk result (IsFirstOf (IsTopBit (setting_of netlist.now) top)) }
{
    let scope = &netlist.scopes[top];
    let limit = single_until(scope);
    match find_bit_again(alloc, scope.sites, limit)? {
        Some((site, name)) => Ok(Some(Double {
            at: top,
            site,
            name,
        })),
        None => Ok(None),
    }
}

/// The fault of a name that is given twice.
fn refuse(alloc: Global, double: Option<Double>) -> Result<(), BindFault>
    ensures { Answers result (double ≡ None) (λ why. (found : Double) × (double ≡ Some found) × (why ≡ DuplicateName found.name found.name)) }
{
    match double {
        Some(double) => Err(BindFault::DuplicateName(
            Name::of(alloc, double.name.as_str())?,
            double.name,
        )),
        None => Ok(()),
    }
}

/// Looks for names that are given twice, where there is a top.
pub(crate) fn refuse_doubles(
    alloc: Global,
    netlist: &Netlist<'_, '_>,
    reached: &[bool],
    top: usize,
) -> Result<(), BindFault>
    requires told { IsTold netlist.now }
    requires reached { AreReached (setting_of netlist.now) reached.now }
    requires top { IsTop (setting_of netlist.now) top }
    requires there { top < length netlist.now.scopes.now }
    ensures { Answers result (IsClear (setting_of netlist.now) (rank Duplicates + 1)) (IsFirstFault (setting_of netlist.now)) }
{
    let kind = kind_twice(alloc, netlist)?;
    let name = name_twice(alloc, netlist, reached)?;
    let bit = bit_twice(alloc, netlist, top)?;
    refuse(alloc, first_of(first_of(kind, name), bit))
}

/// Looks for names that are given twice, where there is no top.
pub(crate) fn refuse_kinds(alloc: Global, netlist: &Netlist<'_, '_>) -> Result<(), BindFault>
    requires told { IsTold netlist.now }
    requires none { (top : ℕ) → ¬ IsTop (setting_of netlist.now) top }
    ensures { Answers result (IsClear (setting_of netlist.now) (rank Duplicates + 1)) (IsFirstFault (setting_of netlist.now)) }
{
    refuse(alloc, kind_twice(alloc, netlist)?)
}
