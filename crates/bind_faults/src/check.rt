//! What is looked for at the sites of a module, site by site.

ghost use Rattle.std.specs.Prelude.{◌<◌, List, length};
ghost use Rattle.bind_sites.specs.Sites.{Site};
ghost use Rattle.bind_names.specs.Scoped.{IsScope, HasNoDouble, sites_of};
ghost use Rattle.bind_forms.specs.Modules.{Setting, IsReached};
ghost use Rattle.bind_forms.specs.Faults.{HasSites, HasReachedSites};
ghost use Rattle.bind_kinds.specs.Netlist.{setting_of};
ghost use Rattle.bind_faults.specs.declared.check.SiteCheck.TheVariants.{UnknownPorts, TooManyLinks, UnknownNames, Ranges, Widths, WidthLimits};
ghost use Rattle.bind_faults.specs.Order.{rank, IsClear};
ghost use Rattle.bind_faults.specs.Checks.{site_line, AnswersAt};
ghost use Rattle.bind_faults.specs.Told.{IsTold};

use crate::kinds::unknown_kind;
use crate::ports::{too_many, unknown_port};
use crate::widths::{fits, width};
use bind_forms::BindFault;
use bind_kinds::Netlist;
use bind_names::Scope;
use rsfq_ids::name::Name;
use std::alloc::Global;

/// A cause that stands at sites of the reached modules.
#[derive(Clone, Copy, Debug, PartialEq, Eq)]
pub(crate) enum Check {
    PortsTwice,
    EachSite(SiteCheck),
}

/// A cause that is seen at one site.
#[derive(Clone, Copy, Debug, PartialEq, Eq)]
pub(crate) enum SiteCheck {
    Kinds,
    UnknownPorts,
    TooManyLinks,
    UnknownNames,
    Ranges,
    Widths,
    WidthLimits,
}

impl SiteCheck {
    /// Looks for the cause at a site of a reached module.
    pub(crate) fn look_at<'a>(
        self,
        alloc: Global,
        netlist: &Netlist<'_, 'a>,
        scope: &Scope<'_, 'a>,
        at: usize,
        site: usize,
    ) -> Result<(), BindFault>
        requires told { IsTold netlist.now }
        requires scope { IsScope scope.now }
        requires sites { HasReachedSites (setting_of netlist.now) at (sites_of scope.now) }
        requires there { site < length (sites_of scope.now) }
        requires before { IsClear (setting_of netlist.now) (rank (site_line self)) }
        ensures { AnswersAt self (setting_of netlist.now) (sites_of scope.now) site result }
    {
        match self {
            SiteCheck::Kinds => unknown_kind(alloc, netlist, scope, at, site),
            SiteCheck::UnknownPorts => refuse_port(alloc, netlist, at, site),
            SiteCheck::TooManyLinks => refuse_links(netlist, at, site),
            SiteCheck::UnknownNames => refuse_name(alloc, scope, site),
            SiteCheck::Ranges => refuse_range(alloc, scope, site),
            SiteCheck::Widths => refuse_width(netlist, at, site),
            SiteCheck::WidthLimits => refuse_port_width(scope, site),
        }
    }
}

/// A port without a direction, a direction without a port, or a link by name without such a port.
fn refuse_port(
    alloc: Global,
    netlist: &Netlist<'_, '_>,
    at: usize,
    site: usize,
) -> Result<(), BindFault>
    requires { IsTold netlist.now }
    ensures { (all : List Site) → HasSites (setting_of netlist.now) at all → AnswersAt UnknownPorts (setting_of netlist.now) all site result }
{
    match unknown_port(netlist, at, site) {
        Some(name) => Err(BindFault::UnknownPort(Name::of(alloc, name)?)),
        None => Ok(()),
    }
}

/// More links by order than ports.
fn refuse_links(netlist: &Netlist<'_, '_>, at: usize, site: usize) -> Result<(), BindFault>
    requires { IsTold netlist.now }
    ensures { (all : List Site) → HasSites (setting_of netlist.now) at all → AnswersAt TooManyLinks (setting_of netlist.now) all site result }
{
    match too_many(netlist, at, site) {
        Some((have, want)) => Err(BindFault::TooMany(have, want)),
        None => Ok(()),
    }
}

/// A link or an assign whose sides differ in width.
fn refuse_width(netlist: &Netlist<'_, '_>, at: usize, site: usize) -> Result<(), BindFault>
    requires told { IsTold netlist.now }
    requires reached { IsReached (setting_of netlist.now) at }
    requires before { IsClear (setting_of netlist.now) (rank (site_line Widths)) }
    ensures { (all : List Site) → HasSites (setting_of netlist.now) at all → AnswersAt Widths (setting_of netlist.now) all site result }
{
    if !fits(netlist, at) {
        return Err(BindFault::Memory);
    }
    match width(netlist, at, site) {
        Some((have, want)) => Err(BindFault::Width(have, want)),
        None => Ok(()),
    }
}

/// A name that is used and that nothing declares or makes.
fn refuse_name(alloc: Global, scope: &Scope<'_, '_>, site: usize) -> Result<(), BindFault>
    requires scope { IsScope scope.now }
    requires there { site < length (sites_of scope.now) }
    ensures { (setting : Setting) → AnswersAt UnknownNames setting (sites_of scope.now) site result }
{
    match scope.unknown_name(site) {
        Some(name) => Err(BindFault::NoSuchName(Name::of(alloc, name)?)),
        None => Ok(()),
    }
}

/// A select or a declaration that does not fit the range of a name.
fn refuse_range(alloc: Global, scope: &Scope<'_, '_>, site: usize) -> Result<(), BindFault>
    requires scope { IsScope scope.now }
    requires single { HasNoDouble (sites_of scope.now) (length (sites_of scope.now)) }
    requires there { site < length (sites_of scope.now) }
    ensures { (setting : Setting) → AnswersAt Ranges setting (sites_of scope.now) site result }
{
    match scope.out_of_range(site) {
        Some(name) => Err(BindFault::Range(Name::of(alloc, name)?)),
        None => Ok(()),
    }
}

/// A port that is too wide.
fn refuse_port_width(scope: &Scope<'_, '_>, site: usize) -> Result<(), BindFault>
    requires scope { IsScope scope.now }
    requires single { HasNoDouble (sites_of scope.now) (length (sites_of scope.now)) }
    requires there { site < length (sites_of scope.now) }
    ensures { (setting : Setting) → AnswersAt WidthLimits setting (sites_of scope.now) site result }
{
    match scope.too_wide(site) {
        Some(width) => Err(BindFault::WidthLimit(width)),
        None => Ok(()),
    }
}
