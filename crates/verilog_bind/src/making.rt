//! What the sites of a module make.

ghost use Rattle.std.specs.Prelude.{◌≡◌, ◌<◌, length, IfSome, IfNone};
ghost use Rattle.bind_forms.specs.declared.bound.BoundWire.{BoundWire};
ghost use Rattle.bind_forms.specs.Binds.{MakesWire};
ghost use Rattle.bind_sites.specs.Refused.{IsOperandAt};
ghost use Rattle.bind_sites.specs.View.{view_operand};
ghost use Rattle.bind_names.specs.Scoped.{IsScope, sites_of};
ghost use Rattle.verilog_bind.specs.Numbered.{AreMadeNames};

use bind_names::Scope;
use bind_sites::{Operand, Site};
use name_table::FirstNames;

/// The wire that the site at a place makes, where it makes one that is no port, by the names of the ports and of the wires that are made before.
pub(crate) fn made_at<'a>(
    scope: &Scope<'_, 'a>,
    at: usize,
    made: &FirstNames<'a>,
) -> Option<(&'a str, Option<(u32, u32)>)>
    requires scope { IsScope scope.now }
    requires there { at < length (sites_of scope.now) }
    requires before { AreMadeNames (sites_of scope.now) at made.now }
    ensures made { IfSome result (λ (name, range). MakesWire (sites_of scope.now) at (record { name = name.now; range = range })) }
    ensures none { IfNone result ((wire : BoundWire) → ¬ MakesWire (sites_of scope.now) at wire) }
{
    match scope.sites[at] {
        Site::Wire { name, range } => match scope.direction(name) {
            Some(_) => None,
            None => Some((name, range)),
        },
        Site::Assigned(operand) => made_by_use(scope, at, operand, made),
        Site::Linked(operand) => made_by_use(scope, at, operand, made),
        _ => None,
    }
}

/// The wire that an operand at a place makes, where it is the first use of a name that some link makes.
fn made_by_use<'a>(
    scope: &Scope<'_, 'a>,
    at: usize,
    operand: Operand<'a>,
    made: &FirstNames<'a>,
) -> Option<(&'a str, Option<(u32, u32)>)>
    requires scope { IsScope scope.now }
    requires there { IsOperandAt (sites_of scope.now) at (view_operand operand) }
    requires before { AreMadeNames (sites_of scope.now) at made.now }
    ensures made { IfSome result (λ (name, range). MakesWire (sites_of scope.now) at (record { name = name.now; range = range })) }
    ensures none { IfNone result ((wire : BoundWire) → ¬ MakesWire (sites_of scope.now) at wire) }
{
    let name = operand.whole()?;
    if scope.is_made_by_links(name) {
        match made.find(name) {
            Some(_) => None,
            None => Some((name, None)),
        }
    } else {
        None
    }
}
