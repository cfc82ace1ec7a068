//! Selects and declarations that do not fit the range of a name.

ghost use Rattle.std.specs.Prelude.{◌≡◌, ◌≢◌, ◌<◌, ℕ, List, length, IfSome, IfNone, MatchBool};
ghost use Rattle.bind_sites.specs.Refused.{IsOutside, IsOutOfRange};
ghost use Rattle.bind_sites.specs.View.{view_operand};
ghost use Rattle.bind_names.specs.Scoped.{IsScope, HasNoDouble, sites_of};
ghost use Rattle.bind_names.specs.Checked.{IsRefusedSelect, IsOtherAt, IsOtherPort, IsOtherWire};

use crate::ranges::select;
use crate::scope::Scope;
use bind_sites::{Operand, Site};

/// Whether bits are selected that a range lacks, or of a scalar.
fn is_outside(range: Option<(u32, u32)>, wanted: (u32, u32)) -> bool
    ensures { MatchBool result (IsOutside range wanted) (¬ IsOutside range wanted) }
{
    match range {
        None => true,
        Some(range) => select(range, wanted).is_none(),
    }
}

/// Whether two ranges are the same.
fn is_same(one: Option<(u32, u32)>, other: Option<(u32, u32)>) -> bool
    ensures { MatchBool result (one ≡ other) (one ≢ other) }
{
    one == other
}

impl<'a> Scope<'_, 'a> {
    /// The name at a place that is out of range: an operand's, of which bits are selected that it lacks, or one that is declared there, as a
    /// port or a wire, where an earlier declaration as the other has another range.
    pub fn out_of_range(&self, at: usize) -> Option<&'a str>
        requires scope { IsScope self.now }
        requires single { HasNoDouble (sites_of self.now) (length (sites_of self.now)) }
        requires there { at < length (sites_of self.now) }
        ensures found { IfSome result (λ name. IsOutOfRange (sites_of self.now) at name.now) }
        ensures none { IfNone result ((name : List ℕ) → ¬ IsOutOfRange (sites_of self.now) at name) }
    {
        match self.sites[at] {
            Site::Assigned(operand) => self.refused_select(operand),
            Site::Linked(operand) => self.refused_select(operand),
            Site::Wire { name, range } => self.other_port(at, name, range),
            Site::Port { name, range, .. } => self.other_wire(at, name, range),
            _ => None,
        }
    }

    /// The name of an operand of which bits are selected that it lacks.
    fn refused_select(&self, operand: Operand<'a>) -> Option<&'a str>
        requires scope { IsScope self.now }
        requires single { HasNoDouble (sites_of self.now) (length (sites_of self.now)) }
        ensures found { IfSome result (λ name. IsRefusedSelect (sites_of self.now) (view_operand operand.entry) name.now) }
        ensures none { IfNone result ((name : List ℕ) → ¬ IsRefusedSelect (sites_of self.now) (view_operand operand.entry) name) }
    {
        let wanted = operand.select?;
        let range = self.range_of(operand.name)?;
        if is_outside(range, wanted) {
            Some(operand.name)
        } else {
            None
        }
    }

    /// The name of a wire, where an earlier direction gives it another range.
    fn other_port(&self, at: usize, name: &'a str, range: Option<(u32, u32)>) -> Option<&'a str>
        requires scope { IsScope self.now }
        requires single { HasNoDouble (sites_of self.now) (length (sites_of self.now)) }
        ensures found { IfSome result (λ found. (found.now ≡ name.entry.now) × IsOtherPort (sites_of self.now) at name.entry.now range) }
        ensures none { IfNone result (¬ IsOtherPort (sites_of self.now) at name.entry.now range) }
    {
        let earlier = self.directions.find(name)?;
        if self.is_other_at(earlier, at, range) {
            Some(name)
        } else {
            None
        }
    }

    /// The name of a port, where an earlier declaration as a wire gives it another range.
    fn other_wire(&self, at: usize, name: &'a str, range: Option<(u32, u32)>) -> Option<&'a str>
        requires scope { IsScope self.now }
        requires single { HasNoDouble (sites_of self.now) (length (sites_of self.now)) }
        ensures found { IfSome result (λ found. (found.now ≡ name.entry.now) × IsOtherWire (sites_of self.now) at name.entry.now range) }
        ensures none { IfNone result (¬ IsOtherWire (sites_of self.now) at name.entry.now range) }
    {
        let earlier = self.wires.find(name)?;
        if self.is_other_at(earlier, at, range) {
            Some(name)
        } else {
            None
        }
    }

    /// Whether a place stands before another and declares another range.
    fn is_other_at(&self, earlier: usize, at: usize, range: Option<(u32, u32)>) -> bool
        requires there { earlier < length (sites_of self.now) }
        ensures { MatchBool result (IsOtherAt (sites_of self.now) earlier at range) (¬ IsOtherAt (sites_of self.now) earlier at range) }
    {
        earlier < at && !is_same(range, self.range_at(earlier))
    }
}
