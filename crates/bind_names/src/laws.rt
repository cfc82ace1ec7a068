//! A name has one range. A law: a function that does nothing, whose clause serves the proofs of its callers.

ghost use Rattle.bind_names.specs.Scoped.{RangesAreOne};

/// Where no thing is given a name that an earlier one of its sort has, a name has one range.
pub fn ranges_are_one()
    ensures { RangesAreOne }
{}
