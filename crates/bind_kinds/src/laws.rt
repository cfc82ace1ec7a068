//! A kind means one thing, and has one list of ports. Laws: functions that do nothing, whose clauses serve the proofs of their callers.

ghost use Rattle.bind_kinds.specs.Ports.{KindsAreOne, PortsAreOne};

/// A name means one module or one cell at most, and not both.
pub fn kinds_are_one()
    ensures { KindsAreOne }
{}

/// The ports of a kind are one list.
pub fn ports_are_one()
    ensures { PortsAreOne }
{}
