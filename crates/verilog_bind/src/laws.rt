//! What the sites of a module say of its tree. Laws: functions that do nothing, whose clauses serve the proofs of their callers.

ghost use Rattle.verilog_bind.specs.Listed.{ListedAreSites, AssignsAreSites, InstancesAreSites};

/// The listed ports among the sites of a module are the names of the ports in its head.
pub(crate) fn listed_are_sites()
    ensures { ListedAreSites }
{}

/// The assigns among the sites of a module are those of its items, and their operands stand among the sites.
pub(crate) fn assigns_are_sites()
    ensures { AssignsAreSites }
{}

/// The instances among the sites of a module are those of its items, and the sites of their links stand among the sites.
pub(crate) fn instances_are_sites()
    ensures { InstancesAreSites }
{}
