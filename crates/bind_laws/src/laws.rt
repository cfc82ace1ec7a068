//! The law and its parts.

ghost use Rattle.bind_laws.specs.Laws.{PortsAreNarrow, RangesAreSmall, AssignsFit, InstancesFit, OrdersLeaveNoRing, PortBitsAreDistinct, BoundIsWellFormed, BoundIsOne};
ghost use Rattle.bind_laws.specs.Refusals.{FaultIsOne};

use bind_sites::numbers_are_small;

/// No port of a bound module is wider than 4,096 bits.
pub fn ports_are_narrow()
    ensures { PortsAreNarrow }
{}

/// The ranges of a bound module's wires are of numbers that are at most 999,999,999.
pub fn ranges_are_small()
    ensures { RangesAreSmall }
{
    numbers_are_small();
}

/// The parts of assigns lie within their wires, and the two sides of an assign have one width.
pub fn assigns_fit()
    ensures { AssignsFit }
{}

/// The parts of links lie within their wires and have the widths of the ports that they are linked to, and no instance links a
/// port twice.
pub fn instances_fit()
    ensures { InstancesFit }
{}

/// Modules that have an order, each behind all that it instantiates, have no ring.
pub fn orders_leave_no_ring()
    ensures { OrdersLeaveNoRing }
{}

/// No two bits of the top's ports have one printed name.
pub fn port_bits_are_distinct()
    ensures { PortBitsAreDistinct }
{
    numbers_are_small();
}

/// The bound source of a source without faults is well formed.
///
/// The source is a tree that some tokens spell, and an order of the reached modules is at hand.
pub fn bound_is_well_formed()
    ensures { BoundIsWellFormed }
{
    ports_are_narrow();
    ranges_are_small();
    assigns_fit();
    instances_fit();
    orders_leave_no_ring();
    port_bits_are_distinct();
}

/// A source has one bound source, where no name is given twice and the cells are well formed.
pub fn bound_is_one()
    ensures { BoundIsOne }
{}

/// A source is refused with one fault, and with none where no cause of a fault stands. Of several rings with one first module any may be
/// answered.
pub fn fault_is_one()
    ensures { FaultIsOne }
{}
