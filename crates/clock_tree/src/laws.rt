//! What a graph and its clock give to later crates. Each function is empty but for the laws that it rests on, and its clause is
//! the law.

ghost use Rattle.clock_tree.specs.Clock.{ClockOffencesAreOne, ClockPinsHaveOnePath, ClockRoutesAreOne, GraphsAreReady};

use pulse_laws::laws::circuits_are_ready;

/// A circuit that has a graph, with its clock classified on a bench, is ready for the laws of pulses, by the rank that is the
/// place of each cell in the graph's order.
pub fn graphs_are_ready()
    ensures { GraphsAreReady }
{
    circuits_are_ready();
}

/// No other route leads to a net of the clock than its one clock route.
pub fn clock_routes_are_one()
    ensures { ClockRoutesAreOne }
{}

/// The clock pin of a gate has exactly one timing path, which is the gate's clock path.
pub fn clock_pins_have_one_path()
    ensures { ClockPinsHaveOnePath }
{}

/// A circuit with a graph has only one first offence on clocks, with one path that is printed.
pub fn clock_offences_are_one()
    ensures { ClockOffencesAreOne }
{}
