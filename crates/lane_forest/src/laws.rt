//! What the definitions of lanes say together. Each function is empty, and its clause is the law.
ghost use Rattle.lane_forest.specs.Statements.{LaneFaultsAreOne, LanesArePaths, OrderIsStrict, PathsAreOne, RoutesArePaths, RoutesAreShort, SumsAreEnds};

use net_graph::laws::circuits_are_wired;

/// The order of paths is strict: no path comes before itself, and of two paths at most one comes before the other.
pub fn order_is_strict()
    ensures { OrderIsStrict }
{}

/// A net has one list of its timing paths, each once, in order. So what is said of the lanes of a pin, and of their number, fixes them.
pub fn paths_are_one()
    ensures { PathsAreOne }
{}

/// In a ready design each route is a timing path: what comes to a clock pin begins at the clock and passed no gate.
pub fn routes_are_paths()
    ensures { RoutesArePaths }
{}

/// A route passes each cell at most once, so it has at most one arc more than there are cells.
pub fn routes_are_short()
    ensures { RoutesAreShort }
{}

/// The two sums that are stored of a lane are the least and the greatest sum of delays that its arcs may take.
pub fn sums_are_ends()
    ensures { SumsAreEnds }
{}

/// Each lane of a pin is a timing path to it, and each timing path to a pin is one of its lanes.
pub fn lanes_are_paths()
    ensures { LanesArePaths }
{}

/// Of a well-formed circuit at most one fault can be answered but want of memory: its kind, its pin and its count are fixed.
pub fn lane_faults_are_one()
    ensures { LaneFaultsAreOne }
{
    circuits_are_wired();
}
