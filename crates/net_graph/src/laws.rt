//! What every well-formed circuit gives, and that what is named of one is fixed. Each function is empty, and its clause is the law.

ghost use Rattle.net_graph.specs.Graph.{CircuitsAreWired, FanoutsAreOne, GraphOffencesExist, OrdersAreOne};

/// In a well-formed circuit each driver drives one net, each reader reads one net at one pin, each pin and output that a cell has
/// is there, as are the nets of input bits and the pins of output bits, and nothing else; and the pins stand in the order of
/// cells, behind them the output bits in port order.
pub fn circuits_are_wired()
    ensures { CircuitsAreWired }
{}

/// A circuit has only one order in which each next cell is the least that can come next.
pub fn orders_are_one()
    ensures { OrdersAreOne }
{}

/// A circuit has only one first net with two readers, with one pair of first readers.
pub fn fanouts_are_one()
    ensures { FanoutsAreOne }
{}

/// An offence that is answered in the place of a graph meets the negation of its rule, so a check of offences says that it holds.
pub fn graph_offences_exist()
    ensures { GraphOffencesExist }
{}
