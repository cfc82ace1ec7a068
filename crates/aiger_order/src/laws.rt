//! What the order of use determines.

ghost use Rattle.aiger_order.specs.Renaming.{IsOneGraph};

/// At most one graph of a listing stands in the order in which its lines become ready.
pub fn one_graph_is_ordered()
    ensures { IsOneGraph }
{}
