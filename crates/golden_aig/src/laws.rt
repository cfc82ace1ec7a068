//! What the values of a graph are, as equations.

ghost use Rattle.std.specs.Prelude.{List, Bool};
ghost use Rattle.golden_aig.specs.Aig.{IsAig};
ghost use Rattle.golden_aig.specs.Golden.{AreGoldenValues, DetermineValues};

use crate::graph::Aig;

/// The constant is false, an input is its bit, an AND is both of its operands, and an odd literal is the negation of the
/// even one below it.
pub fn golden_values(aig: &Aig)
    requires { IsAig aig.now }
    ensures { (word : List Bool) → AreGoldenValues aig.now word }
{}

/// These equations determine the value of each literal of the graph.
pub fn values_are_determined(aig: &Aig)
    requires { IsAig aig.now }
    ensures { (word : List Bool) → DetermineValues aig.now word }
{}
