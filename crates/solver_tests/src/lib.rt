//! What the solver and the tabulation answer on small formulas and circuits, and that their proofs are verified.
#![tactic(auto)]

#[cfg(test)]
mod answers;
#[cfg(test)]
mod circuits;
#[cfg(test)]
mod formulas;
#[cfg(test)]
mod miter;
