//! Tests of the golden circuit: its graphs beside a circuit, and the AIGER files that spell them.
#![tactic(auto)]

#[cfg(test)]
mod files;
#[cfg(test)]
mod graphs;
#[cfg(test)]
mod listings;
#[cfg(test)]
mod parts;
