//! Tests of the calls between a circuit and the verdict on its timing: the worked rows, on circuits that are read from text.
#![tactic(auto)]

#[cfg(test)]
mod circuits;
#[cfg(test)]
mod graphs;
#[cfg(test)]
mod lanes;
#[cfg(test)]
mod offences;
