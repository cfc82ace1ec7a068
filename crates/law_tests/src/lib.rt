//! Tests of the shared words and of the plain programs beside the laws of pulses.
#![tactic(auto)]

#[cfg(test)]
mod lists;
#[cfg(test)]
mod values;
