//! Tests of the sign-off beside the rows of its top call.
#![tactic(auto)]

#[cfg(test)]
mod steady;
