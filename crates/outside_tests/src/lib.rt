//! Tests of the outside: of what no clause says, and of the real folder and standard output.
#![tactic(auto)]

#[cfg(test)]
mod memory;
#[cfg(test)]
mod output;
#[cfg(test)]
mod real;
