//! Tests of the crates that read, bind and flatten a netlist: tables of texts with their answers.
#![tactic(auto)]

#[cfg(test)]
mod binding_hierarchy;
#[cfg(test)]
mod binding_ranges;
#[cfg(test)]
mod binding_rings;
#[cfg(test)]
mod binding_rows;
#[cfg(test)]
mod binding_sites;
#[cfg(test)]
mod flattening_aliases;
#[cfg(test)]
mod flattening_circuits;
#[cfg(test)]
mod flattening_sizes;
#[cfg(test)]
mod lexing;
#[cfg(test)]
mod printing;
#[cfg(test)]
mod texts;
#[cfg(test)]
mod trees;
