//! Tests of the tables: their fields, the cell table, the timing table, and the clauses of truth tables.
#![tactic(auto)]

#[cfg(test)]
mod cell_rows;
#[cfg(test)]
mod env_rows;
#[cfg(test)]
mod fields;
#[cfg(test)]
mod truth_clauses;
