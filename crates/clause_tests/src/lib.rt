//! Tests of formulas and their proofs: DIMACS and LRAT texts, clauses by their ids, logs of steps, and the check of a proof.
#![tactic(auto)]

#[cfg(test)]
mod clause_ids;
#[cfg(test)]
mod formulas;
#[cfg(test)]
mod logs;
#[cfg(test)]
mod proof_lines;
#[cfg(test)]
mod proofs;
