//! Where a source has no fault, its bound source is well formed. Laws: functions that do nothing, whose clauses serve the proofs of their callers.
#![tactic(auto)]

pub mod laws;
