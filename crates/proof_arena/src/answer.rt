//! What a search for a solution answers.
use crate::log::ProofLog;
use rsfq_ids::list::List;

/// What a search for a solution answers.
#[derive(Drop)]
pub enum Answer<'a> {
    /// The value of each variable, which satisfy the formula.
    Assignment(List<bool>),
    /// A log that ends, so that the formula has no solution.
    Refuted(ProofLog<'a>),
    /// The log of a search that has used up its budget.
    Spent(ProofLog<'a>),
}
