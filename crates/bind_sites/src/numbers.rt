//! The numbers of a source are at most 999,999,999. A law: a function that does nothing, whose clause serves the proofs of its callers.

ghost use Rattle.bind_sites.specs.Small.{NumbersAreSmall};

/// Each range and each select in a tree that some tokens spell is of numbers that are at most 999,999,999.
pub fn numbers_are_small()
    ensures { NumbersAreSmall }
{}
