//! What the clause of a hint says where some literals are false already.

use rsfq_ids::id::Lit;

/// What the clause of a hint says where some literals are false already.
#[derive(Clone, Copy, Debug, PartialEq, Eq)]
pub enum HintReading {
    /// All literals are false.
    Conflict,
    /// A literal is true, so the clause changes nothing.
    Passed,
    /// This literal alone is open, and all others are false.
    Unit(Lit),
    /// Two literals or more are open, and none is true.
    NotUnit,
}
