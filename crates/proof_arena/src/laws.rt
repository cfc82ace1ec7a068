//! Laws on readings: functions that do nothing, whose clauses serve the proofs of their callers.
ghost use Rattle.proof_arena.specs.Laws.{ReadingsAreSound, DenialsAreSound};

/// A clause that an assignment satisfies is no conflict where the literals that count as false are false by it, and a literal that is open
/// alone is true.
pub fn readings_are_sound()
    ensures { ReadingsAreSound }
{}

/// The literals of a clause that an assignment does not satisfy are false by it.
pub fn denials_are_sound()
    ensures { DenialsAreSound }
{}
