//! A law on lines: a function that does nothing, whose clause serves the proofs of its callers.
ghost use Rattle.lrat_lines.specs.Spelled.{LinesAreSpelled};

/// The bytes of a line say exactly what they spell, as a writer of the format does: an addition, a deletion, nothing, or no line of the
/// format.
pub fn lines_are_spelled()
    ensures { LinesAreSpelled }
{}
