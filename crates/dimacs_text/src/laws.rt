//! Laws on texts: functions that do nothing, whose clauses serve the proofs of their callers.
ghost use Rattle.dimacs_text.specs.Laws.{TextsSayFormulas};
ghost use Rattle.dimacs_text.specs.Spelled.{ReadingsAreSpelled, SpellOne};

/// Reading what `write_dimacs` writes of a well-formed formula gives the formula.
pub fn texts_say_formulas()
    ensures { TextsSayFormulas }
{}

/// A text says a formula exactly where it spells it, as a writer of the format does.
pub fn readings_are_spelled()
    ensures { ReadingsAreSpelled }
{}

/// A text spells one formula at most.
pub fn one_formula_is_spelled()
    ensures { SpellOne }
{}
