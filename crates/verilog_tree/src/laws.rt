//! A law on trees: a function that does nothing, whose clause serves the proofs of its callers.

ghost use Rattle.verilog_tree.specs.Fault.{WordsSpellOneTree};

/// Some tokens spell one tree at most.
pub fn words_spell_one_tree()
    ensures { WordsSpellOneTree }
{}
