//! A law on printed trees: a function that does nothing, whose clause serves the proofs of its callers.

ghost use Rattle.verilog_print.specs.Text.{PrintedTreesAreReadBack};

use verilog_lex::written_words_are_read;

/// The printed form of a tree that some tokens spell has one reading, whose tokens spell the tree.
pub fn printed_trees_are_read_back()
    ensures { PrintedTreesAreReadBack }
{
    written_words_are_read();
}
