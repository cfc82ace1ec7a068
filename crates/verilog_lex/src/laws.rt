//! Laws on readings: functions that do nothing, whose clauses serve the proofs of their callers.

ghost use Rattle.std.specs.Prelude.{ℕ, ◌≤◌, ◌↔◌, List, length};
ghost use Rattle.verilog_lex.specs.declared.token.LexWhy.{LexWhy};
ghost use Rattle.verilog_lex.specs.declared.token.Token.{Token};
ghost use Rattle.verilog_lex.specs.Reads.{Reads, IsLexFault, IsOnlyReading, IsOnlyFault, HasDivision};
ghost use Rattle.verilog_lex.specs.Words.{words_of, AreSpelled, ArePlaced, HasOnlyBlanksBetween};
ghost use Rattle.verilog_lex.specs.Bare.{IsBare};
ghost use Rattle.verilog_lex.specs.Written.{WrittenWordsAreRead};

use crate::token::Token;

/// The tokens of a reading are spelled as their kinds are, stand in the text one behind the other, and are not more than its bytes.
pub fn tokens_are_words(bytes: &[u8], tokens: &[Token])
    requires { Reads bytes.now tokens.now }
    ensures spelled { AreSpelled (words_of bytes.now tokens.now) }
    ensures placed { ArePlaced (length bytes.now) 0 tokens.now }
    ensures few { length tokens.now ≤ length bytes.now }
{}

/// Blanks alone stand between the tokens exactly where the text is blanks and tokens alone, with no escaped name.
pub fn blanks_between_are_all(bytes: &[u8], tokens: &[Token])
    requires { Reads bytes.now tokens.now }
    ensures { HasOnlyBlanksBetween bytes.now 0 tokens.now ↔ IsBare bytes.now tokens.now }
{}

/// A text of words, each with a blank behind it, has one reading, whose words are these.
pub fn written_words_are_read()
    ensures { WrittenWordsAreRead }
{}

/// Every text has a reading or a fault, and at most one of them, as [`texts_divide_in_one_way`] says.
pub fn every_text_divides()
    ensures { (text : List ℕ) → HasDivision text }
{}

/// A text, however long, has at most one reading or one fault: a reading is the only one, and so is a fault, and no text has both.
pub fn texts_divide_in_one_way()
    ensures reading { (text : List ℕ) (tokens : List Token) → Reads text tokens → IsOnlyReading text tokens }
    ensures fault { (text : List ℕ) (offset : ℕ) (why : LexWhy) → IsLexFault text offset why → IsOnlyFault text offset why }
{}
