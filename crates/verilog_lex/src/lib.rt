//! The lexer of the subset of Verilog (IEEE Std 1364-2005) that netlists are written in.
//!
//! [`lex`] answers the tokens that are the one reading of a text, or the first fault of a text that has none.
#![tactic(auto)]

mod byte_classes;
mod closing;
mod laws;
mod lexing;
mod names;
mod runs;
mod steps;
mod token;

pub use byte_classes::is_blank;
pub use laws::{
    blanks_between_are_all, every_text_divides, texts_divide_in_one_way, tokens_are_words,
    written_words_are_read,
};
pub use lexing::lex;
pub use names::is_plain_name;
pub use token::{LexFault, LexWhy, Token, TokenKind};
