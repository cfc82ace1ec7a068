//! Tokens, and why a text is no list of them.

use thiserror::Error;

/// What a token is.
#[derive(Clone, Copy, Debug, PartialEq, Eq)]
pub enum TokenKind {
    /// A plain name that is not reserved: `[A-Za-z_][A-Za-z0-9_$]*` (IEEE Std 1364-2005, 3.7).
    Name,
    /// A name behind a backslash, of bytes 33 to 126 (3.7.1). It is never reserved.
    Escaped,
    /// One of the fifteen reserved words (3.7.2).
    Reserved,
    /// Digits whose value is at most 999,999,999.
    Number,
    /// One of the bytes `( ) [ ] { } , ; : . =`.
    Mark,
}

/// A token: its kind, and where its bytes begin and end in the text.
///
/// Places count bytes from 0, and `end` is the place behind the last byte. Neither the backslash of an escaped name nor the blank behind it
/// is part of the token.
#[derive(Clone, Copy, Debug, PartialEq, Eq, Drop)]
pub struct Token {
    pub kind: TokenKind,
    pub start: u32,
    pub end: u32,
}

/// Why a text is no list of tokens.
#[derive(Clone, Copy, Debug, PartialEq, Eq, Drop, Error)]
pub enum LexWhy {
    /// A byte that no lexeme begins with, or one in an escaped name that is neither a blank nor 33 to 126.
    #[error("bad byte")]
    BadByte,
    /// `/*` with no `*/` behind it.
    #[error("unended comment")]
    UnendedComment,
    /// `(*` with no `*)` outside strings behind it.
    #[error("unended attribute")]
    UnendedAttribute,
    /// A backslash with no byte of a name behind it.
    #[error("empty escape")]
    EmptyEscape,
    /// A backtick and a name that is no skipped directive's.
    #[error("directive")]
    Directive,
    /// A number above 999,999,999.
    #[error("big number")]
    BigNumber,
    /// There was no memory for the tokens. It says nothing of the text.
    #[error("out of memory")]
    Memory,
}

/// The first fault of a text: its cause and the place that counts for it, in bytes from 0.
///
/// The place is the first byte of the broken lexeme, but for a bad byte in an escaped name that byte itself. At `Memory` it has no meaning.
#[derive(Clone, Copy, Debug, PartialEq, Eq, Drop, Error)]
#[error("{why} at byte {offset}")]
pub struct LexFault {
    pub offset: u32,
    pub why: LexWhy,
}
