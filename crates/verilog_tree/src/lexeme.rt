//! What the grammar sees of a token: a name by its bytes, however it was written, a reserved
//! word, a number by its value, or a mark by its byte.

ghost use Rattle.std.specs.Prelude.{◌≡◌, ◌≤◌};
ghost use Rattle.std.specs.Str.Parse.{AllDigits, digits_value};
ghost use Rattle.verilog_tree.specs.Words.{rank, keyword_of, IsToken, HasText, lexeme_word, word_at};

use verilog_lex::{Token, TokenKind};

/// The reserved words that the grammar has; the other reserved words begin nothing.
#[derive(Clone, Copy, Debug, PartialEq, Eq)]
pub enum Keyword {
    Module,
    Endmodule,
    Input,
    Output,
    Wire,
    Assign,
    Other,
}

/// A token as the grammar sees it.
#[derive(Clone, Copy, Debug)]
pub(crate) enum Lexeme<'a> {
    Name(&'a [u8]),
    Keyword(Keyword),
    Number(u32),
    Mark(u8),
}

impl Keyword {
    /// A number of its own for each word.
    pub(crate) fn rank(self) -> u8
        ensures { result ≡ rank self }
    {
        match self {
            Keyword::Module => 0,
            Keyword::Endmodule => 1,
            Keyword::Input => 2,
            Keyword::Output => 3,
            Keyword::Wire => 4,
            Keyword::Assign => 5,
            Keyword::Other => 6,
        }
    }

    /// The reserved word of these bytes.
    #[tactic(auto, unfolding(crate::specs::Words::keyword_of))]
    fn of(text: &[u8]) -> Keyword
        ensures { result ≡ keyword_of text.now }
    {
        if text == b"module".as_slice() {
            return Keyword::Module;
        }
        if text == b"endmodule".as_slice() {
            return Keyword::Endmodule;
        }
        if text == b"input".as_slice() {
            return Keyword::Input;
        }
        if text == b"output".as_slice() {
            return Keyword::Output;
        }
        if text == b"wire".as_slice() {
            return Keyword::Wire;
        }
        if text == b"assign".as_slice() {
            return Keyword::Assign;
        }
        Keyword::Other
    }
}

/// The value of at most nine significant digits.
fn number(digits: &[u8]) -> u32
    requires digits { AllDigits 10 digits.now }
    requires small { digits_value 10 digits.now ≤ 999999999 }
    ensures { result ≡ digits_value 10 digits.now }
{
    let mut value: u32 = 0;
    for byte in digits {
        value = value * 10 + u32::from(byte.saturating_sub(b'0'));
    }
    value
}

impl<'a> Lexeme<'a> {
    /// What the grammar sees of a token of these bytes.
    pub(crate) fn of(bytes: &'a [u8], token: Token) -> Lexeme<'a>
        requires { IsToken bytes.now token }
        ensures word { lexeme_word result ≡ word_at bytes.now token }
        ensures text { HasText result }
    {
        let text = &bytes[token.start as usize..token.end as usize];
        match token.kind {
            TokenKind::Name => Lexeme::Name(text),
            TokenKind::Escaped => Lexeme::Name(text),
            TokenKind::Reserved => Lexeme::Keyword(Keyword::of(text)),
            TokenKind::Number => Lexeme::Number(number(text)),
            TokenKind::Mark => Lexeme::Mark(text[0]),
        }
    }
}
