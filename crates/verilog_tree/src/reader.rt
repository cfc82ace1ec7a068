//! A reader of tokens, which contracts see as the words that are left. Its methods test the next
//! word, and take one word each: the phrases are built of these alone.

ghost use Rattle.std.specs.Prelude.{◌≡◌, ◌<◌, List, length, drop, IfSome};
ghost use Rattle.std.specs.List.{AllByRecursion};
ghost use Rattle.std.specs.Option.{option_map};
ghost use Rattle.verilog_tree.specs.Reading.{one, first};
ghost use Rattle.verilog_tree.specs.Words.{Word, words, lexeme_word, HasText, IsToken, mark_of, key_of, name_of, number_of, dir_of, is_mark, next_is, begins_expr, begins_item};
ghost use Rattle.verilog_tree.specs.Giving.{Gives};

use crate::lexeme::{Keyword, Lexeme};
use crate::stop::Stop;
use crate::tree::Dir;
use rsfq_ids::name::Name;
use std::alloc::Global;
use std::marker::Model;
use verilog_lex::Token;

/// The tokens of a text that are left.
#[derive(Drop)]
pub(crate) struct Reader<'a> {
    bytes: &'a [u8],
    rest: &'a [Token],
}

impl<'a> Model for Reader<'a> {
    ghost use Rattle.std.specs.Prelude.{List};
    ghost use Rattle.std.specs.List.{AllByRecursion};
    ghost use Rattle.verilog_tree.specs.Words.{Word, words, IsToken};

    ghost Value = { List Word };

    ghost view = { λ r. words r.bytes.now r.rest.now };

    ghost invariant = { λ r. AllByRecursion (IsToken r.bytes.now) r.rest.now };
}

impl<'a> Reader<'a> {
    /// A reader of these tokens of the text.
    pub(crate) fn new(bytes: &'a [u8], tokens: &'a [Token]) -> Reader<'a>
        requires { AllByRecursion (IsToken bytes.now) tokens.now }
        ensures { result ≡ words bytes.now tokens.now }
    {
        Reader {
            bytes,
            rest: tokens,
        }
    }

    /// How many tokens are left.
    pub(crate) fn left(&self) -> usize
        ensures { result ≡ length self.now }
    {
        self.rest.len()
    }

    /// The next token, where there is one.
    fn peek(&self) -> Option<Lexeme<'a>>
        ensures word { option_map lexeme_word result ≡ first self.now }
        ensures text { IfSome result HasText }
    {
        match self.rest {
            [token, ..] => Some(Lexeme::of(self.bytes, *token)),
            [] => None,
        }
    }

    /// Goes past the next token.
    fn advance(&mut self)
        requires { 0 < length self.old }
        ensures { self.new ≡ drop 1 self.old }
    {
        match self.rest {
            [_, rest @ ..] => self.rest = rest,
            [] => {}
        }
    }

    /// Whether the next token is this mark.
    pub(crate) fn is_mark(&self, wanted: u8) -> bool
        ensures { result ≡ is_mark wanted (first self.now) }
    {
        match self.peek() {
            Some(Lexeme::Mark(mark)) => mark == wanted,
            _ => false,
        }
    }

    /// Whether the next token is a name.
    pub(crate) fn is_name(&self) -> bool
        ensures { result ≡ next_is name_of (first self.now) }
    {
        match self.peek() {
            Some(Lexeme::Name(_)) => true,
            _ => false,
        }
    }

    /// Whether the next token is this reserved word.
    pub(crate) fn is_key(&self, wanted: Keyword) -> bool
        ensures { result ≡ next_is (key_of wanted) (first self.now) }
    {
        match self.peek() {
            Some(Lexeme::Keyword(key)) => key.rank() == wanted.rank(),
            _ => false,
        }
    }

    /// Whether the next token is a direction.
    pub(crate) fn is_dir(&self) -> bool
        ensures { result ≡ next_is dir_of (first self.now) }
    {
        match self.peek() {
            Some(Lexeme::Keyword(Keyword::Input | Keyword::Output)) => true,
            _ => false,
        }
    }

    /// Whether an expression begins here.
    pub(crate) fn begins_expr(&self) -> bool
        ensures { result ≡ begins_expr (first self.now) }
    {
        self.is_name() || self.is_mark(b'{')
    }

    /// Whether an item begins here.
    pub(crate) fn begins_item(&self) -> bool
        ensures { result ≡ begins_item (first self.now) }
    {
        self.is_dir()
            || self.is_key(Keyword::Wire)
            || self.is_key(Keyword::Assign)
            || self.is_name()
    }

    /// Takes this mark.
    pub(crate) fn mark(&mut self, wanted: u8) -> Result<(), Stop>
        ensures { Gives self.new (λ x. tt) result (one (mark_of wanted) self.old) }
    {
        match self.peek() {
            Some(Lexeme::Mark(mark)) if mark == wanted => {
                self.advance();
                Ok(())
            }
            _ => Err(Stop::Left(self.left())),
        }
    }

    /// Takes a name.
    pub(crate) fn name(&mut self, alloc: Global) -> Result<Name, Stop>
        ensures { Gives self.new (λ x. x) result (one name_of self.old) }
    {
        match self.peek() {
            Some(Lexeme::Name(bytes)) => {
                self.advance();
                let text = std::str::from_utf8(bytes).unwrap();
                Ok(Name::of(alloc, text)?)
            }
            _ => Err(Stop::Left(self.left())),
        }
    }

    /// Takes a number.
    pub(crate) fn number(&mut self) -> Result<u32, Stop>
        ensures { Gives self.new (λ x. x) result (one number_of self.old) }
    {
        match self.peek() {
            Some(Lexeme::Number(number)) => {
                self.advance();
                Ok(number)
            }
            _ => Err(Stop::Left(self.left())),
        }
    }

    /// Takes this reserved word.
    pub(crate) fn key(&mut self, wanted: Keyword) -> Result<(), Stop>
        ensures { Gives self.new (λ x. tt) result (one (key_of wanted) self.old) }
    {
        match self.peek() {
            Some(Lexeme::Keyword(key)) if key.rank() == wanted.rank() => {
                self.advance();
                Ok(())
            }
            _ => Err(Stop::Left(self.left())),
        }
    }

    /// Takes a direction.
    pub(crate) fn dir(&mut self) -> Result<Dir, Stop>
        ensures { Gives self.new (λ x. x) result (one dir_of self.old) }
    {
        match self.peek() {
            Some(Lexeme::Keyword(Keyword::Input)) => {
                self.advance();
                Ok(Dir::Input)
            }
            Some(Lexeme::Keyword(Keyword::Output)) => {
                self.advance();
                Ok(Dir::Output)
            }
            _ => Err(Stop::Left(self.left())),
        }
    }
}
