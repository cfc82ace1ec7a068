//! The parser: the one tree that the tokens of a text spell, or the first place that no tree has.

ghost use Rattle.std.specs.Prelude.{◌≡◌, ◌≤◌, ◌^◌, length, IfOk, IfErr, List};
ghost use Rattle.std.specs.List.{AllByRecursion};
ghost use Rattle.verilog_lex.specs.Reads.{Reads};
ghost use Rattle.verilog_tree.specs.Words.{words, IsToken};
ghost use Rattle.verilog_tree.specs.Trees.{Module};
ghost use Rattle.verilog_tree.specs.Spelling.{SpellsSource};
ghost use Rattle.verilog_tree.specs.Text.{IsSpelledTree};
ghost use Rattle.verilog_tree.specs.Fault.{Explains, IsTreeOrMemory};
ghost use Rattle.verilog_tree.specs.Giving.{GivesAll};
ghost use Rattle.verilog_tree.specs.Views.{view_source};
ghost use Rattle.verilog_tree.specs.Parsing.{source};

use crate::reader::Reader;
use crate::stop::Stop;
use crate::tree::Source;
use rsfq_ids::list::List;
use std::alloc::Global;
use thiserror::Error;
use verilog_lex::{Token, tokens_are_words};

/// Why the tokens of a text spell no tree.
#[derive(Clone, Copy, Debug, PartialEq, Eq, Drop, Error)]
pub enum ParseFault {
    /// `at` is the number of the first token, from 0, with which no tree goes on, or the number of
    /// tokens where they begin a tree and spell none.
    #[error("no tree at token {at}")]
    NoTree { at: u32 },
    /// Memory could not be had.
    #[error("out of memory")]
    Memory,
}

/// Reads the whole of some tokens.
#[tactic(auto, unfolding(crate::specs::Parsing::source))]
fn read_source<'a>(alloc: Global, bytes: &'a [u8], tokens: &'a [Token]) -> Result<Source, Stop>
    requires { AllByRecursion (IsToken bytes.now) tokens.now }
    ensures { GivesAll view_source result (source (words bytes.now tokens.now)) }
{
    let mut reader = Reader::new(bytes, tokens);
    let modules = reader.modules(alloc)?;
    let left = reader.left();
    if left != 0 {
        return Err(Stop::Left(left));
    }
    Ok(Source { modules })
}

/// The tree that the tokens of a text spell: it is answered exactly where they spell one, unless
/// memory runs out; `words_spell_one_tree` says that there is at most one. Else `NoTree` holds the number of the first token
/// that no tree goes on with, or of the tokens where they begin a tree and spell none.
///
/// The tokens are those of the text, which is within the file limit of 16,777,216 bytes.
pub fn parse(alloc: Global, bytes: &[u8], tokens: &List<Token>) -> Result<Source, ParseFault>
    requires reads { Reads bytes.now tokens.now }
    requires limit { length bytes.now ≤ 2 ^ 24 }
    // The tokens spell the tree that is answered.
    ensures found { IfOk result (λ tree. SpellsSource (view_source tree) (words bytes.now tokens.now)) }
    ensures formed { IfOk result (λ tree. IsSpelledTree (view_source tree)) }
    // Where they spell a tree it is answered.
    ensures only { (tree : List Module) → SpellsSource tree (words bytes.now tokens.now) → IsTreeOrMemory tree result }
    // Where they spell none, the first place with which no tree goes on.
    ensures fault { IfErr result (Explains (words bytes.now tokens.now)) }
{
    let tokens = tokens.as_slice();
    tokens_are_words(bytes, tokens);
    match read_source(alloc, bytes, tokens) {
        Ok(tree) => Ok(tree),
        Err(Stop::Memory) => Err(ParseFault::Memory),
        Err(Stop::Left(left)) => {
            let at = tokens.len().saturating_sub(left);
            Err(ParseFault::NoTree { at: at as u32 })
        }
    }
}
