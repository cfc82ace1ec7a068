//! Syntax trees of the structural Verilog subset: the one tree that a list of tokens spells.
//!
//! `parse` is exact: it answers the tree that the tokens spell, exactly where there is one, and
//! else the first token with which no tree goes on.
#![tactic(auto)]

mod laws;
mod lexeme;
mod parsing;
mod phrase;
mod read_exprs;
mod read_heads;
mod read_items;
mod read_links;
mod reader;
mod stop;
mod tree;

pub use laws::words_spell_one_tree;
pub use lexeme::Keyword;
pub use parsing::{ParseFault, parse};
pub use tree::{Dir, Expr, Head, HeadPort, Instance, Item, Links, Module, NamedLink, Source};
