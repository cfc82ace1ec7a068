//! Trees of texts.

ghost use Rattle.std.specs.Prelude.{IfOk};
ghost use Rattle.verilog_tree.specs.Text.{IsSpelledTree};
ghost use Rattle.verilog_tree.specs.Views.{view_source};

use std::alloc::Global;
use verilog_lex::lex;
use verilog_tree::{Source, parse};

/// The tree of a text of at most 16 MiB.
///
/// # Errors
///
/// Where the text is longer, has no tokens or no tree, or memory is wanting: what is wrong.
pub(crate) fn tree_of(alloc: Global, text: &[u8]) -> Result<Source, &'static str>
    ensures { IfOk result (λ source. IsSpelledTree (view_source source)) }
{
    if text.len() > 16_777_216 {
        return Err("too long");
    }
    let Ok(tokens) = lex(alloc, text) else {
        return Err("no tokens");
    };
    match parse(alloc, text, &tokens) {
        Ok(source) => Ok(source),
        Err(_) => Err("no tree"),
    }
}
