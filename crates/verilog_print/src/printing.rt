//! The printed form of a tree.

ghost use Rattle.std.specs.Prelude.{◌≡◌, ◌++◌, OnOk, OnErr};
ghost use Rattle.verilog_tree.specs.Text.{IsSpelledTree};
ghost use Rattle.verilog_print.specs.Text.{printed_text, IsReadBack};
ghost use Rattle.verilog_tree.specs.Views.{view_source};

use crate::printer::Printer;
use rsfq_ids::list::NoMemory;
use std::alloc::Global;
use verilog_lex::written_words_are_read;
use verilog_tree::Source;

/// Appends the printed form of a tree: its tokens, each followed by one blank, which is a newline
/// behind `;` and `endmodule` and a space elsewhere. For a tree that some tokens spell, lexing and
/// parsing it gives the tree again, where it is within the file limit.
///
/// `NoMemory` comes for want of memory alone, and then `out` is as it was.
pub fn print(alloc: Global, source: &Source, out: &mut Vec<u8>) -> Result<(), NoMemory>
    ensures ok { OnOk result (out.new.items ≡ out.old.items ++ printed_text (view_source source.now)) }
    ensures err { OnErr result (out.new.items ≡ out.old.items) }
    // A tree that some tokens spell is read back: the text has one reading, whose tokens spell it.
    ensures again { IsSpelledTree (view_source source.now) → IsReadBack (printed_text (view_source source.now)) (view_source source.now) }
{
    written_words_are_read();
    let mut printer = Printer::new(alloc);
    printer.modules(source.modules.as_slice())?;
    match out.extend_from_slice(printer.text()) {
        Ok(()) => Ok(()),
        Err(_) => Err(NoMemory),
    }
}
