//! Phrases that stand in lists, with commas between.

ghost use Rattle.std.specs.Prelude.{◌≡◌, List, map, OnOk};
ghost use Rattle.verilog_print.specs.Onto.{Onto, onto_each, onto_behind, onto_commas};

use crate::printer::Printer;
use rsfq_ids::list::NoMemory;

/// A phrase that stands in lists, with commas between.
pub(crate) trait Phrase {
    /// What the phrase is in a tree of the grammar.
    ghost Seen: { Type 0 };

    /// The phrase as that.
    ghost view: { Self → Seen };

    /// How that is written behind a text.
    ghost onto: { Seen → Onto };

    /// Writes the phrase.
    fn print(&self, printer: &mut Printer) -> Result<(), NoMemory>
        ensures { OnOk result (printer.new ≡ onto (view self.now) printer.old) };
}

impl Printer {
    /// Phrases, parted by commas.
    pub(crate) fn commas<P: Phrase>(&mut self, phrases: &[P]) -> Result<(), NoMemory>
        ensures { OnOk result (self.new ≡ onto_commas P.onto (map P.view phrases.now) self.old) }
    {
        match phrases {
            [] => Ok(()),
            [first, rest @ ..] => {
                first.print(self)?;
                self.more(rest)
            }
        }
    }

    /// The further phrases.
    fn more<P: Phrase>(&mut self, phrases: &[P]) -> Result<(), NoMemory>
        ensures { OnOk result (self.new ≡ onto_each (onto_behind P.onto) (map P.view phrases.now) self.old) }
    {
        'more: for one in phrases {
            self.mark(b',')?;
            one.print(self)?;
        }
        Ok(())
    }
}
