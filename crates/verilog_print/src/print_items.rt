//! Printing heads, items and modules.

ghost use Rattle.std.specs.Prelude.{◌≡◌, map, OnOk};
ghost use Rattle.verilog_print.specs.Onto.{Onto, onto_each, onto_behind, onto_commas, onto_port, onto_head, onto_assign, onto_item, onto_module, onto_modules};
ghost use Rattle.verilog_tree.specs.Trees.{Plain};
ghost use Rattle.verilog_tree.specs.Trees as tree;
ghost use Rattle.verilog_tree.specs.Views.{view_pair, view_port, view_head, view_item, view_module};

use crate::phrase::Phrase;
use crate::printer::Printer;
use rsfq_ids::list::NoMemory;
use rsfq_ids::name::Name;
use verilog_tree::{Expr, Head, HeadPort, Item, Keyword, Module};

impl Printer {
    /// A head of names alone: nothing where there are none.
    fn plain_head(&mut self, names: &[Name]) -> Result<(), NoMemory>
        ensures { OnOk result (self.new ≡ onto_head (Plain names.now) self.old) }
    {
        if names.is_empty() {
            return Ok(());
        }
        self.mark(b'(')?;
        self.names(names)?;
        self.mark(b')')
    }

    /// What stands behind a module's name.
    fn head(&mut self, head: &Head) -> Result<(), NoMemory>
        ensures { OnOk result (self.new ≡ onto_head (view_head head.now) self.old) }
    {
        match head {
            Head::Plain(names) => self.plain_head(names.as_slice()),
            Head::Full(ports) => {
                self.mark(b'(')?;
                self.commas(ports.as_slice())?;
                self.mark(b')')
            }
        }
    }

    /// An item and its semicolon.
    fn item(&mut self, item: &Item) -> Result<(), NoMemory>
        ensures { OnOk result (self.new ≡ onto_item (view_item item.now) self.old) }
    {
        match item {
            Item::Ports {
                dir,
                wire,
                range,
                names,
            } => {
                self.dir(*dir)?;
                self.wire_word(*wire)?;
                self.range(*range)?;
                self.names(names.as_slice())?;
                self.mark(b';')
            }
            Item::Wires { range, names } => {
                self.key(Keyword::Wire)?;
                self.range(*range)?;
                self.names(names.as_slice())?;
                self.mark(b';')
            }
            Item::Assigns(pairs) => {
                self.key(Keyword::Assign)?;
                self.commas(pairs.as_slice())?;
                self.mark(b';')
            }
            Item::Instances { kind, instances } => {
                self.name(kind)?;
                self.commas(instances.as_slice())?;
                self.mark(b';')
            }
        }
    }

    /// The items of a module.
    fn items(&mut self, items: &[Item]) -> Result<(), NoMemory>
        ensures { OnOk result (self.new ≡ onto_each onto_item (map view_item items.now) self.old) }
    {
        'more: for item in items {
            self.item(item)?;
        }
        Ok(())
    }

    /// A module.
    #[tactic(auto, unfolding(crate::specs::Onto::onto_module))]
    fn module(&mut self, tree: &Module) -> Result<(), NoMemory>
        ensures { OnOk result (self.new ≡ onto_module (view_module tree.now) self.old) }
    {
        self.key(Keyword::Module)?;
        self.name(&tree.name)?;
        self.head(&tree.head)?;
        self.mark(b';')?;
        self.items(tree.items.as_slice())?;
        self.key(Keyword::Endmodule)
    }

    /// The modules of a text.
    pub(crate) fn modules(&mut self, modules: &[Module]) -> Result<(), NoMemory>
        ensures { OnOk result (self.new ≡ onto_modules (map view_module modules.now) self.old) }
    {
        'more: for tree in modules {
            self.module(tree)?;
        }
        Ok(())
    }
}

impl Phrase for HeadPort {
    ghost Seen = { tree.HeadPort };

    ghost view = { view_port };

    ghost onto = { onto_port };

    /// A port of a head.
    fn print(&self, printer: &mut Printer) -> Result<(), NoMemory> {
        match self {
            HeadPort::Full {
                dir,
                wire,
                range,
                name,
            } => {
                printer.dir(*dir)?;
                printer.wire_word(*wire)?;
                printer.range(*range)?;
                printer.name(name)
            }
            HeadPort::Bare(name) => printer.name(name),
        }
    }
}

impl Phrase for (Expr, Expr) {
    ghost Seen = { tree.Expr × tree.Expr };

    ghost view = { view_pair };

    ghost onto = { onto_assign };

    /// `expr = expr`
    #[tactic(auto, unfolding(crate::specs::Onto::onto_assign))]
    fn print(&self, printer: &mut Printer) -> Result<(), NoMemory> {
        printer.expr(&self.0)?;
        printer.mark(b'=')?;
        printer.expr(&self.1)
    }
}
