//! Reading items and modules. Items and modules are as many as begin.

ghost use Rattle.std.specs.Prelude.{◌≡◌, map, length};
ghost use Rattle.verilog_tree.specs.Reading.{first, with_front, many};
ghost use Rattle.verilog_tree.specs.Words.{begins_item, next_is, key_of};
ghost use Rattle.verilog_tree.specs.Giving.{Gives};
ghost use Rattle.verilog_tree.specs.Trees as tree;
ghost use Rattle.verilog_tree.specs.Views.{view_pair, view_item, view_module};
ghost use Rattle.verilog_tree.specs.Parsing.{behind_comma, more_commas, commas, head, assign, port_item, wires, assigns, instances, item, module_of, modules};

use crate::lexeme::Keyword;
use crate::phrase::Phrase;
use crate::reader::Reader;
use crate::stop::Stop;
use crate::tree::{Expr, Item, Module};
use rsfq_ids::list::List;
use std::alloc::Global;

impl<'a> Reader<'a> {
    /// `expr = expr`
    #[tactic(auto, unfolding(crate::specs::Parsing::assign))]
    fn assign(&mut self, alloc: Global) -> Result<(Expr, Expr), Stop>
        ensures { Gives self.new view_pair result (assign self.old) }
    {
        let to = self.value(alloc)?;
        self.mark(b'=')?;
        let from = self.value(alloc)?;
        Ok((to, from))
    }

    /// A declaration of ports.
    #[tactic(auto, unfolding(crate::specs::Parsing::port_item))]
    fn port_item(&mut self, alloc: Global) -> Result<Item, Stop>
        ensures { Gives self.new view_item result (port_item self.old) }
    {
        let dir = self.dir()?;
        let wire = self.wire_word()?;
        let range = self.range()?;
        let names = self.names(alloc)?;
        self.mark(b';')?;
        Ok(Item::Ports {
            dir,
            wire,
            range,
            names,
        })
    }

    /// A declaration of wires.
    #[tactic(auto, unfolding(crate::specs::Parsing::wires))]
    fn wires(&mut self, alloc: Global) -> Result<Item, Stop>
        ensures { Gives self.new view_item result (wires self.old) }
    {
        self.key(Keyword::Wire)?;
        let range = self.range()?;
        let names = self.names(alloc)?;
        self.mark(b';')?;
        Ok(Item::Wires { range, names })
    }

    /// `assign` and its pairs.
    #[tactic(auto, unfolding(crate::specs::Parsing::assigns))]
    fn assigns(&mut self, alloc: Global) -> Result<Item, Stop>
        ensures { Gives self.new view_item result (assigns self.old) }
    {
        self.key(Keyword::Assign)?;
        let pairs = self.phrases(alloc)?;
        self.mark(b';')?;
        Ok(Item::Assigns(pairs))
    }

    /// Instances of one kind.
    #[tactic(auto, unfolding(crate::specs::Parsing::instances))]
    fn instance_item(&mut self, alloc: Global) -> Result<Item, Stop>
        ensures { Gives self.new view_item result (instances self.old) }
    {
        let kind = self.name(alloc)?;
        let instances = self.phrases(alloc)?;
        self.mark(b';')?;
        Ok(Item::Instances { kind, instances })
    }

    /// An item, by its first token.
    #[tactic(auto, unfolding(crate::specs::Parsing::item))]
    fn item(&mut self, alloc: Global) -> Result<Item, Stop>
        ensures { Gives self.new view_item result (item self.old) }
    {
        if self.is_dir() {
            return self.port_item(alloc);
        }
        if self.is_key(Keyword::Wire) {
            return self.wires(alloc);
        }
        if self.is_key(Keyword::Assign) {
            return self.assigns(alloc);
        }
        self.instance_item(alloc)
    }

    /// The items of a module.
    fn more_items(&mut self, alloc: Global, front: List<Item>) -> Result<List<Item>, Stop>
        ensures { Gives self.new (λ x. map view_item x) result (with_front (map view_item front) (many (begins_item) item (length self.old) self.old)) }
    {
        let mut all = front;
        'more: while self.begins_item() {
            let next = self.item(alloc)?;
            all.push(next)?;
        }
        Ok(all)
    }

    /// `module name head; items endmodule`
    #[tactic(auto, unfolding(crate::specs::Parsing::module_of))]
    fn module(&mut self, alloc: Global) -> Result<Module, Stop>
        ensures { Gives self.new view_module result (module_of self.old) }
    {
        self.key(Keyword::Module)?;
        let name = self.name(alloc)?;
        let head = self.head(alloc)?;
        self.mark(b';')?;
        let items = self.more_items(alloc, List::new(alloc))?;
        self.key(Keyword::Endmodule)?;
        Ok(Module { name, head, items })
    }

    /// Modules, as long as there are any.
    fn more_modules(&mut self, alloc: Global, front: List<Module>) -> Result<List<Module>, Stop>
        ensures { Gives self.new (λ x. map view_module x) result (with_front (map view_module front) (many (next_is (key_of Keyword.Module)) module_of (length self.old) self.old)) }
    {
        let mut all = front;
        'more: while self.is_key(Keyword::Module) {
            let next = self.module(alloc)?;
            all.push(next)?;
        }
        Ok(all)
    }

    /// The modules of a text.
    #[tactic(auto, unfolding(crate::specs::Parsing::modules))]
    pub(crate) fn modules(&mut self, alloc: Global) -> Result<List<Module>, Stop>
        ensures { Gives self.new (λ x. map view_module x) result (modules self.old) }
    {
        self.more_modules(alloc, List::new(alloc))
    }
}

impl Phrase for (Expr, Expr) {
    ghost Seen = { tree.Expr × tree.Expr };

    ghost view = { view_pair };

    ghost reading = { assign };

    fn read(reader: &mut Reader<'_>, alloc: Global) -> Result<(Expr, Expr), Stop> {
        reader.assign(alloc)
    }
}
