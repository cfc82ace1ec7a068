//! Reading links and instances.

ghost use Rattle.std.specs.Prelude.{◌≡◌, map, Option};
ghost use Rattle.verilog_tree.specs.Reading.{first, with_front};
ghost use Rattle.verilog_tree.specs.Giving.{Gives};
ghost use Rattle.verilog_tree.specs.Trees as tree;
ghost use Rattle.verilog_tree.specs.Views.{view_expr, view_optional, view_named, view_links, view_instance};
ghost use Rattle.verilog_tree.specs.Parsing.{behind_comma, more_commas, commas, value, optional, named, ordered, links, instance, instances};

use crate::phrase::Phrase;
use crate::reader::Reader;
use crate::stop::Stop;
use crate::tree::{Expr, Instance, Links, NamedLink};
use rsfq_ids::list::List;
use std::alloc::Global;

impl<'a> Reader<'a> {
    /// An expression whose braces nest at most 64 deep.
    #[tactic(auto, unfolding(crate::specs::Parsing::value))]
    pub(crate) fn value(&mut self, alloc: Global) -> Result<Expr, Stop>
        ensures { Gives self.new view_expr result (value self.old) }
    {
        self.expr(alloc, 64)
    }

    /// An expression or nothing.
    #[tactic(auto, unfolding(crate::specs::Parsing::optional))]
    fn optional(&mut self, alloc: Global) -> Result<Option<Expr>, Stop>
        ensures { Gives self.new view_optional result (optional self.old) }
    {
        if !self.begins_expr() {
            return Ok(None);
        }
        let value = self.value(alloc)?;
        Ok(Some(value))
    }

    /// `.name(expr)` or `.name()`
    #[tactic(auto, unfolding(crate::specs::Parsing::named))]
    fn named(&mut self, alloc: Global) -> Result<NamedLink, Stop>
        ensures { Gives self.new view_named result (named self.old) }
    {
        self.mark(b'.')?;
        let name = self.name(alloc)?;
        self.mark(b'(')?;
        let expr = self.optional(alloc)?;
        self.mark(b')')?;
        Ok(NamedLink { name, expr })
    }

    /// One or more ordered links, of which one alone is not empty.
    #[tactic(auto, unfolding(crate::specs::Parsing::ordered))]
    fn ordered(&mut self, alloc: Global) -> Result<List<Option<Expr>>, Stop>
        ensures { Gives self.new (λ x. map view_optional x) result (ordered self.old) }
    {
        let mut links = List::new(alloc);
        if self.begins_expr() {
            let value = self.value(alloc)?;
            links.push(Some(value))?;
            return self.more_phrases(alloc, links);
        }
        let second = self.next_phrase(alloc)?;
        links.push(None)?;
        links.push(second)?;
        self.more_phrases(alloc, links)
    }

    /// The links of an instance, up to the closing parenthesis.
    #[tactic(auto, unfolding(crate::specs::Parsing::links))]
    fn links(&mut self, alloc: Global) -> Result<Links, Stop>
        ensures { Gives self.new view_links result (links self.old) }
    {
        if self.is_mark(b'.') {
            let links = self.phrases(alloc)?;
            return Ok(Links::Named(links));
        }
        if self.is_mark(b')') {
            return Ok(Links::Ordered(List::new(alloc)));
        }
        let links = self.ordered(alloc)?;
        Ok(Links::Ordered(links))
    }

    /// `name (links)`
    #[tactic(auto, unfolding(crate::specs::Parsing::instance))]
    fn instance(&mut self, alloc: Global) -> Result<Instance, Stop>
        ensures { Gives self.new view_instance result (instance self.old) }
    {
        let name = self.name(alloc)?;
        self.mark(b'(')?;
        let links = self.links(alloc)?;
        self.mark(b')')?;
        Ok(Instance { name, links })
    }
}

impl Phrase for Option<Expr> {
    ghost Seen = { Option tree.Expr };

    ghost view = { view_optional };

    ghost reading = { optional };

    fn read(reader: &mut Reader<'_>, alloc: Global) -> Result<Option<Expr>, Stop> {
        reader.optional(alloc)
    }
}

impl Phrase for NamedLink {
    ghost Seen = { tree.NamedLink };

    ghost view = { view_named };

    ghost reading = { named };

    fn read(reader: &mut Reader<'_>, alloc: Global) -> Result<NamedLink, Stop> {
        reader.named(alloc)
    }
}

impl Phrase for Instance {
    ghost Seen = { tree.Instance };

    ghost view = { view_instance };

    ghost reading = { instance };

    fn read(reader: &mut Reader<'_>, alloc: Global) -> Result<Instance, Stop> {
        reader.instance(alloc)
    }
}
