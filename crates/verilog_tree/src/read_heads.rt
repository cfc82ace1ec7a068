//! Reading the heads of modules: names alone, or ports with their declarations.

ghost use Rattle.std.specs.Prelude.{◌≡◌, map};
ghost use Rattle.verilog_tree.specs.Reading.{first, with_front};
ghost use Rattle.verilog_tree.specs.Giving.{Gives};
ghost use Rattle.verilog_tree.specs.Trees as tree;
ghost use Rattle.verilog_tree.specs.Views.{view_port, view_head};
ghost use Rattle.verilog_tree.specs.Parsing.{behind_comma, more_commas, full, port, ports, inside, head, wire_word, modules};

use crate::lexeme::Keyword;
use crate::phrase::Phrase;
use crate::reader::Reader;
use crate::stop::Stop;
use crate::tree::{Head, HeadPort};
use rsfq_ids::list::List;
use std::alloc::Global;

impl<'a> Reader<'a> {
    /// The word `wire`, where it stands.
    #[tactic(auto, unfolding(crate::specs::Parsing::wire_word))]
    pub(crate) fn wire_word(&mut self) -> Result<bool, Stop>
        ensures { Gives self.new (λ x. x) result (wire_word self.old) }
    {
        if !self.is_key(Keyword::Wire) {
            return Ok(false);
        }
        self.key(Keyword::Wire)?;
        Ok(true)
    }

    /// A port with its declaration.
    #[tactic(auto, unfolding(crate::specs::Parsing::full))]
    fn full(&mut self, alloc: Global) -> Result<HeadPort, Stop>
        ensures { Gives self.new view_port result (full self.old) }
    {
        let dir = self.dir()?;
        let wire = self.wire_word()?;
        let range = self.range()?;
        let name = self.name(alloc)?;
        Ok(HeadPort::Full {
            dir,
            wire,
            range,
            name,
        })
    }

    /// A further port: with its declaration, or a name alone.
    #[tactic(auto, unfolding(crate::specs::Parsing::port))]
    fn port(&mut self, alloc: Global) -> Result<HeadPort, Stop>
        ensures { Gives self.new view_port result (port self.old) }
    {
        if !self.is_name() {
            return self.full(alloc);
        }
        let name = self.name(alloc)?;
        Ok(HeadPort::Bare(name))
    }

    /// Ports of which the first has its declaration.
    #[tactic(auto, unfolding(crate::specs::Parsing::ports))]
    fn ports(&mut self, alloc: Global) -> Result<Head, Stop>
        ensures { Gives self.new view_head result (ports self.old) }
    {
        let first = self.full(alloc)?;
        let mut all = List::new(alloc);
        all.push(first)?;
        let ports = self.more_phrases(alloc, all)?;
        Ok(Head::Full(ports))
    }

    /// What stands in the parentheses of a head.
    #[tactic(auto, unfolding(crate::specs::Parsing::inside))]
    fn inside(&mut self, alloc: Global) -> Result<Head, Stop>
        ensures { Gives self.new view_head result (inside self.old) }
    {
        if self.is_mark(b')') {
            return Ok(Head::Plain(List::new(alloc)));
        }
        if self.is_name() {
            let names = self.names(alloc)?;
            return Ok(Head::Plain(names));
        }
        self.ports(alloc)
    }

    /// What stands behind a module's name.
    #[tactic(auto, unfolding(crate::specs::Parsing::head))]
    pub(crate) fn head(&mut self, alloc: Global) -> Result<Head, Stop>
        ensures { Gives self.new view_head result (head self.old) }
    {
        if !self.is_mark(b'(') {
            return Ok(Head::Plain(List::new(alloc)));
        }
        self.mark(b'(')?;
        let head = self.inside(alloc)?;
        self.mark(b')')?;
        Ok(head)
    }
}

impl Phrase for HeadPort {
    ghost Seen = { tree.HeadPort };

    ghost view = { view_port };

    ghost reading = { port };

    fn read(reader: &mut Reader<'_>, alloc: Global) -> Result<HeadPort, Stop> {
        reader.port(alloc)
    }
}
