//! Phrases that stand in lists, with commas between. A loop for a list begins with the phrases that were read before.

ghost use Rattle.std.specs.Prelude.{◌≡◌, ◌<◌, ◌≤◌, map, length, OnOk};
ghost use Rattle.verilog_tree.specs.Reading.{with_front};
ghost use Rattle.verilog_tree.specs.Giving.{Gives};
ghost use Rattle.verilog_tree.specs.Parsing.{Read, behind_comma, more_commas, commas};

use crate::reader::Reader;
use crate::stop::Stop;
use rsfq_ids::list::List;
use std::alloc::Global;

/// A phrase that stands in lists, with commas between.
pub(crate) trait Phrase: Drop {
    /// What the phrase is in a tree of the grammar.
    ghost Seen: { Type 0 };

    /// The phrase as that.
    ghost view: { Self → Seen };

    /// How that is read from the left.
    ghost reading: { Read Seen };

    /// Reads the phrase.
    fn read(reader: &mut Reader<'_>, alloc: Global) -> Result<Self, Stop>
        ensures gives { Gives reader.new view result (reading reader.old) }
        ensures stays { OnOk result (length reader.new ≤ length reader.old) };
}

impl<'a> Reader<'a> {
    /// A comma and a phrase.
    pub(crate) fn next_phrase<P: Phrase>(&mut self, alloc: Global) -> Result<P, Stop>
        ensures gives { Gives self.new P.view result (behind_comma P.reading self.old) }
        ensures less { OnOk result (length self.new < length self.old) }
    {
        self.mark(b',')?;
        P::read(self, alloc)
    }

    /// The further phrases.
    pub(crate) fn more_phrases<P: Phrase>(
        &mut self,
        alloc: Global,
        front: List<P>,
    ) -> Result<List<P>, Stop>
        ensures { Gives self.new (λ x. map P.view x) result (with_front (map P.view front) (more_commas P.reading self.old)) }
    {
        let mut all = front;
        'more: while self.is_mark(b',') {
            let next = self.next_phrase(alloc)?;
            all.push(next)?;
        }
        Ok(all)
    }

    /// One or more phrases.
    #[tactic(auto, unfolding(crate::specs::Parsing::commas))]
    pub(crate) fn phrases<P: Phrase>(&mut self, alloc: Global) -> Result<List<P>, Stop>
        ensures { Gives self.new (λ x. map P.view x) result (commas P.reading self.old) }
    {
        let first = P::read(self, alloc)?;
        let mut all = List::new(alloc);
        all.push(first)?;
        self.more_phrases(alloc, all)
    }
}
