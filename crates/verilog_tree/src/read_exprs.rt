//! Reading ranges, names in a list, and expressions.
//!
//! Each method of a reader reads one phrase of the grammar from the left. Its clause equates it
//! with the reading on lists of that name, of which the laws are proved apart from the code.

ghost use Rattle.std.specs.Prelude.{◌≡◌, ◌<◌, ℕ, map, List, Ok};
ghost use Rattle.verilog_tree.specs.Reading.{one, first, with_front};
ghost use Rattle.verilog_tree.specs.Parsing.{part_end, plain, expr, braces, range_in, range, behind_comma, more_commas, names};
ghost use Rattle.verilog_tree.specs.Words.{name_of};
ghost use Rattle.verilog_tree.specs.Giving.{Gives};
ghost use Rattle.verilog_tree.specs.Views.{view_expr};

use crate::phrase::Phrase;
use crate::reader::Reader;
use crate::stop::Stop;
use crate::tree::Expr;
use rsfq_ids::list::List;
use rsfq_ids::name::Name;
use std::alloc::Global;

impl<'a> Reader<'a> {
    /// `[left:right]`
    #[tactic(auto, unfolding(crate::specs::Parsing::range_in))]
    fn bounds(&mut self) -> Result<(u32, u32), Stop>
        ensures { Gives self.new (λ x. x) result (range_in self.old) }
    {
        self.mark(b'[')?;
        let left = self.number()?;
        self.mark(b':')?;
        let right = self.number()?;
        self.mark(b']')?;
        Ok((left, right))
    }

    /// A range or nothing.
    #[tactic(auto, unfolding(crate::specs::Parsing::range))]
    pub(crate) fn range(&mut self) -> Result<Option<(u32, u32)>, Stop>
        ensures { Gives self.new (λ x. x) result (range self.old) }
    {
        if !self.is_mark(b'[') {
            return Ok(None);
        }
        let bounds = self.bounds()?;
        Ok(Some(bounds))
    }

    /// One or more names, parted by commas.
    #[tactic(auto, unfolding(crate::specs::Parsing::names, crate::specs::Parsing::commas))]
    pub(crate) fn names(&mut self, alloc: Global) -> Result<List<Name>, Stop>
        ensures { Gives self.new (λ x. x) result (names self.old) }
    {
        self.phrases(alloc)
    }

    /// What stands behind the first number of a select.
    #[tactic(auto, unfolding(crate::specs::Parsing::part_end))]
    fn part_end(&mut self, name: Name, left: u32) -> Result<Expr, Stop>
        ensures { Gives self.new view_expr result (part_end name left self.old) }
    {
        if self.is_mark(b':') {
            self.mark(b':')?;
            let right = self.number()?;
            self.mark(b']')?;
            return Ok(Expr::Part(name, left, right));
        }
        self.mark(b']')?;
        Ok(Expr::Bit(name, left))
    }

    /// A name, with a select or without.
    #[tactic(auto, unfolding(crate::specs::Parsing::plain, crate::specs::Parsing::select))]
    fn plain(&mut self, alloc: Global) -> Result<Expr, Stop>
        ensures { Gives self.new view_expr result (plain self.old) }
    {
        let name = self.name(alloc)?;
        if !self.is_mark(b'[') {
            return Ok(Expr::Name(name));
        }
        self.mark(b'[')?;
        let left = self.number()?;
        self.part_end(name, left)
    }

    /// An expression whose braces nest at most so deep.
    #[cycle(exprs)]
    pub(crate) fn expr(&mut self, alloc: Global, depth: u32) -> Result<Expr, Stop>
        ensures { Gives self.new view_expr result (expr depth self.old) }
    {
        if depth == 0 || !self.is_mark(b'{') {
            return self.plain(alloc);
        }
        self.braces(alloc, depth - 1)
    }

    /// `{expr, ..}`, whose inner braces nest at most so deep.
    #[cycle(exprs)]
    #[tactic(auto, unfolding(crate::specs::Parsing::braces, crate::specs::Parsing::commas))]
    fn braces(&mut self, alloc: Global, depth: u32) -> Result<Expr, Stop>
        ensures { Gives self.new view_expr result (braces (λ ts. expr depth ts) self.old) }
    {
        self.mark(b'{')?;
        let first = self.expr(alloc, depth)?;
        let mut parts = Vec::new(alloc);
        parts.push(first)?;
        let parts = self.more_exprs(alloc, depth, parts)?;
        self.mark(b'}')?;
        Ok(Expr::Join(parts))
    }

    /// A comma and an expression.
    #[cycle(exprs)]
    fn next_expr(&mut self, alloc: Global, depth: u32) -> Result<Expr, Stop>
        ensures { Gives self.new view_expr result (behind_comma (λ ts. expr depth ts) self.old) }
    {
        self.mark(b',')?;
        self.expr(alloc, depth)
    }

    /// The further expressions in braces.
    #[cycle(exprs)]
    fn more_exprs(&mut self, alloc: Global, depth: u32, front: Vec<Expr>) -> Result<Vec<Expr>, Stop>
        ensures { Gives self.new (λ x. map view_expr x.items) result (with_front (map view_expr front.items) (more_commas (λ ts. expr depth ts) self.old)) }
    {
        let mut parts = front;
        'more: while self.is_mark(b',') {
            let part = self.next_expr(alloc, depth)?;
            parts.push(part)?;
        }
        Ok(parts)
    }
}

impl Phrase for Name {
    ghost Seen = { List ℕ };

    ghost view = { λ name. name };

    ghost reading = { one name_of };

    fn read(reader: &mut Reader<'_>, alloc: Global) -> Result<Name, Stop> {
        reader.name(alloc)
    }
}
