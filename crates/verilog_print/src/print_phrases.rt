//! Printing names, ranges, expressions, links and instances.
//!
//! Each method writes one phrase of the grammar behind the text. Its clause equates it with the
//! writing on lists of that name, of which the laws are proved apart from the code.

ghost use Rattle.std.specs.Prelude.{◌≡◌, ℕ, List, Option, map, OnOk};
ghost use Rattle.verilog_print.specs.Onto.{Onto, onto, onto_name, onto_each, onto_behind, onto_commas, onto_perhaps, onto_bounds, onto_wire, onto_expr, onto_optional, onto_named, onto_links, onto_instance};
ghost use Rattle.verilog_tree.specs.Spelling.{dir_key};
ghost use Rattle.verilog_tree.specs.Words.{keyword};
ghost use Rattle.verilog_tree.specs.Trees as tree;
ghost use Rattle.verilog_tree.specs.Views.{view_expr, view_optional, view_named, view_links, view_instance};

use crate::phrase::Phrase;
use crate::printer::Printer;
use rsfq_ids::list::NoMemory;
use rsfq_ids::name::Name;
use verilog_tree::{Dir, Expr, Instance, Keyword, Links, NamedLink};

impl Printer {
    /// Names, parted by commas.
    #[tactic(auto, using(crate::proofs::Plain::same_names))]
    pub(crate) fn names(&mut self, names: &[Name]) -> Result<(), NoMemory>
        ensures { OnOk result (self.new ≡ onto_commas onto_name names.now self.old) }
    {
        self.commas(names)
    }

    /// `[left:right]`
    fn bounds(&mut self, range: (u32, u32)) -> Result<(), NoMemory>
        ensures { OnOk result (self.new ≡ onto_bounds range self.old) }
    {
        self.mark(b'[')?;
        self.number(range.0)?;
        self.mark(b':')?;
        self.number(range.1)?;
        self.mark(b']')
    }

    /// A range or nothing.
    pub(crate) fn range(&mut self, range: Option<(u32, u32)>) -> Result<(), NoMemory>
        ensures { OnOk result (self.new ≡ onto_perhaps onto_bounds range self.old) }
    {
        match range {
            None => Ok(()),
            Some(bounds) => self.bounds(bounds),
        }
    }

    /// The word `wire` or nothing.
    pub(crate) fn wire_word(&mut self, wire: bool) -> Result<(), NoMemory>
        ensures { OnOk result (self.new ≡ onto_wire wire self.old) }
    {
        if !wire {
            return Ok(());
        }
        self.key(Keyword::Wire)
    }

    /// A direction.
    pub(crate) fn dir(&mut self, dir: Dir) -> Result<(), NoMemory>
        ensures { OnOk result (self.new ≡ onto (keyword (dir_key dir)) self.old) }
    {
        match dir {
            Dir::Input => self.key(Keyword::Input),
            Dir::Output => self.key(Keyword::Output),
        }
    }

    /// An expression.
    #[cycle(print_exprs)]
    pub(crate) fn expr(&mut self, expr: &Expr) -> Result<(), NoMemory>
        ensures { OnOk result (self.new ≡ onto_expr (view_expr expr.now) self.old) }
    {
        match expr {
            Expr::Name(name) => self.name(name),
            Expr::Bit(name, at) => {
                self.name(name)?;
                self.mark(b'[')?;
                self.number(*at)?;
                self.mark(b']')
            }
            Expr::Part(name, left, right) => {
                self.name(name)?;
                self.bounds((*left, *right))
            }
            Expr::Join(parts) => match parts.as_slice() {
                [] => {
                    self.mark(b'{')?;
                    self.mark(b'}')
                }
                [first, rest @ ..] => {
                    self.mark(b'{')?;
                    self.expr(first)?;
                    self.more_parts(rest)?;
                    self.mark(b'}')
                }
            },
        }
    }

    /// The further expressions in braces.
    #[cycle(print_exprs)]
    fn more_parts(&mut self, parts: &[Expr]) -> Result<(), NoMemory>
        ensures { OnOk result (self.new ≡ onto_each (onto_behind onto_expr) (map view_expr parts.now) self.old) }
    {
        'more: for one in parts {
            self.mark(b',')?;
            self.expr(one)?;
        }
        Ok(())
    }

    /// An expression or nothing.
    fn optional(&mut self, expr: &Option<Expr>) -> Result<(), NoMemory>
        ensures { OnOk result (self.new ≡ onto_optional (view_optional expr.now) self.old) }
    {
        match expr {
            None => Ok(()),
            Some(expr) => self.expr(expr),
        }
    }

    /// The links of an instance.
    fn links(&mut self, links: &Links) -> Result<(), NoMemory>
        ensures { OnOk result (self.new ≡ onto_links (view_links links.now) self.old) }
    {
        match links {
            Links::Named(links) => self.commas(links.as_slice()),
            Links::Ordered(links) => self.commas(links.as_slice()),
        }
    }
}

impl Phrase for Name {
    ghost Seen = { List ℕ };

    ghost view = { λ name. name };

    ghost onto = { onto_name };

    fn print(&self, printer: &mut Printer) -> Result<(), NoMemory> {
        printer.name(self)
    }
}

impl Phrase for Option<Expr> {
    ghost Seen = { Option tree.Expr };

    ghost view = { view_optional };

    ghost onto = { onto_optional };

    fn print(&self, printer: &mut Printer) -> Result<(), NoMemory> {
        printer.optional(self)
    }
}

impl Phrase for NamedLink {
    ghost Seen = { tree.NamedLink };

    ghost view = { view_named };

    ghost onto = { onto_named };

    /// `.name(expr)` or `.name()`
    #[tactic(auto, unfolding(crate::specs::Onto::onto_named))]
    fn print(&self, printer: &mut Printer) -> Result<(), NoMemory> {
        printer.mark(b'.')?;
        printer.name(&self.name)?;
        printer.mark(b'(')?;
        printer.optional(&self.expr)?;
        printer.mark(b')')
    }
}

impl Phrase for Instance {
    ghost Seen = { tree.Instance };

    ghost view = { view_instance };

    ghost onto = { onto_instance };

    /// `name (links)`
    #[tactic(auto, unfolding(crate::specs::Onto::onto_instance))]
    fn print(&self, printer: &mut Printer) -> Result<(), NoMemory> {
        printer.name(&self.name)?;
        printer.mark(b'(')?;
        printer.links(&self.links)?;
        printer.mark(b')')
    }
}
