//! What stands in a module, one thing at a time.

ghost use Rattle.std.specs.Prelude.{◌≡◌};
ghost use Rattle.std.specs.Option.{option_map};
ghost use Rattle.bind_sites.specs.Again.{whole_name};

use verilog_tree::{Expr, Links};

/// A name as it stands in an expression: whole, or with the bits that are selected, `(left, right)`. The bit `a[3]` is selected as
/// `a[3:3]` is.
#[derive(Clone, Copy, Debug)]
pub struct Operand<'a> {
    pub name: &'a str,
    pub select: Option<(u32, u32)>,
}

impl<'a> Operand<'a> {
    /// The name, where it stands whole.
    pub fn whole(&self) -> Option<&'a str>
        ensures { option_map (λ name. name.now) result ≡ whole_name self.now.name.now self.now.select }
    {
        match self.select {
            None => Some(self.name),
            Some(_) => None,
        }
    }
}

/// A thing that stands in a module. `kind` is the name of an instance's kind.
#[derive(Clone, Copy, Debug)]
pub enum Site<'a> {
    /// The name of the module itself.
    Module(&'a str),
    /// A port in the head.
    Listed(&'a str),
    /// A direction for a name, in the head or in an item.
    Port {
        name: &'a str,
        output: bool,
        range: Option<(u32, u32)>,
    },
    /// A name that is declared as a wire.
    Wire {
        name: &'a str,
        range: Option<(u32, u32)>,
    },
    /// `assign to = from`; its operands stand behind it.
    Assign {
        to: &'a Expr,
        from: &'a Expr,
    },
    /// An instance; its links stand behind it.
    Instance {
        kind: &'a str,
        name: &'a str,
        links: &'a Links,
    },
    /// A link by name; its operands stand behind it.
    Named {
        kind: &'a str,
        port: &'a str,
        expr: Option<&'a Expr>,
    },
    /// A link by order, the first at place 0; its operands stand behind it.
    Ordered {
        kind: &'a str,
        place: usize,
        expr: Option<&'a Expr>,
    },
    /// An operand of an assign.
    Assigned(Operand<'a>),
    /// An operand of a link.
    Linked(Operand<'a>),
}
