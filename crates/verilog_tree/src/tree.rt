//! The tree of a text. Its types mirror the grammar, so that each phrase has one type, and
//! nothing that the text says is lost but blanks, comments and how a name was written.

use rsfq_ids::list::List;
use rsfq_ids::name::Name;

/// The modules of a text, in its order.
#[derive(Debug, Drop)]
pub struct Source {
    pub modules: List<Module>,
}

/// `module name head; items endmodule`.
#[derive(Debug, Drop)]
pub struct Module {
    pub name: Name,
    pub head: Head,
    pub items: List<Item>,
}

/// The direction of a port.
#[derive(Clone, Copy, Debug, PartialEq, Eq)]
pub enum Dir {
    Input,
    Output,
}

/// A port of a head that declares its ports. `Bare` takes direction and range from the port
/// before it. `wire` says whether the word `wire` stands behind the direction. A range is
/// written `[left:right]`.
#[derive(Debug, Drop)]
pub enum HeadPort {
    Full {
        dir: Dir,
        wire: bool,
        range: Option<(u32, u32)>,
        name: Name,
    },
    Bare(Name),
}

/// What stands behind a module's name: names alone, or ports with their declarations. A head
/// without ports is `Plain` with no name.
#[derive(Debug, Drop)]
pub enum Head {
    Plain(List<Name>),
    Full(List<HeadPort>),
}

/// A declaration of ports, a declaration of wires, an `assign` of one or more pairs (the side
/// that is set stands first), or one or more instances of one kind.
#[derive(Debug, Drop)]
pub enum Item {
    Ports {
        dir: Dir,
        wire: bool,
        range: Option<(u32, u32)>,
        names: List<Name>,
    },
    Wires {
        range: Option<(u32, u32)>,
        names: List<Name>,
    },
    Assigns(List<(Expr, Expr)>),
    Instances {
        kind: Name,
        instances: List<Instance>,
    },
}

/// `name (links)`.
#[derive(Debug, Drop)]
pub struct Instance {
    pub name: Name,
    pub links: Links,
}

/// `.name(expr)`, or `.name()` where the pin is left unlinked.
#[derive(Debug, Drop)]
pub struct NamedLink {
    pub name: Name,
    pub expr: Option<Expr>,
}

/// The links of an instance, by pin name or by order. An instance without links has `Ordered`
/// with no link, `Named` has at least one link, and `Ordered` with one empty link is no tree.
#[derive(Debug, Drop)]
pub enum Links {
    Named(List<NamedLink>),
    Ordered(List<Option<Expr>>),
}

/// A whole name, one bit `name[at]`, a part `name[left:right]`, or a concatenation, whose
/// leftmost part is the most significant.
#[derive(Debug, Drop)]
pub enum Expr {
    Name(Name),
    Bit(Name, u32),
    Part(Name, u32, u32),
    Join(Vec<Expr>),
}
