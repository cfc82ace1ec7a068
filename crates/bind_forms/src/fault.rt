//! Why a source cannot be bound.

ghost use Rattle.std.specs.Prelude.{◌≡◌};
ghost use Rattle.bind_forms.specs.declared.fault.BindFault.TheVariants.{Memory};

use rsfq_ids::list::{List, NoMemory};
use rsfq_ids::name::Name;
use std::alloc::{AllocError, AllocFailed};
use thiserror::Error;

/// Why a source cannot be bound under a cell table and a top. The causes are looked for in this order, each over the whole text before the
/// next; of one cause the first in text order is answered. All but `DuplicateName` of modules and cells, `NoTop` and `TwoTops` speak of
/// the modules that the top reaches.
#[derive(Debug, Drop, Error)]
pub enum BindFault {
    /// Two modules, a module and a cell, or within a module two ports, two wires or two instances have this name, given twice; or two bits
    /// of the top's ports have this printed name.
    #[error("duplicate {first} {second}", first = .0.as_str(), second = .1.as_str())]
    DuplicateName(Name, Name),
    /// No module has the name of the top, or each module is instantiated.
    #[error("no top")]
    NoTop,
    /// Two modules that no module instantiates.
    #[error("two tops {first} {second}", first = .0.as_str(), second = .1.as_str())]
    TwoTops(Name, Name),
    /// The kind of an instance is neither a module nor a cell.
    #[error("no module {name}", name = .0.as_str())]
    NoSuchModule(Name),
    /// Modules that instantiate each other in a ring, from the first in text order on, each instantiating the next. Their names are not
    /// printed here.
    #[error("recursive")]
    Recursive(List<Name>),
    /// A listed port has no direction, a direction no listed port, or a link by name no such port.
    #[error("port {name}", name = .0.as_str())]
    UnknownPort(Name),
    /// A port is linked twice by name.
    #[error("port twice {name}", name = .0.as_str())]
    PortTwice(Name),
    /// More links by order, the first number, than ports, the second.
    #[error("too many {0} {1}")]
    TooMany(u64, u64),
    /// An assign, or a select in a link, uses a name that is neither declared nor made by an instance's link.
    #[error("no name {name}", name = .0.as_str())]
    NoSuchName(Name),
    /// A select outside the range of its name or against its direction, or from a scalar; or a port that is declared as a wire of another
    /// range.
    #[error("range {name}", name = .0.as_str())]
    Range(Name),
    /// The width in bits of a link's expression or of an assign's right side, and that of the port or of the left side.
    #[error("width {0} {1}")]
    Width(u64, u64),
    /// A port that is wider than 4,096 bits, by its width.
    #[error("limit width {0}")]
    WidthLimit(u64),
    /// Memory could not be had, or a list has 2^32 items or more.
    #[error("out of memory")]
    Memory,
}

impl From<NoMemory> for BindFault {
    ghost from_gives = { λ _ e. e ≡ Memory };

    fn from(_: NoMemory) -> BindFault {
        BindFault::Memory
    }
}

impl From<AllocError> for BindFault {
    ghost from_gives = { λ _ e. e ≡ Memory };

    fn from(_: AllocError) -> BindFault {
        BindFault::Memory
    }
}

impl<T: Drop> From<AllocFailed<T>> for BindFault {
    ghost from_gives = { λ _ e. e ≡ Memory };

    fn from(_: AllocFailed<T>) -> BindFault {
        BindFault::Memory
    }
}
