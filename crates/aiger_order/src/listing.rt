//! A graph as an ASCII file has it.

ghost use Rattle.std.specs.Prelude.{◌≡◌};
ghost use Rattle.aiger_order.specs.declared.listing.OrderFault.TheVariants.{Memory};

use golden_aig::And;
use rsfq_ids::list::{List, NoMemory};
use rsfq_ids::name::Name;
use std::alloc::{AllocError, AllocFailed};
use thiserror::Error;

/// A graph with the file's own numbers of variables and its ANDs in any order of lines. A literal is twice a variable, or that
/// plus 1 for its negation.
#[derive(Debug, Drop)]
pub struct Listing {
    /// The highest number that a variable may have.
    pub top: u32,
    /// The even literal of each input.
    pub inputs: List<u32>,
    /// The ANDs, line by line.
    pub ands: List<And>,
    /// The literal of each output.
    pub outputs: List<u32>,
    /// The symbol of each input, if it has one.
    pub in_names: List<Option<Name>>,
    /// The symbol of each output, if it has one.
    pub out_names: List<Option<Name>>,
}

/// Why there is no order of use.
#[derive(Debug, Drop, Error)]
pub enum OrderFault {
    /// The literals of ANDs in a ring, each once: each uses the next one, and the last the first, which is the least.
    #[error("cycle")]
    Cycle(List<u32>),
    /// Memory could not be had.
    #[error("out of memory")]
    Memory,
}

impl From<NoMemory> for OrderFault {
    ghost from_gives = { λ _ e. e ≡ Memory };

    fn from(_: NoMemory) -> OrderFault {
        OrderFault::Memory
    }
}

impl From<AllocError> for OrderFault {
    ghost from_gives = { λ _ e. e ≡ Memory };

    fn from(_: AllocError) -> OrderFault {
        OrderFault::Memory
    }
}

impl<T: Drop> From<AllocFailed<T>> for OrderFault {
    ghost from_gives = { λ _ e. e ≡ Memory };

    fn from(_: AllocFailed<T>) -> OrderFault {
        OrderFault::Memory
    }
}
