//! What pairs a graph with a circuit, and why there is no pairing.

ghost use Rattle.golden_aig.specs.declared.pairing.PortFault.TheVariants.{Memory};
ghost use Rattle.std.specs.Prelude.{◌≡◌};

use rsfq_ids::id::PortId;
use rsfq_ids::list::{List, NoMemory};
use rsfq_ids::name::Name;
use std::alloc::{AllocError, AllocFailed};
use thiserror::Error;

/// The port that each input and each output of a graph stands for, in the graph's order.
#[derive(Debug, Drop)]
pub struct Match {
    pub inputs: List<PortId>,
    pub outputs: List<PortId>,
}

/// Why a graph does not fit a circuit.
#[derive(Debug, Drop, Error)]
pub enum PortFault {
    /// Some inputs have a symbol and some have none, or some outputs.
    #[error("mixed")]
    Mixed,
    /// The number in the graph, and that of the data inputs or of the outputs.
    #[error("count {0} {1}")]
    Count(u64, u64),
    /// A symbol that is the name of no port of its side.
    #[error("no port")]
    NoPort(Name),
    /// A symbol that stood before.
    #[error("repeated")]
    Repeated(Name),
    /// Memory could not be had.
    #[error("out of memory")]
    Memory,
}

impl From<NoMemory> for PortFault {
    ghost from_gives = { λ _ e. e ≡ Memory };

    fn from(_: NoMemory) -> PortFault {
        PortFault::Memory
    }
}

impl From<AllocError> for PortFault {
    ghost from_gives = { λ _ e. e ≡ Memory };

    fn from(_: AllocError) -> PortFault {
        PortFault::Memory
    }
}

impl<T: Drop> From<AllocFailed<T>> for PortFault {
    ghost from_gives = { λ _ e. e ≡ Memory };

    fn from(_: AllocFailed<T>) -> PortFault {
        PortFault::Memory
    }
}
