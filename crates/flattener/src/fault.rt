//! Why a bound source has no circuit.

ghost use Rattle.std.specs.Prelude.{◌≡◌};
ghost use Rattle.flattener.specs.declared.fault.FlatFault.TheVariants.{Memory};
ghost use Rattle.flattener.specs.Limits.{flat_fault};

use flat_places::SizeFault;
use rsfq_ids::list::{List, NoMemory};
use rsfq_ids::name::Name;
use std::alloc::{AllocError, AllocFailed};
use thiserror::Error;

/// Why a bound source has no circuit. The causes are looked for in this order, each in the whole circuit before the next.
#[derive(Debug, Drop, Error)]
pub enum FlatFault {
    /// Modules lie deeper than 64 levels: 65, the first number that passes the limit.
    #[error("nesting {0}")]
    NestingLimit(u64),
    /// More than 100,000 cells: 100,001.
    #[error("cells {0}")]
    CellLimit(u64),
    /// More than 2,000,000 wire bits, those of inner ports among them: 2,000,001.
    #[error("wires {0}")]
    WireLimit(u64),
    /// The first wire bit that two different drivers drive, and its first two drivers in the order of nets, by their printed names.
    #[error("two drivers")]
    TwoDrivers(Name, Name, Name),
    /// Wire bits that follow each other in a ring, from its first one on, each next one following the one before.
    #[error("alias loop")]
    AliasLoop(List<Name>),
    /// The first pin, in pin order, whose place nothing drives. A pin of a cell prints as `CELL.PIN`, an output bit as its port.
    #[error("no driver")]
    NoDriver(Name),
    /// Memory could not be had.
    #[error("out of memory")]
    Memory,
}

impl From<SizeFault> for FlatFault {
    ghost from_gives = { λ fault e. e ≡ flat_fault fault };

    fn from(fault: SizeFault) -> FlatFault {
        match fault {
            SizeFault::Nesting(count) => FlatFault::NestingLimit(count),
            SizeFault::Cells(count) => FlatFault::CellLimit(count),
            SizeFault::Wires(count) => FlatFault::WireLimit(count),
            SizeFault::Memory => FlatFault::Memory,
        }
    }
}

impl From<NoMemory> for FlatFault {
    ghost from_gives = { λ _ e. e ≡ Memory };

    fn from(_error: NoMemory) -> FlatFault {
        FlatFault::Memory
    }
}

impl From<AllocError> for FlatFault {
    ghost from_gives = { λ _ e. e ≡ Memory };

    fn from(_error: AllocError) -> FlatFault {
        FlatFault::Memory
    }
}

impl<T: Drop> From<AllocFailed<T>> for FlatFault {
    ghost from_gives = { λ _ e. e ≡ Memory };

    fn from(_error: AllocFailed<T>) -> FlatFault {
        FlatFault::Memory
    }
}
