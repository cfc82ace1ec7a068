//! Links between places, and why places have no one driver each.

ghost use Rattle.std.specs.Prelude.{◌≡◌};
ghost use Rattle.flat_aliases.specs.declared.link.AliasFault.TheVariants.{Memory};

use rsfq_ids::list::{List, NoMemory};
use std::alloc::{AllocError, AllocFailed};
use thiserror::Error;

/// What drives the place `from` drives the place `to`.
#[derive(Clone, Copy, Debug, PartialEq, Eq)]
pub struct Link {
    pub from: u32,
    pub to: u32,
}

/// Why places have no one driver each.
#[derive(Debug, Drop, Error)]
pub enum AliasFault {
    /// The first place that two different drivers drive, and the first two of its drivers.
    #[error("place {place} has the drivers {first} and {second}")]
    TwoDrivers { place: u32, first: u32, second: u32 },
    /// Links lead from each of the places to the next and from the last to the first. No place of them comes before the first.
    #[error("places follow each other in a ring")]
    Ring(List<u32>),
    /// Memory could not be had.
    #[error("out of memory")]
    Memory,
}

impl From<AllocError> for AliasFault {
    ghost from_gives = { λ _ e. e ≡ Memory };

    fn from(_error: AllocError) -> AliasFault {
        AliasFault::Memory
    }
}

impl<T: Drop> From<AllocFailed<T>> for AliasFault {
    ghost from_gives = { λ _ e. e ≡ Memory };

    fn from(_error: AllocFailed<T>) -> AliasFault {
        AliasFault::Memory
    }
}

impl From<NoMemory> for AliasFault {
    ghost from_gives = { λ _ e. e ≡ Memory };

    fn from(_error: NoMemory) -> AliasFault {
        AliasFault::Memory
    }
}
