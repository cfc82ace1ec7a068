//! Why a circuit has no lanes.
ghost use Rattle.std.specs.Prelude.{◌≡◌};
ghost use Rattle.lane_forest.specs.declared.fault.LaneFault.TheVariants.{Memory};

use rsfq_ids::id::PinId;
use rsfq_ids::list::NoMemory;
use thiserror::Error;

/// A limit on timing paths that is passed, or want of memory.
#[derive(Debug, Drop, Error)]
pub enum LaneFault {
    /// The first pin with more than 64 timing paths, and how many it has.
    #[error("too many timing paths to a pin")]
    Pin { pin: PinId, count: u64 },
    /// The first running sum of timing paths above 1,000,000.
    #[error("too many timing paths")]
    Total { count: u64 },
    /// Memory could not be had.
    #[error("out of memory")]
    Memory,
}

impl From<NoMemory> for LaneFault {
    ghost from_gives = { λ _ e. e ≡ Memory };

    fn from(_: NoMemory) -> Self {
        LaneFault::Memory
    }
}
