//! The limits of a circuit.

ghost use Rattle.std.specs.Prelude.{◌≡◌, ◌<◌, length, IfOk, IfErr, OnOk};
ghost use Rattle.flat_places.specs.Hierarchy.{HasModules};
ghost use Rattle.flat_places.specs.Sizes.{AreSizes, IsWithinLimits, PassesLimit};
ghost use Rattle.flat_places.specs.declared.limits.SizeFault.TheVariants.{Memory};

use crate::size::{Size, sizes_of};
use bind_forms::Bound;
use rsfq_ids::list::NoMemory;
use std::alloc::Global;
use thiserror::Error;

/// Which limit a circuit passes, and the first number that passes it. They are looked at in this order.
#[derive(Clone, Copy, Debug, PartialEq, Eq, Error)]
pub enum SizeFault {
    /// Modules lie deeper than 64 levels, the top being level 1.
    #[error("nesting {0}")]
    Nesting(u64),
    /// More than 100,000 cells.
    #[error("cells {0}")]
    Cells(u64),
    /// More than 2,000,000 wire bits, those of inner ports among them.
    #[error("wires {0}")]
    Wires(u64),
    /// Memory could not be had.
    #[error("out of memory")]
    Memory,
}

impl From<NoMemory> for SizeFault {
    ghost from_gives = { λ _ e. e ≡ Memory };

    fn from(_error: NoMemory) -> SizeFault {
        SizeFault::Memory
    }
}

/// Measures a bound source: the sizes of its modules, where the circuit is within its limits.
///
/// Takes time linear in the source for each of the 64 levels, whatever the number of instances that it comes to.
///
/// # Errors
///
/// `Nesting(65)`, `Cells(100001)`, `Wires(2000001)` exactly where that limit is passed and none before it. `Memory` where
/// memory could not be had.
pub fn measure(alloc: Global, bound: &Bound) -> Result<Vec<Size>, SizeFault>
    requires modules { HasModules bound.now }
    requires top { bound.now.top < length bound.now.modules }
    ensures within { OnOk result (IsWithinLimits bound.now) }
    ensures sizes { IfOk result (λ sizes. AreSizes bound.now 64 sizes.items) }
    ensures err { IfErr result (PassesLimit bound.now) }
{
    let sizes = sizes_of(alloc, bound)?;
    let size = sizes[bound.top as usize];
    if size.deep {
        return Err(SizeFault::Nesting(65));
    }
    if size.cells > 100_000 {
        return Err(SizeFault::Cells(size.cells));
    }
    if size.bits > 2_000_000 {
        return Err(SizeFault::Wires(size.bits));
    }
    Ok(sizes)
}
