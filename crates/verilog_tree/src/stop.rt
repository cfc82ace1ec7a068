//! Why reading stopped. A place is the number of tokens from it to the end, since a reader has
//! only the tokens that are left.

ghost use Rattle.std.specs.Prelude.{◌≡◌};
ghost use Rattle.verilog_tree.specs.declared.stop.Stop.TheVariants.{Memory};

use rsfq_ids::list::NoMemory;
use std::alloc::{AllocError, AllocFailed};

/// Why reading stopped: at so many tokens before the end.
#[derive(Clone, Copy, Debug)]
pub(crate) enum Stop {
    Memory,
    Left(usize),
}

impl From<AllocError> for Stop {
    ghost from_gives = { λ _ e. e ≡ Memory };

    fn from(_e: AllocError) -> Stop {
        Stop::Memory
    }
}

impl<T: Drop> From<AllocFailed<T>> for Stop {
    ghost from_gives = { λ _ e. e ≡ Memory };

    fn from(_e: AllocFailed<T>) -> Stop {
        Stop::Memory
    }
}

impl From<NoMemory> for Stop {
    ghost from_gives = { λ _ e. e ≡ Memory };

    fn from(_e: NoMemory) -> Stop {
        Stop::Memory
    }
}
