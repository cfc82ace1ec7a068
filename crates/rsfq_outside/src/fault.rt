//! What a call on a folder or a sink answers where it fails.
ghost use Rattle.std.specs.Prelude.{◌≡◌};
ghost use Rattle.rsfq_outside.specs.declared.fault.FolderFault.TheVariants.{Memory};

use std::alloc::{AllocError, AllocFailed};
use thiserror::Error;

/// The kind of a folder's call, by which it is blamed.
#[derive(Clone, Copy, Debug, PartialEq, Eq)]
pub enum CallKind {
    /// A call of `read_front`.
    Read,
    /// A call of `write_whole`.
    Write,
}

/// Why a folder did not read or write.
#[derive(Clone, Copy, Debug, PartialEq, Eq, Error)]
pub enum FolderFault {
    /// The folder failed, and its count of faults has risen.
    #[error("the folder failed")]
    Failed,
    /// Memory was wanting.
    #[error("out of memory")]
    Memory,
}

/// A sink took nothing of a piece, and its count of faults has risen.
#[derive(Clone, Copy, Debug, PartialEq, Eq, Error)]
#[error("the sink failed")]
pub struct SinkFailed;

/// A sink failed before it had all of the bytes.
#[derive(Clone, Copy, Debug, PartialEq, Eq, Error)]
#[error("the sink failed before the whole text was written")]
pub struct WriteFault;

impl From<AllocError> for FolderFault {
    ghost from_gives = { λ _ e. e ≡ Memory };

    fn from(_: AllocError) -> Self {
        FolderFault::Memory
    }
}

impl<T: Drop> From<AllocFailed<T>> for FolderFault {
    ghost from_gives = { λ _ e. e ≡ Memory };

    fn from(_: AllocFailed<T>) -> Self {
        FolderFault::Memory
    }
}
