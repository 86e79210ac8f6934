// Why a call of the outside was refused.
ghost use Rattle.std.specs.Prelude.{◌≡◌};
ghost use Rattle.bl_outside.specs.declared.refusals.Outside.TheVariants.{NoMemory as out_of_memory};

use std::alloc::{AllocError, AllocFailed};
use thiserror::Error;

/// Memory ran out. It is the one answer that no contract ties to a cause.
#[derive(Clone, Copy, Debug, PartialEq, Eq, Error)]
#[error("out of memory")]
pub struct NoMemory;

impl From<AllocError> for NoMemory {
    fn from(_: AllocError) -> NoMemory {
        NoMemory
    }
}

impl<T: Drop> From<AllocFailed<T>> for NoMemory {
    fn from(_: AllocFailed<T>) -> NoMemory {
        NoMemory
    }
}

/// A source or a sink failed.
#[derive(Clone, Copy, Debug, PartialEq, Eq, Error)]
#[error("the device failed")]
pub struct Failed;

/// Why a folder or a disk gave no answer.
#[derive(Clone, Copy, Debug, PartialEq, Eq, Error)]
pub enum Outside {
    /// The device failed. Its count of faults rose.
    #[error("the device failed")]
    Failed,
    /// There was no memory for the answer.
    #[error("out of memory")]
    NoMemory,
}

impl From<NoMemory> for Outside {
    ghost from_gives = { λ _ e. e ≡ out_of_memory };

    fn from(_: NoMemory) -> Outside {
        Outside::NoMemory
    }
}
