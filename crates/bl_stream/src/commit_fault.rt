// Why a commit was not read.
ghost use Rattle.std.specs.Prelude.{◌≡◌};
ghost use Rattle.bl_stream.specs.declared.commit_fault.CommitFault.TheVariants.{
  NoMemory as out_of_memory,
};

use bl_outside::NoMemory;
use thiserror::Error;

/// Why a reader gave no commit.
#[derive(Clone, Copy, Debug, PartialEq, Eq, Error)]
pub enum CommitFault {
    /// The store failed. The reader's count of faults rose.
    #[error("the store failed")]
    StoreFault,
    /// The store is damaged at this place. The reader's count of faults rose.
    #[error("the store is damaged at {0}")]
    BadStore(u64),
    #[error("out of memory")]
    NoMemory,
}

impl From<NoMemory> for CommitFault {
    ghost from_gives = { λ _ e. e ≡ out_of_memory };

    fn from(_: NoMemory) -> CommitFault {
        CommitFault::NoMemory
    }
}
