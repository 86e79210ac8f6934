// Why a file of the store could not be read.
use crate::Outside;
use thiserror::Error;

/// Why a journal, or a slot for a snapshot, gave no answer.
#[derive(Clone, Copy, Debug, PartialEq, Eq, Error)]
pub enum JournalFault {
    /// The disk failed. Its count of faults rose.
    #[error("the disk failed")]
    StoreFault,
    /// The bytes at this place are no journal.
    #[error("the bytes at {0} are no journal")]
    NotAJournal(u64),
    /// There was no memory for the answer.
    #[error("out of memory")]
    NoMemory,
}

impl From<Outside> for JournalFault {
    ghost use Rattle.std.specs.Prelude.{◌≡◌};
    ghost use Rattle.bl_outside.specs.declared.refusals.Outside.TheVariants.{
      Failed as device_failed,
      NoMemory as out_of_memory,
    };
    ghost use Rattle.bl_outside.specs.declared.journal_fault.JournalFault.TheVariants.{
      StoreFault,
      NoMemory,
    };

    ghost from_gives = { λ refusal fault. (refusal ≡ device_failed → fault ≡ StoreFault)
        × (refusal ≡ out_of_memory → fault ≡ NoMemory) };

    fn from(refusal: Outside) -> JournalFault {
        match refusal {
            Outside::Failed => JournalFault::StoreFault,
            Outside::NoMemory => JournalFault::NoMemory,
        }
    }
}
