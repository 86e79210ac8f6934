// Why an append was refused.
use bl_outside::{NoMemory, Outside};
use thiserror::Error;

/// Why nothing was appended, or it isn't known whether something was.
///
/// After each of them but `Full` the journal isn't used until it is begun again.
#[derive(Clone, Copy, Debug, PartialEq, Eq, Error)]
pub enum AppendRefusal {
    /// There was no memory, of the journal's own or of the disk.
    #[error("out of memory")]
    NoMemory,
    /// The body is too long, or the journal would be.
    #[error("the journal is full")]
    Full,
    /// The disk failed. Its count of faults rose.
    #[error("the disk failed")]
    StoreFault,
}

impl From<Outside> for AppendRefusal {
    ghost use Rattle.std.specs.Prelude.{◌≡◌};
    ghost use Rattle.bl_outside.specs.declared.refusals.Outside.TheVariants.{
      Failed as device_failed,
      NoMemory as out_of_memory,
    };
    ghost use Rattle.bl_journal.specs.declared.refusal.AppendRefusal.TheVariants.{
      StoreFault,
      NoMemory,
    };

    ghost from_gives = { λ outside refusal. (outside ≡ device_failed → refusal ≡ StoreFault)
        × (outside ≡ out_of_memory → refusal ≡ NoMemory) };

    fn from(outside: Outside) -> AppendRefusal {
        match outside {
            Outside::Failed => AppendRefusal::StoreFault,
            Outside::NoMemory => AppendRefusal::NoMemory,
        }
    }
}

impl From<NoMemory> for AppendRefusal {
    ghost use Rattle.std.specs.Prelude.{◌≡◌};
    ghost use Rattle.bl_journal.specs.declared.refusal.AppendRefusal.TheVariants.{
      NoMemory as out_of_memory,
    };

    ghost from_gives = { λ _ refusal. refusal ≡ out_of_memory };

    fn from(_: NoMemory) -> AppendRefusal {
        AppendRefusal::NoMemory
    }
}
