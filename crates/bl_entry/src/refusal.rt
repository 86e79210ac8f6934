// Why bytes are no entry.
ghost use Rattle.std.specs.Prelude.{◌≡◌};
ghost use Rattle.bl_entry.specs.declared.refusal.EntryRefusal.TheVariants.{
  NoMemory as out_of_memory,
};

use bl_outside::NoMemory;
use thiserror::Error;

/// Why there is no entry.
#[derive(Clone, Copy, Debug, PartialEq, Eq, Error)]
pub enum EntryRefusal {
    /// No valid entry has these bytes.
    #[error("the bytes are no entry")]
    NotAnEntry,
    /// There was no memory for it.
    #[error("out of memory")]
    NoMemory,
}

impl From<NoMemory> for EntryRefusal {
    ghost from_gives = { λ _ e. e ≡ out_of_memory };

    fn from(_: NoMemory) -> EntryRefusal {
        EntryRefusal::NoMemory
    }
}
