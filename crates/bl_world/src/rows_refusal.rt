// Why rows have no entry.
ghost use Rattle.std.specs.Prelude.{◌≡◌};
ghost use Rattle.bl_world.specs.declared.rows_refusal.RowsRefusal.TheVariants.{
  NoMemory as out_of_memory,
};

use bl_outside::NoMemory;
use thiserror::Error;

/// The most changes of one batch that an entry can have: 2^32 - 1.
pub const MOST_CHANGES: usize = 4_294_967_295;

/// Why rows have no entry.
#[derive(Clone, Copy, Debug, PartialEq, Eq, Error)]
pub enum RowsRefusal {
    /// They made more changes than `MOST_CHANGES`.
    #[error("the rows made more changes than an entry can have")]
    TooManyChanges,
    #[error("out of memory")]
    NoMemory,
}

impl From<NoMemory> for RowsRefusal {
    ghost from_gives = { λ _ e. e ≡ out_of_memory };

    fn from(_: NoMemory) -> RowsRefusal {
        RowsRefusal::NoMemory
    }
}
