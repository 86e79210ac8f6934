// Why a turn isn't made.

use bl_engine::Trouble;
use bl_outside::NoMemory;
use thiserror::Error;

/// Why a turn isn't made.
#[derive(Clone, Copy, Debug, PartialEq, Eq, Error)]
pub enum TurnFault {
    #[error("the journal is full")]
    JournalFull,
    /// A disk failed. Its count of faults rose.
    #[error("the store failed")]
    StoreFault,
    /// The bytes at this place of the journal are no journal, or no entry that may follow.
    #[error("the store is bad at {0}")]
    BadStore(u64),
    #[error("out of memory")]
    NoMemory,
}

impl From<Trouble> for TurnFault {
    ghost use Rattle.std.specs.Prelude.{◌≡◌};
    ghost use Rattle.bl_load.specs.TurnFaults.{fault_from};

    ghost from_gives = { λ trouble e. e ≡ fault_from trouble };

    fn from(trouble: Trouble) -> TurnFault {
        match trouble {
            Trouble::StoreFault => TurnFault::StoreFault,
            Trouble::BadStore(place) => TurnFault::BadStore(place),
            Trouble::NoMemory => TurnFault::NoMemory,
        }
    }
}

impl From<NoMemory> for TurnFault {
    ghost use Rattle.std.specs.Prelude.{◌≡◌};
    ghost use Rattle.bl_load.specs.declared.turn_fault.TurnFault.TheVariants.{
      NoMemory as out_of_memory,
    };

    ghost from_gives = { λ _ e. e ≡ out_of_memory };

    fn from(_: NoMemory) -> TurnFault {
        TurnFault::NoMemory
    }
}
