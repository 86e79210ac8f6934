// Why a load isn't finished.
ghost use Rattle.std.specs.Prelude.{◌≡◌};
ghost use Rattle.bl_cli.specs.LoadFaults.{status_of};

use crate::status::Status;
use bl_engine::Trouble;
use bl_load::TurnFault;
use bl_outside::Outside;
use thiserror::Error;

/// Why a load isn't finished, or isn't printed.
#[derive(Clone, Copy, Debug, PartialEq, Eq, Error)]
pub enum LoadFault {
    /// The output failed.
    #[error("the output failed")]
    WriteFault,
    /// A disk failed. Its count of faults rose.
    #[error("the store failed")]
    StoreFault,
    /// The bytes at this place of the journal are no journal, or no entry that may follow.
    #[error("the store is bad at {0}")]
    BadStore(u64),
    #[error("out of memory")]
    NoMemory,
    #[error("the journal is full")]
    JournalFull,
    #[error("no number is left")]
    NumbersUsedUp,
}

impl LoadFault {
    /// How the run ends.
    pub fn status(self) -> Status
        ensures { result ≡ status_of self }
    {
        match self {
            LoadFault::WriteFault => Status::WriteFault,
            LoadFault::StoreFault => Status::StoreFault,
            LoadFault::BadStore(place) => Status::BadStore(place),
            LoadFault::NoMemory => Status::NoMemory,
            LoadFault::JournalFull => Status::JournalFull,
            LoadFault::NumbersUsedUp => Status::NumbersUsedUp,
        }
    }
}

impl From<Trouble> for LoadFault {
    ghost use Rattle.std.specs.Prelude.{◌≡◌};
    ghost use Rattle.bl_cli.specs.LoadFaults.{fault_from};

    ghost from_gives = { λ trouble e. e ≡ fault_from trouble };

    fn from(trouble: Trouble) -> LoadFault {
        match trouble {
            Trouble::StoreFault => LoadFault::StoreFault,
            Trouble::BadStore(place) => LoadFault::BadStore(place),
            Trouble::NoMemory => LoadFault::NoMemory,
        }
    }
}

impl From<TurnFault> for LoadFault {
    ghost use Rattle.std.specs.Prelude.{◌≡◌};
    ghost use Rattle.bl_cli.specs.LoadFaults.{turn_fault_from};

    ghost from_gives = { λ fault e. e ≡ turn_fault_from fault };

    fn from(fault: TurnFault) -> LoadFault {
        match fault {
            TurnFault::JournalFull => LoadFault::JournalFull,
            TurnFault::StoreFault => LoadFault::StoreFault,
            TurnFault::BadStore(place) => LoadFault::BadStore(place),
            TurnFault::NoMemory => LoadFault::NoMemory,
        }
    }
}

impl From<Outside> for LoadFault {
    ghost use Rattle.std.specs.Prelude.{◌≡◌};
    ghost use Rattle.bl_cli.specs.LoadFaults.{print_fault_from};

    ghost from_gives = { λ outside e. e ≡ print_fault_from outside };

    fn from(outside: Outside) -> LoadFault {
        match outside {
            Outside::Failed => LoadFault::WriteFault,
            Outside::NoMemory => LoadFault::NoMemory,
        }
    }
}
