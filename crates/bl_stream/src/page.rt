// A page of events.
ghost use Rattle.std.specs.Prelude.{◌≡◌};
ghost use Rattle.bl_stream.specs.declared.page.PageRefusal.TheVariants.{
  NoMemory as out_of_memory,
};

use crate::CommitFault;
use bl_change::Event;
use bl_outside::{List, NoMemory};
use thiserror::Error;

/// Events in the order of the stream.
#[derive(Debug, Drop)]
pub struct Page {
    pub events: List<Event>,
}

/// Why there is no page.
#[derive(Clone, Copy, Debug, PartialEq, Eq, Error)]
pub enum PageRefusal {
    /// No event is asked for.
    #[error("no record at the place asked for")]
    NoRecords,
    /// The store failed. The reader's count of faults rose.
    #[error("the store failed")]
    StoreFault,
    /// The store is damaged at this place. The reader's count of faults rose.
    #[error("the store is damaged at {0}")]
    BadStore(u64),
    #[error("out of memory")]
    NoMemory,
}

impl From<NoMemory> for PageRefusal {
    ghost from_gives = { λ _ e. e ≡ out_of_memory };

    fn from(_: NoMemory) -> PageRefusal {
        PageRefusal::NoMemory
    }
}

impl From<CommitFault> for PageRefusal {
    ghost use Rattle.std.specs.Prelude.{◌≡◌};
    ghost use Rattle.bl_stream.specs.Refused.{refused_by};

    ghost from_gives = { λ fault e. e ≡ refused_by fault };

    fn from(fault: CommitFault) -> PageRefusal {
        match fault {
            CommitFault::StoreFault => PageRefusal::StoreFault,
            CommitFault::BadStore(place) => PageRefusal::BadStore(place),
            CommitFault::NoMemory => PageRefusal::NoMemory,
        }
    }
}
