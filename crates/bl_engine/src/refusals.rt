// Why a call isn't done.
ghost use Rattle.std.specs.Prelude.{◌≡◌};
ghost use Rattle.bl_engine.specs.Troubles.{trouble_from};

use bl_journal::AppendRefusal;
use bl_outside::JournalFault;
use bl_queue::{CheckRefusal, JobStatus};
use bl_stream::PageRefusal;
use bl_world::Work;
use thiserror::Error;

/// Why the store isn't open.
#[derive(Clone, Copy, Debug, PartialEq, Eq, Error)]
pub enum Trouble {
    /// A disk failed. Its count of faults rose.
    #[error("the store failed")]
    StoreFault,
    /// The bytes at this place of the journal are no journal, or no entry that may follow.
    #[error("the store is bad at {0}")]
    BadStore(u64),
    #[error("out of memory")]
    NoMemory,
}

/// Why a load isn't taken on.
#[derive(Clone, Copy, Debug, PartialEq, Eq, Error)]
pub enum SubmitRefusal {
    #[error("the load depends on too many others")]
    TooManyDependencies,
    /// The dependency at this place, counted from 1, is the id of no load that is kept.
    #[error("dependency {0} is no load that is kept")]
    UnknownDependency(u32),
    /// It may not wait, and the load of this id hasn't ended.
    #[error("the load {0:032x} hasn't ended")]
    Busy(u128),
    #[error("too many loads wait")]
    QueueFull,
    #[error("no number is left")]
    NumbersUsedUp,
    #[error("the journal is full")]
    JournalFull,
    /// A disk failed. Its count of faults rose.
    #[error("the store failed")]
    StoreFault,
    /// As of `Trouble`.
    #[error("the store is bad at {0}")]
    BadStore(u64),
    #[error("out of memory")]
    NoMemory,
}

/// Why a load isn't cancelled.
#[derive(Clone, Copy, Debug, PartialEq, Eq, Error)]
pub enum CancelRefusal {
    /// No load that is kept has this id.
    #[error("no load that is kept has this id")]
    Unknown,
    /// It has ended already.
    #[error("the load has ended")]
    Ended(JobStatus),
    #[error("the journal is full")]
    JournalFull,
    /// A disk failed. Its count of faults rose.
    #[error("the store failed")]
    StoreFault,
    /// As of `Trouble`.
    #[error("the store is bad at {0}")]
    BadStore(u64),
    #[error("out of memory")]
    NoMemory,
}

/// Why a load isn't shown.
#[derive(Clone, Copy, Debug, PartialEq, Eq, Error)]
pub enum ViewRefusal {
    /// No load that is kept has this id.
    #[error("no load that is kept has this id")]
    Unknown,
    /// A disk failed. Its count of faults rose.
    #[error("the store failed")]
    StoreFault,
    /// As of `Trouble`.
    #[error("the store is bad at {0}")]
    BadStore(u64),
    #[error("out of memory")]
    NoMemory,
}

/// Why work isn't taken.
#[derive(Clone, Copy, Debug, PartialEq, Eq, Error)]
pub enum TurnRefusal {
    /// It isn't the next work any more. This is.
    #[error("other work is next")]
    Stale(Work),
    #[error("the journal is full")]
    JournalFull,
    /// A disk failed. Its count of faults rose.
    #[error("the store failed")]
    StoreFault,
    /// As of `Trouble`.
    #[error("the store is bad at {0}")]
    BadStore(u64),
    #[error("out of memory")]
    NoMemory,
}

impl From<Trouble> for ViewRefusal {
    ghost use Rattle.std.specs.Prelude.{◌≡◌, ◌≢◌, Some, Err};
    ghost use Rattle.bl_engine.specs.Outcomes.{view_trouble};
    ghost use Rattle.bl_engine.specs.declared.refusals.ViewRefusal.TheVariants.{Unknown};

    ghost from_gives = { λ trouble refusal. (view_trouble (Err refusal) ≡ Some trouble)
        × (refusal ≢ Unknown) };

    fn from(trouble: Trouble) -> ViewRefusal {
        match trouble {
            Trouble::StoreFault => ViewRefusal::StoreFault,
            Trouble::BadStore(place) => ViewRefusal::BadStore(place),
            Trouble::NoMemory => ViewRefusal::NoMemory,
        }
    }
}

impl From<Trouble> for PageRefusal {
    ghost use Rattle.std.specs.Prelude.{◌≡◌, ◌≢◌, Some, Err};
    ghost use Rattle.bl_stream.specs.declared.page.PageRefusal.TheVariants.{NoRecords};
    ghost use Rattle.bl_engine.specs.Streams.{page_trouble};

    ghost from_gives = { λ trouble refusal. (page_trouble (Err refusal) ≡ Some trouble)
        × (refusal ≢ NoRecords) };

    fn from(trouble: Trouble) -> PageRefusal {
        match trouble {
            Trouble::StoreFault => PageRefusal::StoreFault,
            Trouble::BadStore(place) => PageRefusal::BadStore(place),
            Trouble::NoMemory => PageRefusal::NoMemory,
        }
    }
}

impl From<Trouble> for SubmitRefusal {
    ghost use Rattle.std.specs.Prelude.{◌≡◌, Err};
    ghost use Rattle.bl_engine.specs.Outcomes.{Stopped, submit_outcome};

    ghost from_gives = { λ trouble refusal. submit_outcome (Err refusal) ≡ Stopped trouble };

    fn from(trouble: Trouble) -> SubmitRefusal {
        match trouble {
            Trouble::StoreFault => SubmitRefusal::StoreFault,
            Trouble::BadStore(place) => SubmitRefusal::BadStore(place),
            Trouble::NoMemory => SubmitRefusal::NoMemory,
        }
    }
}

impl From<CheckRefusal> for SubmitRefusal {
    ghost use Rattle.std.specs.Prelude.{◌≡◌};
    ghost use Rattle.bl_engine.specs.Outcomes.{submit_refusal};

    ghost from_gives = { λ check refusal. refusal ≡ submit_refusal check };

    fn from(check: CheckRefusal) -> SubmitRefusal {
        match check {
            CheckRefusal::TooManyDependencies => SubmitRefusal::TooManyDependencies,
            CheckRefusal::UnknownDependency(place) => SubmitRefusal::UnknownDependency(place),
            CheckRefusal::Busy(id) => SubmitRefusal::Busy(id),
            CheckRefusal::QueueFull => SubmitRefusal::QueueFull,
            CheckRefusal::NumbersUsedUp => SubmitRefusal::NumbersUsedUp,
        }
    }
}

impl From<AppendRefusal> for SubmitRefusal {
    ghost use Rattle.std.specs.Prelude.{◌≡◌};
    ghost use Rattle.bl_engine.specs.Appending.{submit_refused};

    ghost from_gives = { λ append refusal. refusal ≡ submit_refused append };

    fn from(append: AppendRefusal) -> SubmitRefusal {
        match append {
            AppendRefusal::NoMemory => SubmitRefusal::NoMemory,
            AppendRefusal::Full => SubmitRefusal::JournalFull,
            AppendRefusal::StoreFault => SubmitRefusal::StoreFault,
        }
    }
}

impl From<Trouble> for CancelRefusal {
    ghost use Rattle.std.specs.Prelude.{◌≡◌, Err};
    ghost use Rattle.bl_engine.specs.Outcomes.{Stopped, cancel_outcome};

    ghost from_gives = { λ trouble refusal. cancel_outcome (Err refusal) ≡ Stopped trouble };

    fn from(trouble: Trouble) -> CancelRefusal {
        match trouble {
            Trouble::StoreFault => CancelRefusal::StoreFault,
            Trouble::BadStore(place) => CancelRefusal::BadStore(place),
            Trouble::NoMemory => CancelRefusal::NoMemory,
        }
    }
}

impl From<AppendRefusal> for CancelRefusal {
    ghost use Rattle.std.specs.Prelude.{◌≡◌};
    ghost use Rattle.bl_engine.specs.Appending.{cancel_refused};

    ghost from_gives = { λ append refusal. refusal ≡ cancel_refused append };

    fn from(append: AppendRefusal) -> CancelRefusal {
        match append {
            AppendRefusal::NoMemory => CancelRefusal::NoMemory,
            AppendRefusal::Full => CancelRefusal::JournalFull,
            AppendRefusal::StoreFault => CancelRefusal::StoreFault,
        }
    }
}

impl From<Trouble> for TurnRefusal {
    ghost use Rattle.std.specs.Prelude.{◌≡◌, Err};
    ghost use Rattle.bl_engine.specs.Outcomes.{Stopped, turn_outcome};

    ghost from_gives = { λ trouble refusal. turn_outcome (Err refusal) ≡ Stopped trouble };

    fn from(trouble: Trouble) -> TurnRefusal {
        match trouble {
            Trouble::StoreFault => TurnRefusal::StoreFault,
            Trouble::BadStore(place) => TurnRefusal::BadStore(place),
            Trouble::NoMemory => TurnRefusal::NoMemory,
        }
    }
}

impl From<AppendRefusal> for TurnRefusal {
    ghost use Rattle.std.specs.Prelude.{◌≡◌};
    ghost use Rattle.bl_engine.specs.Appending.{turn_refused};

    ghost from_gives = { λ append refusal. refusal ≡ turn_refused append };

    fn from(append: AppendRefusal) -> TurnRefusal {
        match append {
            AppendRefusal::NoMemory => TurnRefusal::NoMemory,
            AppendRefusal::Full => TurnRefusal::JournalFull,
            AppendRefusal::StoreFault => TurnRefusal::StoreFault,
        }
    }
}

pub(crate) fn trouble_of(fault: JournalFault) -> Trouble
    ensures { result ≡ trouble_from fault }
{
    match fault {
        JournalFault::StoreFault => Trouble::StoreFault,
        JournalFault::NotAJournal(place) => Trouble::BadStore(place),
        JournalFault::NoMemory => Trouble::NoMemory,
    }
}
