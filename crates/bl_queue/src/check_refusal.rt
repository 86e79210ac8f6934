// Why a load isn't taken on.
use thiserror::Error;

/// Why a load that is asked for isn't taken on.
#[derive(Clone, Copy, Debug, PartialEq, Eq, Error)]
pub enum CheckRefusal {
    /// It depends on more than `MOST_DEPENDENCIES` loads.
    #[error("the load depends on too many others")]
    TooManyDependencies,
    /// The dependency at this place, counted from 1, is the id of no load that is kept.
    #[error("dependency {0} is no load that is kept")]
    UnknownDependency(u32),
    /// It may not wait, and the load of this id hasn't ended.
    #[error("the load {0:032x} hasn't ended")]
    Busy(u128),
    /// `MOST_QUEUED` loads wait.
    #[error("too many loads wait")]
    QueueFull,
    /// The last number was given.
    #[error("no number is left")]
    NumbersUsedUp,
}
