// How a file of a job ends.
use crate::Log;

/// How a file of a job ends.
#[derive(Clone, Copy, Debug, PartialEq, Eq)]
pub enum FeedEnd {
    Completed,
    /// A record was refused, and the load stops at refusals.
    Stopped(Log),
    ReadError,
    Modified,
}
