// What a turn of the loader came to.
ghost use Rattle.std.specs.Prelude.{◌≡◌};
ghost use Rattle.bl_queue.specs.Runs.{end_status};
ghost use Rattle.bl_engine.specs.Findings.{turned_by};

use bl_entry::Entry;
use bl_files::{FeedEnd, FeedStatus};

/// What a turn of the loader came to.
#[derive(Clone, Copy, Debug, PartialEq, Eq)]
pub enum Turned {
    /// There was nothing to do.
    Idle,
    /// A job was planned.
    Planned,
    /// So many rows were taken.
    Rows(u32),
    /// A file ended so.
    Ended(FeedStatus),
}

fn end_status(end: FeedEnd) -> FeedStatus
    ensures { result ≡ end_status end }
{
    match end {
        FeedEnd::Completed => FeedStatus::Completed,
        FeedEnd::Stopped(_) => FeedStatus::Failed,
        FeedEnd::ReadError => FeedStatus::ReadError,
        FeedEnd::Modified => FeedStatus::Modified,
    }
}

// What is told of an entry of the loader.
pub(crate) fn turned_by(entry: &Entry) -> Turned
    ensures { result ≡ turned_by entry.now }
{
    match entry {
        Entry::Start { .. } => Turned::Planned,
        Entry::Batch { rows, .. } => Turned::Rows(*rows),
        Entry::FeedEnd { end, .. } => Turned::Ended(end_status(*end)),
        Entry::Submit { .. } | Entry::Cancel { .. } => Turned::Idle,
    }
}
