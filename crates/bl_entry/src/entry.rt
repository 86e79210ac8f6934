// What the journal keeps.
use bl_files::{FeedEnd, LoadRequest, Log, PlanResult};
use bl_outside::{Digest, List};
use bl_value::Change;

/// The most records of one batch that may follow.
pub const MOST_ROWS: u32 = 1000;

/// One event of the core, as the journal keeps it. The moment is in milliseconds from 1970 UTC;
/// jobs and feeds are counted from 1.
#[derive(Debug, Drop)]
pub enum Entry {
    /// A load was asked for.
    Submit {
        moment: u64,
        job: u32,
        id: u128,
        request: LoadRequest,
    },
    /// A job was cancelled.
    Cancel {
        moment: u64,
        job: u32,
    },
    /// A job was planned.
    Start {
        moment: u64,
        job: u32,
        plan: PlanResult,
    },
    /// Records of a file were taken.
    Batch {
        moment: u64,
        job: u32,
        feed: u32,
        /// How many of the file's records were taken before.
        from: u64,
        /// How many records were taken.
        rows: u32,
        /// The digest of the file's records up to and with these.
        digest: Digest,
        duplicates: u32,
        logs: List<Log>,
        changes: List<Change>,
    },
    /// A file ended.
    FeedEnd {
        moment: u64,
        job: u32,
        feed: u32,
        end: FeedEnd,
    },
}
