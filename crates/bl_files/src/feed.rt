// A file of a job.
ghost use Rattle.std.specs.Prelude.{◌≡◌, IfOk};
ghost use Rattle.bl_files.specs.Carried.{
  feed_cmp,
  first_log,
  first_status,
  is_kept,
  kept,
  kept_status,
  kind_place,
  new_feed,
};

use crate::{Counts, FeedKind, FeedStatus, Found, Log, copy_logs};
use bl_outside::{Digest, List, NoMemory, Text};
use std::alloc::Global;
use std::cmp::Ordering;

/// A file of a job: what it is, how far it is, and what was told of its records.
#[derive(Debug, Drop)]
pub struct Feed {
    /// The file's name in its folder; empty where the source is this one file.
    pub name: Text,
    pub kind: FeedKind,
    pub status: FeedStatus,
    /// How many of its records were taken.
    pub taken: u64,
    /// The digest of the header and the records taken.
    pub digest: Digest,
    /// The counts of the records taken.
    pub counts: Counts,
    /// The logs of the records that were refused and passed over.
    pub logs: List<Log>,
    /// Why it ended, where it ended otherwise than whole.
    pub end_log: Option<Log>,
}

impl Feed {
    /// The feed of a file that was found. One that isn't read has ended at once.
    pub fn of_found(alloc: Global, file: &Found) -> Result<Feed, NoMemory>
        ensures { IfOk result (λ feed. feed ≡ new_feed file.now) }
    {
        Ok(Feed {
            name: file.name.copy(alloc)?,
            kind: file.kind,
            status: first_status(file.kind),
            taken: 0,
            digest: file.digest,
            counts: Counts::none(),
            logs: List::new(alloc),
            end_log: first_log(file.kind),
        })
    }

    /// The feed goes on with what it has, where it is completed or has records taken.
    pub fn is_kept(&self) -> bool
        ensures { result ≡ is_kept self.now }
    {
        self.status.is_completed() || self.taken > 0
    }

    /// The same file in a later job.
    pub fn carried_on(&self, alloc: Global) -> Result<Feed, NoMemory>
        ensures { IfOk result (λ feed. feed ≡ kept self.now) }
    {
        let mut feed = self.copy(alloc)?;
        feed.status = kept_status(feed.status);
        feed.end_log = None;
        Ok(feed)
    }

    /// The order of feeds: files that aren't read, then vertex files, then edge files, each by the
    /// bytes of their names.
    pub fn order(&self, other: &Feed) -> Ordering
        ensures { result ≡ feed_cmp self.now other.now }
    {
        kind_place(self.kind)
            .cmp(&kind_place(other.kind))
            .then(self.name.cmp(&other.name))
    }

    /// A copy with memory of its own.
    pub fn copy(&self, alloc: Global) -> Result<Feed, NoMemory>
        ensures { IfOk result (λ copy. copy ≡ self.now) }
    {
        Ok(Feed {
            name: self.name.copy(alloc)?,
            kind: self.kind,
            status: self.status,
            taken: self.taken,
            digest: self.digest,
            counts: self.counts,
            logs: copy_logs(alloc, &self.logs)?,
            end_log: self.end_log,
        })
    }
}

fn kept_status(status: FeedStatus) -> FeedStatus
    ensures { result ≡ kept_status status }
{
    if status.is_completed() {
        FeedStatus::Completed
    } else {
        FeedStatus::NotStarted
    }
}

fn first_status(kind: FeedKind) -> FeedStatus
    ensures { result ≡ first_status kind }
{
    match kind {
        FeedKind::Refused(_, _) => FeedStatus::Failed,
        _ => FeedStatus::NotStarted,
    }
}

fn first_log(kind: FeedKind) -> Option<Log>
    ensures { result ≡ first_log kind }
{
    match kind {
        FeedKind::Refused(code, column) => Some(Log {
            code,
            number: 0,
            column,
        }),
        _ => None,
    }
}

fn kind_place(kind: FeedKind) -> u8
    ensures { result ≡ kind_place kind }
{
    match kind {
        FeedKind::Refused(_, _) => 0,
        FeedKind::Vertex => 1,
        FeedKind::Edge => 2,
    }
}

/// A copy of a list of feeds.
pub fn copy_feeds(alloc: Global, feeds: &List<Feed>) -> Result<List<Feed>, NoMemory>
    ensures { IfOk result (λ copy. copy ≡ feeds.now) }
{
    let mut copy = List::with_capacity(alloc, feeds.len())?;
    for feed in feeds.as_slice() {
        copy.push(feed.copy(alloc)?)?;
    }
    Ok(copy)
}
