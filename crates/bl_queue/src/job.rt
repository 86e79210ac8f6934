// A load that was asked for.
ghost use Rattle.std.specs.Prelude.{◌≡◌, IfOk};
ghost use Rattle.bl_queue.specs.Jobs.{has_open, is_unended};

use crate::JobStatus;
use bl_files::{Feed, LoadRequest, Log, copy_feeds};
use bl_outside::{List, NoMemory};
use std::alloc::Global;

/// A load that was asked for, and what became of it.
#[derive(Debug, Drop)]
pub struct Job {
    /// Jobs are numbered from 1 in the order in which they were asked for.
    pub number: u32,
    /// The load id. Its last six bytes are the number.
    pub id: u128,
    pub request: LoadRequest,
    pub submitted: u64,
    /// When it was started, or 0.
    pub started: u64,
    /// When a call last named it, or ended it.
    pub latest: u64,
    /// 1 where it began anew, one more than the previous load's where it went on with one; 0 before
    /// its start.
    pub run: u32,
    /// The number of the load that it goes on with, or 0.
    pub previous: u32,
    pub status: JobStatus,
    pub feeds: List<Feed>,
    /// Why it ended, where that is said of no file.
    pub end_log: Option<Log>,
}

impl Job {
    /// The job hasn't ended.
    pub fn is_unended(&self) -> bool
        ensures { result ≡ is_unended self.now }
    {
        self.status.is_unended()
    }

    /// A file of the job hasn't ended.
    pub fn has_open(&self) -> bool
        ensures { result ≡ has_open self.now }
    {
        self.feeds
            .as_slice()
            .iter()
            .any(|feed| feed.status.is_open())
    }

    /// A copy with memory of its own.
    pub fn copy(&self, alloc: Global) -> Result<Job, NoMemory>
        ensures { IfOk result (λ copy. copy ≡ self.now) }
    {
        Ok(Job {
            number: self.number,
            id: self.id,
            request: self.request.copy(alloc)?,
            submitted: self.submitted,
            started: self.started,
            latest: self.latest,
            run: self.run,
            previous: self.previous,
            status: self.status,
            feeds: copy_feeds(alloc, &self.feeds)?,
            end_log: self.end_log,
        })
    }
}

/// A copy of a list of jobs.
pub fn copy_jobs(alloc: Global, jobs: &List<Job>) -> Result<List<Job>, NoMemory>
    ensures { IfOk result (λ copy. copy ≡ jobs.now) }
{
    let mut copy = List::with_capacity(alloc, jobs.len())?;
    for job in jobs.as_slice() {
        copy.push(job.copy(alloc)?)?;
    }
    Ok(copy)
}
