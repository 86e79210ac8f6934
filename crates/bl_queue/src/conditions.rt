// Whether what befalls a job may befall it.
ghost use Rattle.std.specs.Prelude.{◌≡◌, ◌↔◌, ◌+◌, ◌<◌, true, IsSomeAnd, IsTrue, slice_get};
ghost use Rattle.bl_files.specs.Statuses.{is_open};
ghost use Rattle.bl_queue.specs.Limits.{record_limit};
ghost use Rattle.bl_queue.specs.Rows.{MayTakeRows};
ghost use Rattle.bl_queue.specs.Runs.{MayCancel, MayEnd, MayEndFeed, MayStart};

use crate::searching::{front_of, job_of};
use crate::taking_rows::RECORD_LIMIT;
use crate::{Job, JobStatus};
use bl_files::Feed;

pub fn may_cancel(jobs: &[Job], number: u32) -> bool
    ensures { IsTrue result ↔ MayCancel jobs.now number }
{
    match job_of(jobs, number) {
        Some(job) => job.is_unended(),
        None => false,
    }
}

pub fn may_end(jobs: &[Job], number: u32) -> bool
    ensures { IsTrue result ↔ MayEnd jobs.now number }
{
    match job_of(jobs, number) {
        Some(job) => job.is_unended() && !job.has_open(),
        None => false,
    }
}

pub fn may_start(jobs: &[Job], number: u32) -> bool
    ensures { IsTrue result ↔ MayStart jobs.now number }
{
    match front_of(jobs) {
        Some(job) => job.number == number && job.status == JobStatus::NotStarted,
        None => false,
    }
}

fn is_open_at(feeds: &[Feed], place: usize) -> bool
    ensures { IsTrue result ↔ IsSomeAnd (slice_get feeds.now place) (λ feed.
        is_open feed.status ≡ true) }
{
    match feeds.get(place) {
        Some(feed) => feed.status.is_open(),
        None => false,
    }
}

pub fn may_end_feed(jobs: &[Job], number: u32, feed: u32) -> bool
    ensures { IsTrue result ↔ MayEndFeed jobs.now number feed }
{
    if feed == 0 {
        return false;
    }
    match front_of(jobs) {
        Some(job) => job.number == number && is_open_at(job.feeds.as_slice(), feed as usize - 1),
        None => false,
    }
}

fn can_take(feeds: &[Feed], place: usize, rows: u32) -> bool
    ensures { IsTrue result ↔ IsSomeAnd (slice_get feeds.now place) (λ feed.
        (is_open feed.status ≡ true) × (feed.taken + rows < record_limit)) }
{
    match feeds.get(place) {
        Some(feed) => feed.status.is_open() && feed.taken < RECORD_LIMIT - rows as u64,
        None => false,
    }
}

pub fn may_take_rows(
    jobs: &[Job],
    number: u32,
    feed: u32,
    rows: u32,
    duplicates: u32,
    logs: usize,
) -> bool
    ensures { IsTrue result ↔ MayTakeRows jobs.now number feed rows duplicates logs }
{
    if feed == 0 || logs > rows as usize || duplicates as usize > rows as usize - logs {
        return false;
    }
    match front_of(jobs) {
        Some(job) => {
            job.number == number && can_take(job.feeds.as_slice(), feed as usize - 1, rows)
        }
        None => false,
    }
}
