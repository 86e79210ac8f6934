// One job is changed, and the others settle.
ghost use Rattle.std.specs.Prelude.{◌≡◌, ◌==◌, ◌<◌, All, AllPairs, length, position};
ghost use Rattle.std.specs.List.{list_all};
ghost use Rattle.bl_files.specs.Statuses.{is_completed};
ghost use Rattle.bl_queue.specs.Changes.{ended_job, with_job};
ghost use Rattle.bl_queue.specs.Doomed.{IsSettled};
ghost use Rattle.bl_queue.specs.Pass.{AreOrdered};
ghost use Rattle.bl_queue.specs.Runs.{cancelled_job, closed, job_after_feed, whole_status};

use crate::ending_feeds::{with_end, with_open_ended};
use crate::settling::settle;
use crate::{Job, JobStatus};
use bl_files::{Feed, FeedEnd, FeedStatus, Log};
use bl_outside::List;
use std::alloc::Global;
use std::mem;

/// The place of the job of this number.
pub fn place_of(jobs: &[Job], number: u32) -> Option<usize>
    ensures { result ≡ position (λ job. job.number == number) jobs.now }
{
    jobs.iter().position(|job| job.number == number)
}

// ---- a job ends

fn end_job(job: &mut Job, moment: u64, status: JobStatus, log: Option<Log>)
    ensures { job.new ≡ ended_job moment status log job.old }
{
    job.status = status;
    job.latest = moment;
    job.end_log = log;
}

fn end_one(jobs: &mut [Job], moment: u64, number: u32, status: JobStatus, log: Option<Log>)
    requires { AllPairs (λ a b. a.number < b.number) jobs.old }
    ensures { jobs.new ≡ with_job number (ended_job moment status log) jobs.old }
{
    if let Some(place) = place_of(jobs, number) {
        end_job(&mut jobs[place], moment, status, log);
    }
}

/// The job of this number ends, and the others settle.
pub fn with_ended(
    jobs: List<Job>,
    moment: u64,
    number: u32,
    status: JobStatus,
    log: Option<Log>,
) -> List<Job>
    requires rising { AllPairs (λ a b. a.number < b.number) jobs }
    requires ordered { AreOrdered (with_job number (ended_job moment status log) jobs) }
    ensures { IsSettled moment (with_job number (ended_job moment status log) jobs) result }
{
    let mut jobs = jobs.into_vec();
    end_one(&mut jobs, moment, number, status, log);
    settle(&mut jobs, moment);
    List::from_vec(jobs)
}

// ---- a job is cancelled

fn cancel_job(alloc: Global, job: &mut Job, moment: u64)
    ensures { job.new ≡ cancelled_job moment job.old }
{
    let feeds = mem::replace(&mut job.feeds, List::new(alloc));
    job.feeds = with_open_ended(feeds, FeedStatus::CancelledByUser);
    job.status = JobStatus::CancelledByUser;
    job.latest = moment;
}

fn cancel_one(alloc: Global, jobs: &mut [Job], moment: u64, number: u32)
    requires { AllPairs (λ a b. a.number < b.number) jobs.old }
    ensures { jobs.new ≡ with_job number (cancelled_job moment) jobs.old }
{
    if let Some(place) = place_of(jobs, number) {
        cancel_job(alloc, &mut jobs[place], moment);
    }
}

/// The job of this number is cancelled, and the others settle.
pub fn with_cancelled(alloc: Global, jobs: List<Job>, moment: u64, number: u32) -> List<Job>
    requires rising { AllPairs (λ a b. a.number < b.number) jobs }
    requires ordered { AreOrdered (with_job number (cancelled_job moment) jobs) }
    ensures { IsSettled moment (with_job number (cancelled_job moment) jobs) result }
{
    let mut jobs = jobs.into_vec();
    cancel_one(alloc, &mut jobs, moment, number);
    settle(&mut jobs, moment);
    List::from_vec(jobs)
}

// ---- a file of a job ends

fn is_whole(feeds: &[Feed]) -> bool
    ensures { result ≡ list_all (λ feed. is_completed feed.status) feeds.now }
{
    feeds.iter().all(|feed| feed.status.is_completed())
}

fn whole_status(feeds: &[Feed]) -> JobStatus
    ensures { result ≡ whole_status feeds.now }
{
    if is_whole(feeds) {
        JobStatus::Completed
    } else {
        JobStatus::Failed
    }
}

/// The job ends where each of its files has.
pub fn close(job: &mut Job)
    ensures { job.new ≡ closed job.old }
{
    if !job.has_open() {
        job.status = whole_status(job.feeds.as_slice());
    }
}

fn end_feed_of(alloc: Global, job: &mut Job, moment: u64, place: usize, end: FeedEnd)
    requires { place < length job.old.feeds }
    ensures { job.new ≡ job_after_feed moment place end job.old }
{
    let feeds = mem::replace(&mut job.feeds, List::new(alloc));
    job.feeds = with_end(feeds, job.request.fail_on_error, place, end);
    job.latest = moment;
    close(job);
}

fn end_one_feed(
    alloc: Global,
    jobs: &mut [Job],
    moment: u64,
    number: u32,
    place: usize,
    end: FeedEnd,
)
    requires rising { AllPairs (λ a b. a.number < b.number) jobs.old }
    requires place { All (λ job. job.number ≡ number → place < length job.feeds) jobs.old }
    ensures { jobs.new ≡ with_job number (job_after_feed moment place end) jobs.old }
{
    if let Some(found) = place_of(jobs, number) {
        end_feed_of(alloc, &mut jobs[found], moment, place, end);
    }
}

/// The file at a place of the job of this number ends, and the jobs settle.
pub fn with_feed_ended(
    alloc: Global,
    jobs: List<Job>,
    moment: u64,
    number: u32,
    place: usize,
    end: FeedEnd,
) -> List<Job>
    requires rising { AllPairs (λ a b. a.number < b.number) jobs }
    requires place { All (λ job. job.number ≡ number → place < length job.feeds) jobs }
    requires ordered { AreOrdered (with_job number (job_after_feed moment place end) jobs) }
    ensures { IsSettled moment (with_job number (job_after_feed moment place end) jobs) result }
{
    let mut jobs = jobs.into_vec();
    end_one_feed(alloc, &mut jobs, moment, number, place, end);
    settle(&mut jobs, moment);
    List::from_vec(jobs)
}
