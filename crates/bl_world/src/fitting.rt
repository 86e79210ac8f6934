// Whether an entry may follow, as far as the kept jobs know.
ghost use Rattle.std.specs.Prelude.{
  ◌≡◌,
  ◌↔◌,
  ℕ,
  ◌+◌,
  ◌<◌,
  ◌≤◌,
  ◌^◌,
  true,
  None,
  [],
  length,
  All,
  AllPairs,
  IfOk,
  IfSome,
  IsSomeAnd,
  IsTrue,
};
ghost use Rattle.bl_files.specs.declared.feed.Feed.{Feed as Fed};
ghost use Rattle.bl_files.specs.Codes.{is_row_code};
ghost use Rattle.bl_queue.specs.declared.job.Job.{Job as Known};
ghost use Rattle.bl_queue.specs.Checks.{refusal};
ghost use Rattle.bl_queue.specs.Jobs.{front_job, number_in};
ghost use Rattle.bl_world.specs.Following.{
  AreCounted,
  AreRowLogs,
  FitsFile,
  FitsJobs,
  FitsRows,
  MayBePlanned,
};
ghost use Rattle.bl_world.specs.Worlds.{
  AreNext,
  FitsEnd,
  FitsStart,
  MayStop,
  is_resume,
  lacks_previous,
  moment_of,
};

use crate::working::first_open;
use bl_entry::{Entry, MOST_ROWS};
use bl_files::{Feed, FeedEnd, LoadRequest, Log, Mode, PlanResult, is_row_code};
use bl_outside::{List, NoMemory};
use bl_queue::{Job, JobStatus, Jobs, RECORD_LIMIT};

// ---- a load is taken on

fn is_next_number(jobs: &Jobs, job: u32) -> bool
    ensures { IsTrue result ↔ (job ≡ jobs.now.last + 1) }
{
    job > 0 && job - 1 == jobs.last()
}

fn is_taken_on(jobs: &Jobs, request: &LoadRequest) -> bool
    ensures { IsTrue result ↔ (refusal jobs.now request.now ≡ None) }
{
    match jobs.check(request) {
        Ok(()) => true,
        Err(_) => false,
    }
}

pub fn fits_submit(jobs: &Jobs, job: u32, id: u128, request: &LoadRequest) -> bool
    ensures { IsTrue result ↔ ((job ≡ jobs.now.last + 1) × (number_in id ≡ job)
        × (refusal jobs.now request.now ≡ None)) }
{
    is_next_number(jobs, job) && jobs.has_next_number(id) && is_taken_on(jobs, request)
}

// ---- a job is started

fn is_resume(mode: Mode) -> bool
    ensures { result ≡ is_resume mode }
{
    matches!(mode, Mode::Resume)
}

/// The job is to go on from a load, and there is none.
pub fn lacks_previous(jobs: &Jobs, job: &Job) -> bool
    ensures { result ≡ lacks_previous jobs.now.jobs job.now }
{
    is_resume(job.request.mode) && jobs.goes_on_from(job.number).is_none()
}

fn is_no_previous(plan: &PlanResult) -> bool
    ensures { IsTrue result ↔ (plan.now ≡ PlanResult.NoPrevious) }
{
    matches!(plan, PlanResult::NoPrevious)
}

fn says_what_lacks(jobs: &Jobs, job: &Job, plan: &PlanResult) -> bool
    ensures { IsTrue result ↔ ((plan.now ≡ PlanResult.NoPrevious)
        ↔ (lacks_previous jobs.now.jobs job.now ≡ true)) }
{
    if is_no_previous(plan) {
        lacks_previous(jobs, job)
    } else {
        !lacks_previous(jobs, job)
    }
}

fn may_be_planned(jobs: &Jobs, job: u32, plan: &PlanResult) -> bool
    ensures { IsTrue result ↔ IsSomeAnd (front_job jobs.now.jobs)
        (MayBePlanned jobs.now.jobs job plan.now) }
{
    match jobs.front_job() {
        Some(it) => {
            it.number == job
                && it.status == JobStatus::NotStarted
                && says_what_lacks(jobs, it, plan)
        }
        None => false,
    }
}

pub fn fits_start(jobs: &Jobs, job: u32, plan: &PlanResult) -> Result<bool, NoMemory>
    ensures { IfOk result (λ fits. IsTrue fits ↔ FitsStart jobs.now job plan.now) }
{
    if !may_be_planned(jobs, job, plan) || !plan.has_rising_names() || !plan.has_file_codes() {
        return Ok(false);
    }
    jobs.has_room(job, plan)
}

// ---- rows are taken, or a file ends

/// The first job that hasn't ended and its first file that hasn't, where they are these.
pub fn next_feed(jobs: &Jobs, job: u32, feed: u32) -> Option<(&Job, &Feed)>
    ensures is { IfSome result (λ found.
        AreNext jobs.now.jobs job feed found.0.now found.1.now) }
    ensures none { result ≡ None → (it : Known) (of : Fed)
        → ¬ AreNext jobs.now.jobs job feed it of }
{
    let it = jobs.front_job()?;
    let (place, of) = first_open(it.feeds.as_slice())?;
    if it.number == job && feed > 0 && place == feed as usize - 1 {
        Some((it, of))
    } else {
        None
    }
}

fn are_counted(from: u64, rows: u32, duplicates: u32, logs: usize) -> bool
    ensures { IsTrue result ↔ AreCounted from rows duplicates logs }
{
    rows >= 1
        && rows <= MOST_ROWS
        && from < RECORD_LIMIT - rows as u64
        && logs <= rows as usize
        && duplicates as usize <= rows as usize - logs
}

fn have_row_codes(logs: &[Log]) -> bool
    ensures { IsTrue result ↔ All (λ log. is_row_code log.code ≡ true) logs.now }
{
    logs.iter().all(|log| is_row_code(log.code))
}

fn are_within(from: u64, rows: u32, logs: &[Log]) -> bool
    requires { from + rows < 2 ^ 48 }
    ensures { IsTrue result ↔ All (λ log.
        (from < log.number) × (log.number ≤ from + rows)) logs.now }
{
    let last = from + rows as u64;
    logs.iter()
        .all(|log| from < log.number && log.number <= last)
}

fn numbers_rise(logs: &[Log]) -> bool
    ensures { IsTrue result ↔ AllPairs (λ a b. a.number < b.number) logs.now }
{
    for i in 1..logs.len() {
        if logs[i - 1].number >= logs[i].number {
            return false;
        }
    }
    true
}

fn are_row_logs(from: u64, rows: u32, logs: &[Log]) -> bool
    requires { from + rows < 2 ^ 48 }
    ensures { IsTrue result ↔ AreRowLogs from rows logs.now }
{
    have_row_codes(logs) && numbers_rise(logs) && are_within(from, rows, logs)
}

fn may_log(job: &Job, logs: &[Log]) -> bool
    ensures { IsTrue result ↔ (job.now.request.fail_on_error ≡ true → logs.now ≡ []) }
{
    !job.request.fail_on_error || logs.is_empty()
}

fn fits_file(it: &Job, of: &Feed, from: u64, rows: u32, duplicates: u32, logs: &[Log]) -> bool
    ensures { IsTrue result ↔ FitsFile from rows duplicates logs.now it.now of.now }
{
    from == of.taken
        && are_counted(from, rows, duplicates, logs.len())
        && are_row_logs(from, rows, logs)
        && may_log(it, logs)
}

pub fn fits_rows(
    jobs: &Jobs,
    job: u32,
    feed: u32,
    from: u64,
    rows: u32,
    duplicates: u32,
    logs: &[Log],
) -> bool
    ensures { IsTrue result ↔ FitsRows jobs.now job feed from rows duplicates logs.now }
{
    match next_feed(jobs, job, feed) {
        Some((it, of)) => fits_file(it, of, from, rows, duplicates, logs),
        None => false,
    }
}

fn may_stop(job: &Job, feed: &Feed, end: FeedEnd) -> bool
    ensures { IsTrue result ↔ MayStop job.now feed.now end }
{
    match end {
        FeedEnd::Stopped(log) => {
            job.request.fail_on_error
                && is_row_code(log.code)
                && log.number > 0
                && log.number - 1 == feed.taken
        }
        _ => true,
    }
}

pub fn fits_end(jobs: &Jobs, job: u32, feed: u32, end: FeedEnd) -> bool
    ensures { IsTrue result ↔ FitsEnd jobs.now job feed end }
{
    match next_feed(jobs, job, feed) {
        Some((it, of)) => may_stop(it, of, end),
        None => false,
    }
}

// ---- any entry

pub fn moment_of(entry: &Entry) -> u64
    ensures { result ≡ moment_of entry.now }
{
    match entry {
        Entry::Submit { moment, .. } => *moment,
        Entry::Cancel { moment, .. } => *moment,
        Entry::Start { moment, .. } => *moment,
        Entry::Batch { moment, .. } => *moment,
        Entry::FeedEnd { moment, .. } => *moment,
    }
}

/// The rule of the entry's kind holds, but for its changes.
pub fn fits(jobs: &Jobs, entry: &Entry) -> Result<bool, NoMemory>
    ensures { IfOk result (λ fits. IsTrue fits ↔ FitsJobs jobs.now entry.now) }
{
    match entry {
        Entry::Submit {
            job,
            id,
            request,
            ..
        } => Ok(fits_submit(jobs, *job, *id, request)),
        Entry::Cancel { job, .. } => Ok(jobs.may_cancel(*job)),
        Entry::Start { job, plan, .. } => fits_start(jobs, *job, plan),
        Entry::Batch {
            job,
            feed,
            from,
            rows,
            duplicates,
            logs,
            ..
        } => Ok(fits_rows(
            jobs,
            *job,
            *feed,
            *from,
            *rows,
            *duplicates,
            logs.as_slice(),
        )),
        Entry::FeedEnd { job, feed, end, .. } => Ok(fits_end(jobs, *job, *feed, *end)),
    }
}
