// Loads that are asked for, started, fed and ended.
use bl_files::{FeedEnd, FeedKind, FeedStatus, Found, LoadRequest, Log, Mode, PlanResult};
use bl_outside::{Digest, List, NoMemory, Text};
use bl_queue::{CheckRefusal, JobStatus, Jobs};
use bl_value::LogCode;
use std::alloc::Global;

// A load of a source that depends on the loads of these ids.
pub fn request(alloc: Global, queue: bool, ids: &[u128]) -> Result<LoadRequest, NoMemory> {
    request_of(alloc, "s3://bucket/key", queue, ids)
}

pub fn request_of(
    alloc: Global,
    source: &str,
    queue: bool,
    ids: &[u128],
) -> Result<LoadRequest, NoMemory> {
    let mut dependencies = List::new(alloc);
    dependencies.extend(ids)?;
    Ok(LoadRequest {
        source: Text::of_str(alloc, source)?,
        format: 0,
        mode: Mode::Auto,
        fail_on_error: true,
        update_single: false,
        parallelism: 3,
        queue,
        dependencies,
    })
}

// The load is taken on, and its number is its id too. None: memory ran out.
pub fn ask(jobs: &mut Jobs, request: LoadRequest) -> Result<Option<u32>, CheckRefusal> {
    jobs.check(&request)?;
    let id = jobs.last() as u128 + 1;
    if !jobs.has_next_number(id) {
        return Ok(None);
    }
    Ok(jobs.submit(7, id, request).ok())
}

pub fn ask_with(alloc: Global, jobs: &mut Jobs, ids: &[u128]) -> Result<Option<u32>, CheckRefusal> {
    match request(alloc, true, ids) {
        Ok(request) => ask(jobs, request),
        Err(NoMemory) => Ok(None),
    }
}

pub fn fail(jobs: &mut Jobs, moment: u64, number: u32) -> bool {
    if jobs.may_end(number) {
        let log = Log {
            code: LogCode::SourceNotFound,
            number: 0,
            column: 0,
        };
        jobs.end(moment, number, JobStatus::Failed, Some(log));
        true
    } else {
        false
    }
}

pub fn complete(jobs: &mut Jobs, number: u32) -> bool {
    if jobs.may_end(number) {
        jobs.end(9, number, JobStatus::Completed, None);
        true
    } else {
        false
    }
}

pub fn status_of(jobs: &Jobs, number: u32) -> Option<JobStatus> {
    jobs.job(number).map(|job| job.status)
}

pub fn file(alloc: Global, name: &str, kind: FeedKind) -> Result<Found, NoMemory> {
    Ok(Found {
        name: Text::of_str(alloc, name)?,
        kind,
        digest: Digest { bytes: [1; 32] },
    })
}

// The files a and b, the first of this kind.
pub fn two_files_of(alloc: Global, kind: FeedKind) -> Result<PlanResult, NoMemory> {
    let mut found = List::new(alloc);
    found.push(file(alloc, "a", kind)?)?;
    found.push(file(alloc, "b", FeedKind::Vertex)?)?;
    Ok(PlanResult::Feeds(found))
}

pub fn two_files(alloc: Global) -> Result<PlanResult, NoMemory> {
    two_files_of(alloc, FeedKind::Vertex)
}

pub fn no_files(alloc: Global) -> PlanResult {
    PlanResult::Feeds(List::new(alloc))
}

// The job is the next to start, and is started.
pub fn start(jobs: &mut Jobs, number: u32, plan: &PlanResult) -> bool {
    if !plan.has_rising_names() || !plan.has_file_codes() || !jobs.may_start(number) {
        return false;
    }
    match jobs.has_room(number, plan) {
        Ok(true) => jobs.start(20, number, plan).is_ok(),
        _ => false,
    }
}

// The file of this number, counted from 1, is one that hasn't ended, and ends.
pub fn end_feed(jobs: &mut Jobs, number: u32, feed: u32, end: FeedEnd) -> bool {
    if jobs.may_end_feed(number, feed) {
        jobs.end_feed(30, number, feed, end);
        true
    } else {
        false
    }
}

pub fn feed_status(jobs: &Jobs, number: u32, place: usize) -> Option<FeedStatus> {
    match jobs.job(number) {
        Some(job) => job.feeds.get(place).map(|feed| feed.status),
        None => None,
    }
}

pub fn cancel(jobs: &mut Jobs, number: u32) -> bool {
    if jobs.may_cancel(number) {
        jobs.cancel(40, number);
        true
    } else {
        false
    }
}

// The file of this number, counted from 1, takes rows.
pub fn take(
    jobs: &mut Jobs,
    number: u32,
    feed: u32,
    rows: u32,
    duplicates: u32,
    logs: &List<Log>,
) -> bool {
    let digest = Digest { bytes: [9; 32] };
    if jobs.may_take_rows(number, feed, rows, duplicates, logs.len()) {
        jobs.rows(50, number, feed, rows, digest, duplicates, logs)
            .is_ok()
    } else {
        false
    }
}

// As many logs, of records numbered from 1.
pub fn many_logs(alloc: Global, number: u64) -> Result<List<Log>, NoMemory> {
    let mut logs = List::new(alloc);
    for i in 0..number {
        logs.push(Log {
            code: LogCode::OutOfRange,
            number: i + 1,
            column: 2,
        })?;
    }
    Ok(logs)
}

// A job of the files a and b of this source has started, and stops at errors where it is to.
pub fn running(alloc: Global, fail_on_error: bool) -> Result<Option<Jobs>, NoMemory> {
    let mut jobs = Jobs::new(alloc);
    let mut request = request_of(alloc, "s3://b/k", true, &[])?;
    request.fail_on_error = fail_on_error;
    let plan = two_files(alloc)?;
    if ask(&mut jobs, request) == Ok(Some(1)) && start(&mut jobs, 1, &plan) {
        Ok(Some(jobs))
    } else {
        Ok(None)
    }
}
