// What the tests of turns read: files that are made, and what became of a load.

use crate::test_loader::{Loader, id, one_turn, submit};
use bl_engine::Turned;
use bl_files::{FeedStatus, Mode};
use bl_load::TurnFault;
use bl_outside::{List, NoMemory, Text};
use bl_queue::Job;
use bl_value::LogCode;
use bl_world::JobCommit;
use std::alloc::Global;
use std::process::Abort;
use std::thread::Threads;

// ---- files

/// A header, then so many records `v1,1`, `v2,2` and so on, of which one has this age (or none, for
/// 0).
pub fn people(alloc: Global, count: u32, odd: u32, age: &str) -> Result<Text, NoMemory> {
    let mut bytes = Text::of_str(alloc, "~id,age:Int\n")?;
    for number in 1..=count {
        let row = if number == odd {
            format!(in alloc; "v{number},{age}\n")?
        } else {
            format!(in alloc; "v{number},{number}\n")?
        };
        bytes.extend(row.as_bytes())?;
    }
    Ok(bytes)
}

// A record with this id and so many numbers.
fn add_numbers(alloc: Global, bytes: &mut Text, id: u32, count: u32) -> Result<(), NoMemory> {
    bytes.extend(format!(in alloc; "v{id},0")?.as_bytes())?;
    for number in 1..count {
        bytes.extend(format!(in alloc; ";{number}")?.as_bytes())?;
    }
    bytes.push(b'\n')
}

/// Five records, of which the first has so many values and each other 4,096.
pub fn numbers(alloc: Global, first: u32) -> Result<Text, NoMemory> {
    let mut bytes = Text::of_str(alloc, "~id,n:Int[]\n")?;
    add_numbers(alloc, &mut bytes, 1, first)?;
    for id in 2..6 {
        add_numbers(alloc, &mut bytes, id, 4096)?;
    }
    Ok(bytes)
}

// ---- turns

fn status_text(status: FeedStatus) -> &'static str {
    match status {
        FeedStatus::NotStarted => "waits",
        FeedStatus::InProgress => "runs",
        FeedStatus::Completed => "completed",
        FeedStatus::Failed => "failed",
        FeedStatus::ReadError => "read error",
        FeedStatus::Modified => "modified",
        FeedStatus::CancelledDueToErrors => "cut",
        FeedStatus::CancelledByUser => "cancelled",
    }
}

fn turned_text(alloc: Global, turned: Result<Turned, TurnFault>) -> Result<String, NoMemory> {
    match turned {
        Ok(Turned::Idle) => Ok(String::from_str(alloc, "idle; ")?),
        Ok(Turned::Planned) => Ok(String::from_str(alloc, "planned; ")?),
        Ok(Turned::Rows(rows)) => Ok(format!(in alloc; "{rows} rows; ")?),
        Ok(Turned::Ended(status)) => Ok(format!(in alloc; "{}; ", status_text(status))?),
        Err(_) => Ok(String::from_str(alloc, "fault; ")?),
    }
}

// Makes a turn, and tells what it came to. True where nothing was to be done.
fn turn_text<R: Threads + Sync + Abort>(
    rt: &R,
    alloc: Global,
    loader: &mut Loader,
    text: &mut String,
) -> bool {
    let turned = one_turn(rt, alloc, loader);
    let came = turned_text(alloc, turned).expect(rt, "memory");
    text.push_str(came.as_str()).expect(rt, "memory");
    turned == Ok(Turned::Idle)
}

/// So many turns, or as many as there are, come to this.
pub fn turns<R: Threads + Sync + Abort>(
    rt: &R,
    alloc: Global,
    loader: &mut Loader,
    most: u32,
    want: &str,
) {
    let mut text = String::new(alloc);
    for _turn in 0..most {
        if turn_text(rt, alloc, loader, &mut text) {
            break;
        }
    }
    assert!(rt; text.as_str() == want, "{text} and not {want}");
}

/// A load that is asked for comes to these turns. It stops at an error, or not.
pub fn loads<R: Threads + Sync + Abort>(
    rt: &R,
    alloc: Global,
    loader: &mut Loader,
    mode: Mode,
    stops: bool,
    want: &str,
) {
    submit(rt, alloc, loader, mode, stops);
    turns(rt, alloc, loader, 20, want);
}

// ---- what became of it

// Each file of a job as its name, its status and its records taken.
fn feeds_text(alloc: Global, job: &Job) -> Result<String, NoMemory> {
    let mut text = String::new(alloc);
    for feed in job.feeds.as_slice() {
        let name = str::from_utf8(feed.name.as_slice()).unwrap_or("?");
        let status = status_text(feed.status);
        let taken = feed.taken;
        text.push_str(format!(in alloc; "{name} {status} {taken}; ")?.as_str())?;
    }
    Ok(text)
}

/// The load of this number has these files, each with its status and its records taken.
pub fn files<R: Abort>(rt: &R, alloc: Global, loader: &mut Loader, number: u32, want: &str) {
    let job = loader.engine.status(id(number)).expect(rt, "kept");
    let text = feeds_text(alloc, &job).expect(rt, "memory");
    assert!(rt; text.as_str() == want, "{text} and not {want}");
}

/// The load of this number has so many files, and ended for no cause but theirs.
pub fn has_feeds<R: Abort>(rt: &R, loader: &mut Loader, number: u32, count: usize) {
    let job = loader.engine.status(id(number)).expect(rt, "kept");
    assert!(rt; job.feeds.len() == count && job.end_log.is_none());
}

/// The load of this number ended for this cause, and not for one of a file.
pub fn ends_by<R: Abort>(rt: &R, loader: &mut Loader, number: u32, code: LogCode) {
    let job = loader.engine.status(id(number)).expect(rt, "kept");
    let log = job.end_log.expect(rt, "a cause");
    assert!(rt; log.code == code && job.feeds.is_empty());
}

fn sizes_text(alloc: Global, commits: &List<JobCommit>) -> Result<String, NoMemory> {
    let mut text = String::new(alloc);
    for commit in commits.as_slice() {
        let changes = commit.changes.len();
        text.push_str(format!(in alloc; "{changes}; ")?.as_str())?;
    }
    Ok(text)
}

/// The commits have so many changes each.
pub fn commits<R: Abort>(rt: &R, alloc: Global, loader: &Loader, want: &str) {
    let text = sizes_text(alloc, loader.engine.commits()).expect(rt, "memory");
    assert!(rt; text.as_str() == want, "{text} and not {want}");
}
