// Calls of an engine, at the moment 0 and over the salt 0.
ghost use Rattle.std.specs.Prelude.{◌≡◌, ◌≢◌, ◌≤◌, true, length, IfSome, List as Items};
ghost use Rattle.bl_entry.specs.Valid.{IsPlan};
ghost use Rattle.bl_job.specs.Batched.{AreValidRows};
ghost use Rattle.bl_value.specs.declared.row.DigestRow.{DigestRow};
ghost use Rattle.bl_world.specs.Worlds.{ArePlanned};
ghost use Rattle.bl_engine.specs.Findings.{EndsFile, PlansWork, TakesRows};

use crate::test_loads::{one_file, one_row, request};
use bl_engine::{CancelRefusal, Engine, SubmitRefusal, Trouble, TurnRefusal, Turned, ViewRefusal};
use bl_files::{FeedEnd, FeedStatus, PlanResult};
use bl_outside::{FixedClock, List, MemoryDisk};
use bl_queue::JobStatus;
use bl_stream::{Iterator4, Page, PageAsk, PageRefusal};
use bl_value::DigestRow;
use bl_world::Work;
use std::alloc::Global;

/// The id of the first load (RFC 9562, version 4).
pub const ID_1: u128 = 0x0000_0000_0000_4000_8000_0000_0000_0001;

/// The id of the second one.
pub const ID_2: u128 = 0x0000_0000_0000_4000_8000_0000_0000_0002;

/// The first load is to be planned.
pub const PLAN: Work = Work::Plan {
    job: 1,
    previous: 0,
    no_previous: false,
};

/// Its first file begins.
pub const BEGIN: Work = Work::Continue {
    job: 1,
    feed: 1,
    from: 0,
};

/// One record of it is taken.
pub const GO_ON: Work = Work::Continue {
    job: 1,
    feed: 1,
    from: 1,
};

// ---- loads

pub fn submit(
    alloc: Global,
    engine: &mut Engine<MemoryDisk>,
    queue: bool,
) -> Result<u128, SubmitRefusal> {
    match request(alloc, queue) {
        Some(request) => engine.submit(&mut FixedClock::new(0), 0, request),
        None => Err(SubmitRefusal::NoMemory),
    }
}

pub fn cancel(engine: &mut Engine<MemoryDisk>, id: u128) -> Result<(), CancelRefusal> {
    engine.cancel(&mut FixedClock::new(0), id)
}

// ---- views

/// How many loads there are, and the first of the list.
pub fn listed(engine: &mut Engine<MemoryDisk>) -> Result<(usize, Option<u128>), Trouble> {
    let ids = engine.list(100, true)?;
    Ok((ids.len(), ids.as_slice().first().copied()))
}

pub fn status(engine: &mut Engine<MemoryDisk>, id: u128) -> Result<JobStatus, ViewRefusal> {
    let job = engine.status(id)?;
    Ok(job.status)
}

pub fn work(engine: &mut Engine<MemoryDisk>) -> Result<Work, Trouble> {
    let task = engine.task()?;
    Ok(task.work)
}

/// A page of at most ten events.
pub fn page(engine: &mut Engine<MemoryDisk>, iterator: Iterator4) -> Result<Page, PageRefusal> {
    let limit = 10;
    engine.page(&PageAsk { iterator, limit })
}

/// A page of one event.
pub fn short_page(
    engine: &mut Engine<MemoryDisk>,
    iterator: Iterator4,
) -> Result<Page, PageRefusal> {
    let limit = 1;
    engine.page(&PageAsk { iterator, limit })
}

// ---- turns

// Whether the work is a plan that goes on with a load, where it is to.
fn is_plan(work: Work) -> bool
    ensures { result ≡ true → (planned : PlanResult) → IsPlan planned → ArePlanned planned
        → planned ≢ PlanResult.NoPrevious → PlansWork work planned }
{
    match work {
        Work::Plan { no_previous, .. } => !no_previous,
        Work::Idle | Work::Continue { .. } => false,
    }
}

// The names of the files rise, and those that aren't read have codes of files.
fn are_planned(files: &PlanResult) -> bool
    ensures { result ≡ true → ArePlanned files.now }
{
    files.has_rising_names() && files.has_file_codes()
}

/// The work is planned so.
pub fn plan(
    engine: &mut Engine<MemoryDisk>,
    work: Work,
    files: PlanResult,
) -> Result<Turned, TurnRefusal>
    requires valid { IsPlan files }
    requires files { files ≢ PlanResult.NoPrevious }
{
    if !is_plan(work) {
        return Err(TurnRefusal::Stale(work));
    }
    if !are_planned(&files) {
        return Err(TurnRefusal::NoMemory);
    }
    engine.commit_plan(&mut FixedClock::new(0), work, files)
}

// Whether the work is a file, at one of its first records.
fn goes_on(work: Work) -> bool
    ensures { result ≡ true → (rows : Items DigestRow) → 1 ≤ length rows → length rows ≤ 2
        → AreValidRows rows → TakesRows work rows }
{
    match work {
        Work::Continue { from, .. } => from < 1000,
        Work::Idle | Work::Plan { .. } => false,
    }
}

/// Rows of the file are taken.
pub fn take(
    engine: &mut Engine<MemoryDisk>,
    work: Work,
    rows: List<DigestRow>,
) -> Result<Turned, TurnRefusal>
    requires some { 1 ≤ length rows }
    requires few { length rows ≤ 2 }
    requires rows { AreValidRows rows }
{
    if !goes_on(work) {
        return Err(TurnRefusal::Stale(work));
    }
    engine.commit_rows(&mut FixedClock::new(0), work, rows)
}

// Whether the work is a file.
fn is_file(work: Work) -> bool
    ensures { result ≡ true → EndsFile work FeedEnd.Completed }
{
    matches!(work, Work::Continue { .. })
}

/// The file is completed.
pub fn end_file(engine: &mut Engine<MemoryDisk>, work: Work) -> Result<Turned, TurnRefusal> {
    if !is_file(work) {
        return Err(TurnRefusal::Stale(work));
    }
    engine.commit_end(&mut FixedClock::new(0), work, FeedEnd::Completed)
}

/// One file is planned.
pub fn plan_one(
    alloc: Global,
    engine: &mut Engine<MemoryDisk>,
    work: Work,
) -> Result<Turned, TurnRefusal> {
    match one_file(alloc) {
        Some(files) => plan(engine, work, files),
        None => Err(TurnRefusal::NoMemory),
    }
}

/// One row is taken.
pub fn take_one(
    alloc: Global,
    engine: &mut Engine<MemoryDisk>,
    work: Work,
) -> Result<Turned, TurnRefusal> {
    match one_row(alloc) {
        Some(rows) => take(engine, work, rows),
        None => Err(TurnRefusal::NoMemory),
    }
}

// ---- the calls that append

/// How a call came out.
#[derive(Clone, Copy, Debug, PartialEq, Eq)]
pub enum Came {
    Done,
    Faulted,
    Otherwise,
}

fn submitted(answer: Result<u128, SubmitRefusal>, id: u128) -> Came {
    match answer {
        Ok(given) if given == id => Came::Done,
        Err(SubmitRefusal::StoreFault) => Came::Faulted,
        _ => Came::Otherwise,
    }
}

fn turned(answer: Result<Turned, TurnRefusal>, wanted: Turned) -> Came {
    match answer {
        Ok(told) if told == wanted => Came::Done,
        Err(TurnRefusal::StoreFault) => Came::Faulted,
        _ => Came::Otherwise,
    }
}

fn cancelled(answer: Result<(), CancelRefusal>) -> Came {
    match answer {
        Ok(()) => Came::Done,
        Err(CancelRefusal::StoreFault) => Came::Faulted,
        Err(_) => Came::Otherwise,
    }
}

/// How many calls there are in turn.
pub const CALLS: u64 = 6;

/// The call of this number, from 0: a load is taken on, planned, its row taken and its file ended,
/// and a second load is taken on and cancelled.
pub fn call(alloc: Global, engine: &mut Engine<MemoryDisk>, number: u64) -> Came {
    match number {
        0 => submitted(submit(alloc, engine, false), ID_1),
        1 => turned(plan_one(alloc, engine, PLAN), Turned::Planned),
        2 => turned(take_one(alloc, engine, BEGIN), Turned::Rows(1)),
        3 => turned(
            end_file(engine, GO_ON),
            Turned::Ended(FeedStatus::Completed),
        ),
        4 => submitted(submit(alloc, engine, false), ID_2),
        _ => cancelled(cancel(engine, ID_2)),
    }
}

/// The calls in turn up to the first that isn't done, and how many are done.
pub fn calls_done(alloc: Global, engine: &mut Engine<MemoryDisk>) -> u64 {
    for number in 0..CALLS {
        if call(alloc, engine, number) != Came::Done {
            return number;
        }
    }
    CALLS
}
