// What calls answer over a store whose disks work.
use crate::test_calls::{
    BEGIN, GO_ON, ID_1, ID_2, cancel, end_file, listed, page, plan, plan_one, short_page, status,
    submit, take, take_one, work,
};
use crate::test_loads::{one_edge, two_files, two_vertices};
use crate::test_stores::new_engine;
use bl_engine::{CancelRefusal, Engine, SubmitRefusal, TurnRefusal, Turned, ViewRefusal};
use bl_files::FeedStatus;
use bl_outside::{Faults, MemoryDisk};
use bl_queue::JobStatus;
use bl_stream::{Iterator4, Page, PageRefusal};
use bl_world::Work;
use std::alloc::Global;
use std::process::Abort;

// ---- loads

// Loads that may not wait, and then one that may.
fn loads_come<R: Abort>(rt: &R, alloc: Global, engine: &mut Engine<MemoryDisk>) {
    assert!(rt; submit(alloc, engine, false) == Ok(ID_1));
    assert!(rt; submit(alloc, engine, false) == Err(SubmitRefusal::Busy(ID_1)));
    assert!(rt; submit(alloc, engine, true) == Ok(ID_2));
    assert!(rt; engine.seq() == 2);
}

// A load is cancelled, once and again.
fn load_is_cancelled<R: Abort>(rt: &R, alloc: Global, engine: &mut Engine<MemoryDisk>) {
    let by_user = JobStatus::CancelledByUser;
    assert!(rt; submit(alloc, engine, false) == Ok(ID_1));
    assert!(rt; cancel(engine, ID_1) == Ok(()));
    assert!(rt; cancel(engine, ID_1) == Err(CancelRefusal::Ended(by_user)));
    assert!(rt; status(engine, ID_1) == Ok(by_user));
    assert!(rt; cancel(engine, ID_2) == Err(CancelRefusal::Unknown));
    assert!(rt; status(engine, ID_2) == Err(ViewRefusal::Unknown));
}

// ---- turns

// A load of one file, of which one row is taken.
fn take_first<R: Abort>(rt: &R, alloc: Global, engine: &mut Engine<MemoryDisk>) {
    assert!(rt; submit(alloc, engine, false) == Ok(ID_1));
    let next = work(engine).expect(rt, "work");
    assert!(rt; plan_one(alloc, engine, next) == Ok(Turned::Planned));
    assert!(rt; work(engine) == Ok(BEGIN));
    assert!(rt; take_one(alloc, engine, BEGIN) == Ok(Turned::Rows(1)));
    assert!(rt; work(engine) == Ok(GO_ON));
}

fn load_ends<R: Abort>(rt: &R, alloc: Global, engine: &mut Engine<MemoryDisk>) {
    take_first(rt, alloc, engine);
    assert!(rt; end_file(engine, GO_ON) == Ok(Turned::Ended(FeedStatus::Completed)));
    assert!(rt; status(engine, ID_1) == Ok(JobStatus::Completed));
    assert!(rt; work(engine) == Ok(Work::Idle));
    assert!(rt; engine.seq() == 4);
}

// Rows are handed in for a file that has gone on, and for a load that was cancelled meanwhile.
fn work_is_stale<R: Abort>(rt: &R, alloc: Global, engine: &mut Engine<MemoryDisk>) {
    take_first(rt, alloc, engine);
    assert!(rt; take_one(alloc, engine, BEGIN) == Err(TurnRefusal::Stale(GO_ON)));
    assert!(rt; cancel(engine, ID_1) == Ok(()));
    assert!(rt; take_one(alloc, engine, GO_ON) == Err(TurnRefusal::Stale(Work::Idle)));
    assert!(rt; engine.seq() == 4);
}

// ---- pages

// Two vertices are loaded, and then an edge between them. None where a turn is refused.
fn load_graph(alloc: Global, engine: &mut Engine<MemoryDisk>) -> Option<()> {
    submit(alloc, engine, false).ok()?;
    let next = work(engine).ok()?;
    plan(engine, next, two_files(alloc)?).ok()?;
    let next = work(engine).ok()?;
    take(engine, next, two_vertices(alloc)?).ok()?;
    let next = work(engine).ok()?;
    end_file(engine, next).ok()?;
    let next = work(engine).ok()?;
    take(engine, next, one_edge(alloc)?).ok()?;
    Some(())
}

// The events of the page are these: the commit, the operation, and whether it is the last of the
// commit.
fn has(page: &Page, wanted: &[(u64, u64, bool)]) -> bool {
    if page.events.len() != wanted.len() {
        return false;
    }
    for (event, want) in page.events.as_slice().iter().zip(wanted) {
        if event.commit != want.0 || event.op != want.1 || event.last != want.2 {
            return false;
        }
    }
    true
}

fn shows(answer: Result<Page, PageRefusal>, wanted: &[(u64, u64, bool)]) -> bool {
    match answer {
        Ok(page) => has(&page, wanted),
        Err(_) => false,
    }
}

fn page_has(
    engine: &mut Engine<MemoryDisk>,
    iterator: Iterator4,
    wanted: &[(u64, u64, bool)],
) -> bool {
    shows(page(engine, iterator), wanted)
}

fn short_page_has(
    engine: &mut Engine<MemoryDisk>,
    iterator: Iterator4,
    wanted: (u64, u64, bool),
) -> bool {
    shows(short_page(engine, iterator), &[wanted])
}

fn no_page(engine: &mut Engine<MemoryDisk>, iterator: Iterator4) -> bool {
    short_page(engine, iterator).err() == Some(PageRefusal::NoRecords)
}

fn pages_are_read<R: Abort>(rt: &R, alloc: Global, engine: &mut Engine<MemoryDisk>) {
    assert!(rt; no_page(engine, Iterator4::Latest));
    load_graph(alloc, engine).expect(rt, "a load");
    let all = [(1, 1, false), (1, 2, true), (2, 1, true)];
    assert!(rt; page_has(engine, Iterator4::TrimHorizon, &all));
    assert!(rt; page_has(engine, Iterator4::Latest, &all[2..]));
    assert!(rt; page_has(engine, Iterator4::At(1, 999), &all[2..]));
    assert!(rt; page_has(engine, Iterator4::After(1, 1), &all[1..]));
    assert!(rt; short_page_has(engine, Iterator4::TrimHorizon, (1, 1, false)));
    assert!(rt; short_page_has(engine, Iterator4::At(1, 2), (1, 2, true)));
    assert!(rt; no_page(engine, Iterator4::After(2, 1)));
}

// ---- over a new store

#[derive(Clone, Copy, Debug)]
enum Story {
    LoadsCome,
    LoadIsCancelled,
    LoadEnds,
    WorkIsStale,
    PagesAreRead,
}

fn tell<R: Abort>(rt: &R, alloc: Global, engine: &mut Engine<MemoryDisk>, story: Story) {
    match story {
        Story::LoadsCome => loads_come(rt, alloc, engine),
        Story::LoadIsCancelled => load_is_cancelled(rt, alloc, engine),
        Story::LoadEnds => load_ends(rt, alloc, engine),
        Story::WorkIsStale => work_is_stale(rt, alloc, engine),
        Story::PagesAreRead => pages_are_read(rt, alloc, engine),
    }
}

// An engine over an empty store. It owns much, so that it is made in one place.
fn over_new<R: Abort>(rt: &R, alloc: Global, story: Story) {
    let mut engine = new_engine(alloc, Faults::none(alloc)).expect(rt, "a store");
    tell(rt, alloc, &mut engine, story);
}

#[test]
fn a_load_that_may_not_wait_finds_the_first_one_busy(rt: HostRuntime) {
    over_new(&rt, rt.alloc(), Story::LoadsCome);
}

#[test]
fn a_cancelled_load_has_ended(rt: HostRuntime) {
    over_new(&rt, rt.alloc(), Story::LoadIsCancelled);
}

#[test]
fn a_load_ends_with_its_file(rt: HostRuntime) {
    over_new(&rt, rt.alloc(), Story::LoadEnds);
}

#[test]
fn work_that_is_not_the_next_is_stale(rt: HostRuntime) {
    over_new(&rt, rt.alloc(), Story::WorkIsStale);
}

#[test]
fn a_page_is_a_slice_of_the_changes(rt: HostRuntime) {
    over_new(&rt, rt.alloc(), Story::PagesAreRead);
}
