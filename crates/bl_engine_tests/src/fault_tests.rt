// Device calls that fail. To open an empty store takes 7 of them, and each call that appends takes
// four: the entry is written and synced, and then the gate behind it. So the calls in turn take
// those from 8 to 31.
ghost use Rattle.std.specs.Prelude.{◌≤◌};

use crate::test_calls::{
    CALLS, Came, ID_1, PLAN, call, calls_done, listed, short_page, status, submit, work,
};
use crate::test_stores::{fails_at, fails_from, new_engine, stop};
use bl_engine::{Engine, SubmitRefusal, Trouble, ViewRefusal};
use bl_outside::{Faults, Fill, MemoryDisk};
use bl_queue::JobStatus;
use bl_stream::{Iterator4, PageRefusal};
use bl_world::Work;
use std::alloc::Global;
use std::process::Abort;

// ---- the machine stops

// Device calls fail so, the machine stops, and the store is opened again: how many calls were done,
// and how many entries there are.
fn after_stop(alloc: Global, plan: Faults, fill: Fill) -> Option<(u64, u64)> {
    let mut engine = new_engine(alloc, plan)?;
    let done = calls_done(alloc, &mut engine);
    let entries = stop(alloc, engine, fill)?;
    Some((done, entries))
}

fn after_one_fault(alloc: Global, call: u64, fill: Fill) -> Option<(u64, u64)> {
    after_stop(alloc, fails_at(alloc, call)?, fill)
}

// The entry is there where the sync of the gate fails and what was written stays.
fn left(call: u64, fill: Fill) -> (u64, u64)
    requires { 8 ≤ call }
{
    let done = (call - 8) / 4;
    if call % 4 == 3 && fill == Fill::New {
        (done, done + 1)
    } else {
        (done, done)
    }
}

#[test]
fn each_device_call_that_fails_leaves_each_entry_whole_or_not_at_all(rt: HostRuntime) {
    let alloc = rt.alloc();
    for fill in [Fill::Old, Fill::New, Fill::Ones] {
        for call in 8..32u64 {
            let wanted = Some(left(call, fill));
            assert!(rt; after_one_fault(alloc, call, fill) == wanted, "{call} once");
            let on = after_stop(alloc, fails_from(alloc, call), fill);
            assert!(rt; on == wanted, "from {call} on");
        }
        assert!(rt; after_one_fault(alloc, 99, fill) == Some((6, 6)));
    }
}

// ---- the engine goes on

// The sync of the gate fails: the load is there.
fn load_is_there<R: Abort>(rt: &R, alloc: Global, engine: &mut Engine<MemoryDisk>) {
    assert!(rt; submit(alloc, engine, false) == Err(SubmitRefusal::StoreFault));
    assert!(rt; !engine.is_ready());
    assert!(rt; listed(engine) == Ok((1, Some(ID_1))));
    assert!(rt; engine.is_ready() && engine.seq() == 1);
}

// The sync before it fails: there is none.
fn load_is_not_there<R: Abort>(rt: &R, alloc: Global, engine: &mut Engine<MemoryDisk>) {
    assert!(rt; submit(alloc, engine, false) == Err(SubmitRefusal::StoreFault));
    assert!(rt; !engine.is_ready());
    assert!(rt; listed(engine) == Ok((0, None)));
    assert!(rt; engine.is_ready() && engine.seq() == 0);
}

// How many calls are done before the device call of this number, loads listed and entries there.
fn gone_on(call: u64) -> (u64, usize, u64)
    requires { 8 ≤ call }
{
    let done = (call - 8) / 4;
    let entries = if call % 4 == 3 { done + 1 } else { done };
    match entries {
        0 => (done, 0, 0),
        1..5 => (done, 1, entries),
        _ => (done, 2, entries),
    }
}

// The calls in turn up to the first that isn't done, and then what the journal has is listed.
fn goes_on<R: Abort>(rt: &R, alloc: Global, engine: &mut Engine<MemoryDisk>, call: u64)
    requires { 8 ≤ call }
{
    let (done, loads, entries) = gone_on(call);
    assert!(rt; calls_done(alloc, engine) == done, "{call}");
    let listed = listed(engine).expect(rt, "a list");
    assert!(rt; listed.0 == loads && engine.seq() == entries, "{call}");
}

// ---- each call opens a closed engine

// The calls in turn are all done, but for the one of this number, which faults.
fn only_faults<R: Abort>(rt: &R, alloc: Global, engine: &mut Engine<MemoryDisk>, place: u64) {
    for number in 0..CALLS {
        let wanted = if number == place {
            Came::Faulted
        } else {
            Came::Done
        };
        assert!(rt; call(alloc, engine, number) == wanted, "{place} {number}");
    }
}

/// A call that appends nothing.
#[derive(Clone, Copy, Debug)]
enum Looking {
    Ready,
    Status,
    Work,
    Sizes,
    Page,
}

// Whether the call answers as it should over a new store with one load.
fn sees_load(engine: &mut Engine<MemoryDisk>, looking: Looking) -> bool {
    match looking {
        Looking::Ready => engine.ready() == Ok(()),
        Looking::Status => status(engine, ID_1) == Ok(JobStatus::NotStarted),
        Looking::Work => work(engine) == Ok(PLAN),
        Looking::Sizes => engine.sizes() == Ok((0, 0, 0)),
        Looking::Page => {
            short_page(engine, Iterator4::Latest).err() == Some(PageRefusal::NoRecords)
        }
    }
}

// The load's last sync fails, and a call that appends nothing opens the engine.
fn is_looked_at<R: Abort>(
    rt: &R,
    alloc: Global,
    engine: &mut Engine<MemoryDisk>,
    looking: Looking,
) {
    assert!(rt; submit(alloc, engine, false) == Err(SubmitRefusal::StoreFault));
    assert!(rt; !engine.is_ready());
    assert!(rt; sees_load(engine, looking), "{looking:?}");
    assert!(rt; engine.is_ready());
}

// ---- the store stays broken

fn views_fault<R: Abort>(rt: &R, engine: &mut Engine<MemoryDisk>) {
    assert!(rt; listed(engine) == Err(Trouble::StoreFault));
    assert!(rt; status(engine, ID_1) == Err(ViewRefusal::StoreFault));
    assert!(rt; work(engine) == Err(Trouble::StoreFault));
    assert!(rt; engine.sizes() == Err(Trouble::StoreFault));
    let page = short_page(engine, Iterator4::Latest);
    assert!(rt; page.err() == Some(PageRefusal::StoreFault));
    assert!(rt; engine.ready() == Err(Trouble::StoreFault));
}

// Each call is a fault of the store, and the engine stays closed.
fn all_faults<R: Abort>(rt: &R, alloc: Global, engine: &mut Engine<MemoryDisk>) {
    for number in 0..CALLS {
        assert!(rt; call(alloc, engine, number) == Came::Faulted, "{number}");
    }
    views_fault(rt, engine);
    assert!(rt; !engine.is_ready());
}

// ---- over a new store

#[derive(Clone, Copy, Debug)]
enum Story {
    LoadIsThere,
    LoadIsNotThere,
    /// The device call that fails.
    GoesOn(u64),
    /// The call whose last sync fails.
    OnlyFaults(u64),
    IsLookedAt(Looking),
    AllFaults,
}

fn tell<R: Abort>(rt: &R, alloc: Global, engine: &mut Engine<MemoryDisk>, story: Story) {
    match story {
        Story::LoadIsThere => load_is_there(rt, alloc, engine),
        Story::LoadIsNotThere => load_is_not_there(rt, alloc, engine),
        Story::GoesOn(call) => goes_on(rt, alloc, engine, call.max(8)),
        Story::OnlyFaults(place) => only_faults(rt, alloc, engine, place),
        Story::IsLookedAt(looking) => is_looked_at(rt, alloc, engine, looking),
        Story::AllFaults => all_faults(rt, alloc, engine),
    }
}

// An engine over an empty store, whose device calls fail so. It owns much, so that it is made in
// one place.
fn over_new<R: Abort>(rt: &R, alloc: Global, plan: Faults, story: Story) {
    let mut engine = new_engine(alloc, plan).expect(rt, "a store");
    tell(rt, alloc, &mut engine, story);
}

// The same where the device call of this number fails.
fn over_fault<R: Abort>(rt: &R, alloc: Global, call: u64, story: Story) {
    over_new(rt, alloc, fails_at(alloc, call).expect(rt, "memory"), story);
}

#[test]
fn a_failed_sync_of_the_gate_leaves_the_load_and_one_before_it_does_not(rt: HostRuntime) {
    over_fault(&rt, rt.alloc(), 11, Story::LoadIsThere);
    over_fault(&rt, rt.alloc(), 9, Story::LoadIsNotThere);
}

#[test]
fn an_engine_that_was_closed_goes_on_with_what_the_journal_has(rt: HostRuntime) {
    for call in 8..32u64 {
        over_fault(&rt, rt.alloc(), call, Story::GoesOn(call));
    }
}

#[test]
fn a_call_that_appends_opens_a_closed_engine(rt: HostRuntime) {
    for place in 0..6u64 {
        over_fault(&rt, rt.alloc(), 11 + 4 * place, Story::OnlyFaults(place));
    }
}

#[test]
fn a_call_that_appends_nothing_opens_a_closed_engine(rt: HostRuntime) {
    for looking in [
        Looking::Ready,
        Looking::Status,
        Looking::Work,
        Looking::Sizes,
        Looking::Page,
    ] {
        over_fault(&rt, rt.alloc(), 11, Story::IsLookedAt(looking));
    }
}

#[test]
fn each_call_over_a_broken_store_is_a_store_fault(rt: HostRuntime) {
    let alloc = rt.alloc();
    over_new(&rt, alloc, fails_from(alloc, 11), Story::AllFaults);
}
