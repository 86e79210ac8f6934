// Loads that are stopped at a call of the journal, and what the store then comes to.
ghost use Rattle.std.specs.Prelude.{◌≡◌, ◌<◌};

use crate::test_runs::{FileTable, Machine, new_machine, page, store};
use bl_cli::Status;
use bl_engine::{Engine, ViewRefusal};
use bl_files::{Counts, totals};
use bl_load::{Held, drain};
use bl_outside::{
    Disks, Faults, Fill, FixedClock, List, MemoryDisk, MemoryFolder, NoMemory, Steps, Text,
};
use bl_queue::{Job, JobStatus};
use bl_workers::OpenGate;
use std::alloc::Global;
use std::marker::Brand;
use std::mem;
use std::process::Abort;
use std::sync::ledger::{Blank, Ledger};
use std::thread::Threads;

const BROKEN: FileTable = &[
    ("f/a.csv", b"~id,age:Int\nv1,1\nv2,x\nv3,5\n"),
    ("f/b.csv", b"~id\nw1\n"),
];

const MENDED: FileTable = &[
    ("f/a.csv", b"~id,age:Int\nv1,1\nv2,7\nv3,5\n"),
    ("f/b.csv", b"~id\nw1\n"),
];

// The id of the second load over the salt 0.
const SECOND: u128 = 0x0000_0000_0000_4000_8000_0000_0000_0002;

// The changes of the first load, which stopped at its second record.
const FIRST: [&str; 2] = [V1, V1_AGE];

// Those of both loads.
const WHOLE: [&str; 7] = [V1, V1_AGE, V2, V2_AGE, V3, V3_AGE, W1];

const V1: &str =
    "{\"commitTimestamp\":0,\"data\":{\"id\":\"v1\",\"key\":\"label\",\"type\":\"vl\",\"value\":{\"dataType\":\"String\",\"value\":\"vertex\"}},\"eventId\":{\"commitNum\":1,\"opNum\":1},\"op\":\"ADD\"}";

const V1_AGE: &str =
    "{\"commitTimestamp\":0,\"data\":{\"id\":\"v1\",\"key\":\"age\",\"type\":\"vp\",\"value\":{\"dataType\":\"Int\",\"value\":1}},\"eventId\":{\"commitNum\":1,\"opNum\":2},\"isLastOp\":true,\"op\":\"ADD\"}";

const V2: &str =
    "{\"commitTimestamp\":0,\"data\":{\"id\":\"v2\",\"key\":\"label\",\"type\":\"vl\",\"value\":{\"dataType\":\"String\",\"value\":\"vertex\"}},\"eventId\":{\"commitNum\":2,\"opNum\":1},\"op\":\"ADD\"}";

const V2_AGE: &str =
    "{\"commitTimestamp\":0,\"data\":{\"id\":\"v2\",\"key\":\"age\",\"type\":\"vp\",\"value\":{\"dataType\":\"Int\",\"value\":7}},\"eventId\":{\"commitNum\":2,\"opNum\":2},\"op\":\"ADD\"}";

const V3: &str =
    "{\"commitTimestamp\":0,\"data\":{\"id\":\"v3\",\"key\":\"label\",\"type\":\"vl\",\"value\":{\"dataType\":\"String\",\"value\":\"vertex\"}},\"eventId\":{\"commitNum\":2,\"opNum\":3},\"op\":\"ADD\"}";

const V3_AGE: &str =
    "{\"commitTimestamp\":0,\"data\":{\"id\":\"v3\",\"key\":\"age\",\"type\":\"vp\",\"value\":{\"dataType\":\"Int\",\"value\":5}},\"eventId\":{\"commitNum\":2,\"opNum\":4},\"isLastOp\":true,\"op\":\"ADD\"}";

const W1: &str =
    "{\"commitTimestamp\":0,\"data\":{\"id\":\"w1\",\"key\":\"label\",\"type\":\"vl\",\"value\":{\"dataType\":\"String\",\"value\":\"vertex\"}},\"eventId\":{\"commitNum\":3,\"opNum\":1},\"isLastOp\":true,\"op\":\"ADD\"}";

// ---- the store

// What the journal has behind a load that stopped at a record.
fn first_journal<R: Threads + Sync + Abort>(rt: &R, alloc: Global) -> Text {
    let mut machine = new_machine(rt, alloc, BROKEN);
    machine.run(rt, alloc, "load s3://b/f");
    assert!(rt; machine.wrote_line(rt, alloc, 1, "LOAD_FAILED 2 0 0 1 0"));
    machine.journal(rt)
}

// The store as a stop leaves it. The slots were not written.
fn stopped(disks: Disks<MemoryDisk>, fill: Fill) -> Result<Disks<MemoryDisk>, NoMemory> {
    Ok(Disks {
        journal: disks.journal.stopped(fill)?,
        left: disks.left,
        right: disks.right,
    })
}

// The store that is left where the second load is stopped at this call of the journal.
fn left_at<R: Threads + Sync + Abort>(
    rt: &R,
    alloc: Global,
    machine: &mut Machine,
    journal: &Text,
    call: u64,
    fill: Fill,
) -> Disks<MemoryDisk> {
    let plan = Faults::of(List::new(alloc), call);
    machine.disks = store(rt, alloc, journal.as_slice(), plan);
    let status = machine.run(rt, alloc, "load s3://b/f --mode RESUME");
    assert!(rt; status == Status::StoreFault, "call {call}");
    let empty = store(rt, alloc, b"", Faults::none(alloc));
    let left = mem::replace(&mut machine.disks, empty);
    stopped(left, fill).expect(rt, "memory")
}

fn opened<L: Ledger>(
    alloc: Global,
    disks: Disks<MemoryDisk>,
    blank: Blank,
) -> Option<Engine<MemoryDisk>>
    requires name { blank.name ≡ L.name }
    requires parts { blank.parts ≡ L.parts }
    requires some { 0 < blank.parts }
{
    let mut steps = Steps::<L>::new(blank);
    match Engine::open_counted(alloc, 0, disks, &mut steps) {
        Ok(engine) => Some(engine),
        Err(_) => None,
    }
}

fn open(alloc: Global, disks: Disks<MemoryDisk>) -> Option<Engine<MemoryDisk>> {
    opened::<Brand>(alloc, disks, Blank::new(1))
}

// Lets an engine go, but for its disks. It has many parts, so that nothing else is done here.
fn close(engine: Engine<MemoryDisk>) -> Disks<MemoryDisk> {
    engine.into_disks()
}

// ---- what it comes to

// All turns are made.
fn drain_all<R: Threads + Sync + Abort>(
    rt: &R,
    alloc: Global,
    folder: &mut MemoryFolder,
    engine: &mut Engine<MemoryDisk>,
) {
    let mut held = Held::none();
    let clock = &mut FixedClock::new(0);
    let drained = drain(rt, alloc, engine, folder, clock, &mut held, &OpenGate);
    assert!(rt; drained.is_ok());
}

// The commits have so many changes each.
fn has_commits<R: Abort>(rt: &R, engine: &Engine<MemoryDisk>, sizes: &[usize]) {
    let commits = engine.commits();
    assert!(rt; commits.len() == sizes.len());
    for (i, commit) in commits.as_slice().iter().enumerate() {
        let size = commit.changes.len();
        assert!(rt; sizes.get(i) == Some(&size), "{i}");
    }
}

// The second load came to what it comes to without a stop: 4 vertices, of which 3 have an age.
fn is_whole<R: Abort>(rt: &R, engine: &mut Engine<MemoryDisk>, job: &Job) {
    let counts = Counts {
        records: 4,
        ..Counts::none()
    };
    assert!(rt; job.status == JobStatus::Completed && totals(&job.feeds) == counts);
    assert!(rt; engine.sizes() == Ok((4, 0, 3)));
    has_commits(rt, engine, &[2, 4, 1]);
}

// The second load is there, and whole, or it was not taken on.
fn is_there<R: Abort>(rt: &R, engine: &mut Engine<MemoryDisk>) -> bool {
    match engine.status(SECOND) {
        Ok(job) => {
            is_whole(rt, engine, &job);
            true
        }
        Err(refusal) => {
            assert!(rt; refusal == ViewRefusal::Unknown);
            has_commits(rt, engine, &[2]);
            false
        }
    }
}

// The changes of the store are those of a load without a stop, or of the first load alone.
fn has_changes<R: Threads + Sync + Abort>(
    rt: &R,
    alloc: Global,
    machine: &mut Machine,
    there: bool,
) -> bool {
    let records: &[&str] = if there { &WHOLE } else { &FIRST };
    let (commit, op) = if there { (3, 1) } else { (1, 2) };
    let expected = page(rt, alloc, commit, op, records);
    let status = machine.run(rt, alloc, "stream --type TRIM_HORIZON --limit 100");
    status == Status::Ok && machine.wrote(expected.as_bytes(), b"")
}

// Where the second load is stopped at this call it is there or not, and whole.
fn stop_at<R: Threads + Sync + Abort>(
    rt: &R,
    alloc: Global,
    machine: &mut Machine,
    journal: &Text,
    call: u64,
    fill: Fill,
    there: bool,
) {
    let disks = left_at(rt, alloc, machine, journal, call, fill);
    let mut engine = open(alloc, disks).expect(rt, "a store");
    drain_all(rt, alloc, &mut machine.folder, &mut engine);
    assert!(rt; is_there(rt, &mut engine) == there, "call {call}, {fill:?}");
    machine.disks = close(engine);
    assert!(rt;
        has_changes(rt, alloc, machine, there),
        "changes at call {call}"
    );
}

// ---- stops

// To open the store takes 17 calls of the journal: a sync, the size and the head, three for each of
// its four entries, and two at the closed gate. The second load has six entries: itself, its plan,
// and of each of its files the rows and the end. Each takes a write and a sync behind the closed
// gate, and a write and a sync of the gate.
const FIRST_WRITE: u64 = 18;

// The second load is stopped at each of its writes, before which all is synced. From the second
// entry on it is there.
#[test]
fn a_load_that_is_stopped_at_a_write_comes_to_the_whole(rt: HostRuntime) {
    let alloc = rt.alloc();
    let journal = first_journal(&rt, alloc);
    let mut machine = new_machine(&rt, alloc, MENDED);
    for write in 0u64..12 {
        let call = FIRST_WRITE + 2 * write;
        let there = write >= 2;
        stop_at(&rt, alloc, &mut machine, &journal, call, Fill::New, there);
    }
}

// The same of each of its syncs, before which something isn't synced. From this one on it is there.
fn stop_at_syncs<R: Threads + Sync + Abort>(rt: &R, alloc: Global, fill: Fill, from: u64) {
    let journal = first_journal(rt, alloc);
    let mut machine = new_machine(rt, alloc, MENDED);
    for sync in 0u64..12 {
        let call = FIRST_WRITE + 1 + 2 * sync;
        let there = sync >= from;
        stop_at(rt, alloc, &mut machine, &journal, call, fill, there);
    }
}

#[test]
fn what_is_not_synced_may_be_lost(rt: HostRuntime) {
    stop_at_syncs(&rt, rt.alloc(), Fill::Old, 2);
}

// The second sync of the first entry is that of its gate.
#[test]
fn what_is_not_synced_may_be_there(rt: HostRuntime) {
    stop_at_syncs(&rt, rt.alloc(), Fill::New, 1);
}

#[test]
fn what_is_not_synced_may_be_other_bytes(rt: HostRuntime) {
    stop_at_syncs(&rt, rt.alloc(), Fill::Ones, 2);
}
