// Stores that are found: whose journal another program wrote, or that don't keep what is written.
use crate::lying_disk::LyingDisk;
use crate::test_loads::request;
use crate::test_stores::{disks, entries_of, open};
use bl_engine::{Engine, SubmitRefusal, Trouble};
use bl_outside::{Disk, Disks, Faults, FixedClock, NoMemory, Text};
use std::alloc::Global;

// The number of entries of a store whose journal has these bytes.
fn opens(alloc: Global, bytes: &[u8]) -> Result<u64, Trouble> {
    match disks(alloc, bytes, Faults::none(alloc)) {
        Ok(disks) => entries_of(alloc, disks),
        Err(NoMemory) => Err(Trouble::NoMemory),
    }
}

// A first frame whose body begins no entry.
const NO_ENTRY: &[u8] = b"NEPTLOAD-JRNL-1\x01\0\0\0\x01\xff\0";

// A first frame that cancels job 2 at the moment 5, where there is none.
const NO_JOB: &[u8] = b"NEPTLOAD-JRNL-1\x01\0\0\0\x0d\x02\0\0\0\0\0\0\0\x05\0\0\0\x02\0";

#[test]
fn a_foreign_file_is_bad_at_its_place(rt: HostRuntime) {
    let alloc = rt.alloc();
    assert!(rt; opens(alloc, b"hello, this is text!") == Err(Trouble::BadStore(0)));
    assert!(rt; opens(alloc, NO_ENTRY) == Err(Trouble::BadStore(15)));
    assert!(rt; opens(alloc, NO_JOB) == Err(Trouble::BadStore(15)));
}

#[test]
fn a_creation_that_was_not_finished_opens_as_an_empty_store(rt: HostRuntime) {
    let alloc = rt.alloc();
    assert!(rt; opens(alloc, b"hello") == Ok(0));
    assert!(rt; opens(alloc, b"") == Ok(0));
    assert!(rt; opens(alloc, b"NEPTLOAD-JRNL-1\x01") == Ok(0));
}

// ---- disks that lie

fn lying(alloc: Global, bytes: &[u8]) -> Result<LyingDisk, NoMemory> {
    let bytes = Text::copy_of(alloc, bytes)?;
    Ok(LyingDisk { alloc, bytes })
}

// A store that tells these bytes of its journal, and keeps nothing.
fn lying_disks(alloc: Global, bytes: &[u8]) -> Result<Disks<LyingDisk>, NoMemory> {
    Ok(Disks {
        journal: lying(alloc, bytes)?,
        left: lying(alloc, b"")?,
        right: lying(alloc, b"")?,
    })
}

fn opens_over_lies(alloc: Global, bytes: &[u8]) -> Result<u64, Trouble> {
    match lying_disks(alloc, bytes) {
        Ok(disks) => entries_of(alloc, disks),
        Err(NoMemory) => Err(Trouble::NoMemory),
    }
}

fn submit<D: Disk>(alloc: Global, engine: &mut Engine<D>) -> Result<u128, SubmitRefusal> {
    match request(alloc, false) {
        Some(request) => engine.submit(&mut FixedClock::new(0), 0, request),
        None => Err(SubmitRefusal::NoMemory),
    }
}

// A load is acknowledged, and the store is opened again: how many entries there are then.
fn kept<D: Disk + Drop>(alloc: Global, disks: Disks<D>) -> Result<u64, Trouble> {
    let mut engine = open(alloc, disks)?;
    if submit(alloc, &mut engine).is_err() {
        return Err(Trouble::StoreFault);
    }
    entries_of(alloc, engine.into_disks())
}

#[test]
fn a_disk_that_lies_gives_the_named_refusals(rt: HostRuntime) {
    let alloc = rt.alloc();
    assert!(rt; opens_over_lies(alloc, b"hello, this is text!") == Err(Trouble::BadStore(0)));
    assert!(rt; opens_over_lies(alloc, NO_ENTRY) == Err(Trouble::BadStore(15)));
}

#[test]
fn a_disk_that_lies_loses_what_was_acknowledged(rt: HostRuntime) {
    let alloc = rt.alloc();
    let lying = lying_disks(alloc, b"").expect(&rt, "memory");
    assert!(rt; kept(alloc, lying) == Ok(0));
    let honest = disks(alloc, b"", Faults::none(alloc)).expect(&rt, "memory");
    assert!(rt; kept(alloc, honest) == Ok(1));
}
