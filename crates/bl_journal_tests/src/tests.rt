ghost use Rattle.std.specs.Prelude.{◌<◌, length};
ghost use Rattle.bl_journal.specs.Journals.{IsAtGate};

use bl_journal::Journal;
use bl_outside::{Disk, Faults, Fill, JournalFault, List, MemoryDisk, NoMemory, Text};
use std::alloc::Global;

// A file of one frame with the body `old`.
const ONE_FRAME: &[u8] = b"NEPTLOAD-JRNL-1\x01\0\0\0\x03old\0";

// The body 02000000000000000500000002.
const BODY: [u8; 13] = [2, 0, 0, 0, 0, 0, 0, 0, 5, 0, 0, 0, 2];

fn disk(alloc: Global, bytes: &[u8], plan: Faults) -> Result<MemoryDisk, NoMemory> {
    MemoryDisk::new(alloc, Text::copy_of(alloc, bytes)?, plan)
}

// The bodies of the frames of a file.
fn bodies(alloc: Global, disk: MemoryDisk) -> Result<List<Text>, JournalFault> {
    let mut journal = match Journal::begin(alloc, disk) {
        Ok(journal) => journal,
        Err((fault, _)) => return Err(fault),
    };
    let mut bodies = List::new(alloc);
    for _ in 0..9 {
        match journal.next()? {
            None => return Ok(bodies),
            Some(body) => {
                if bodies.push(body).is_err() {
                    return Err(JournalFault::NoMemory);
                }
            }
        }
    }
    Ok(bodies)
}

// Appends behind all frames. Answers the place, where it was acknowledged.
fn append_at_end<D: Disk>(journal: &mut Journal<D>, body: &[u8]) -> Option<u64>
    requires body { 0 < length body.now }
    requires gate { IsAtGate ⟦<D as Disk>⟧ journal.old }
{
    for _ in 0..9 {
        match journal.next() {
            Ok(Some(_)) => {}
            Ok(None) => return journal.append(body).ok(),
            Err(_) => return None,
        }
    }
    None
}

fn append(
    alloc: Global,
    disk: MemoryDisk,
    body: &[u8],
) -> Result<(Option<u64>, MemoryDisk), NoMemory>
    requires { 0 < length body.now }
{
    let Ok(mut journal) = Journal::begin(alloc, disk) else {
        return Err(NoMemory);
    };
    let place = append_at_end(&mut journal, body);
    Ok((place, journal.into_disk()))
}

fn example(alloc: Global) -> Result<bool, NoMemory> {
    let (place, mut disk) = append(alloc, disk(alloc, b"", Faults::none(alloc))?, &BODY)?;
    let Ok(bytes) = disk.read_at(0, 100) else {
        return Err(NoMemory);
    };
    Ok(
        place == Some(15)
            && bytes.as_slice()
                == b"NEPTLOAD-JRNL-1\x01\0\0\0\x0d\x02\0\0\0\0\0\0\0\x05\0\0\0\x02\0".as_slice(),
    )
}

#[test]
fn the_first_frame_stands_at_place_15_byte_by_byte(rt: HostRuntime) {
    assert!(rt; example(rt.alloc()) == Ok(true));
}

// The number of frames of a file, or why it is no journal.
fn frames_in(alloc: Global, bytes: &[u8]) -> Result<usize, JournalFault> {
    match disk(alloc, bytes, Faults::none(alloc)) {
        Ok(disk) => Ok(bodies(alloc, disk)?.len()),
        Err(NoMemory) => Err(JournalFault::NoMemory),
    }
}

// The bytes of a file that a beginning leaves.
fn begun(alloc: Global, bytes: &[u8]) -> Result<Text, JournalFault> {
    let Ok(disk) = disk(alloc, bytes, Faults::none(alloc)) else {
        return Err(JournalFault::NoMemory);
    };
    match Journal::begin(alloc, disk) {
        Ok(journal) => Ok(journal.into_disk().read_at(0, 100)?),
        Err((fault, _)) => Err(fault),
    }
}

#[test]
fn a_file_that_is_not_finished_becomes_a_new_one(rt: HostRuntime) {
    let new = b"NEPTLOAD-JRNL-1\0".as_slice();
    let files: [&[u8]; 4] = [b"", b"hello", b"NEPTLOAD-JRNL-1\x01", b"NEPTLOAD-JRNL-2\0"];
    for file in files {
        let begun = begun(rt.alloc(), file).expect(&rt, "a journal");
        assert!(rt; begun.as_slice() == new);
    }
    let other = b"NEPTLOAD-JRNL-1\x07".as_slice();
    let begun = begun(rt.alloc(), other).expect(&rt, "a journal");
    assert!(rt; begun.as_slice() == other);
}

#[test]
fn a_foreign_file_is_refused_at_its_place(rt: HostRuntime) {
    let alloc = rt.alloc();
    assert!(rt; frames_in(alloc, b"hello, this is text!") == Err(JournalFault::NotAJournal(0)));
    assert!(rt; frames_in(alloc, b"hello") == Ok(0));
    assert!(rt; frames_in(alloc, b"NEPTLOAD-JRNL-2\0\0") == Err(JournalFault::NotAJournal(14)));
    assert!(rt;
        frames_in(alloc, b"NEPTLOAD-JRNL-1\x01\0\0\0\0\0") == Err(JournalFault::NotAJournal(15))
    );
    assert!(rt;
        frames_in(alloc, b"NEPTLOAD-JRNL-1\x01\0\0\0\x02ab") == Err(JournalFault::NotAJournal(15))
    );
    assert!(rt; frames_in(alloc, ONE_FRAME) == Ok(1));
}

// The first body of a file, and whether it is the only one.
fn only_body(alloc: Global, bytes: &[u8]) -> Result<(Text, bool), JournalFault> {
    let Ok(disk) = disk(alloc, bytes, Faults::none(alloc)) else {
        return Err(JournalFault::NoMemory);
    };
    let mut journal = match Journal::begin(alloc, disk) {
        Ok(journal) => journal,
        Err((fault, _)) => return Err(fault),
    };
    let Some(body) = journal.next()? else {
        return Err(JournalFault::NoMemory);
    };
    Ok((body, journal.next()?.is_none()))
}

#[test]
fn a_frame_of_any_body_is_read(rt: HostRuntime) {
    let file = b"NEPTLOAD-JRNL-1\x01\0\0\0\x01\xff\0";
    let (body, only) = only_body(rt.alloc(), file).expect(&rt, "a frame");
    assert!(rt; body.as_slice() == b"\xff".as_slice() && only);
}

// One device call fails, this one. 1 where the beginning answers so, 2 where the first reading
// does, and whether the same call then answers as it should.
fn read_with_fault(alloc: Global, call: u64) -> Result<(u32, bool), NoMemory> {
    let mut fails = List::new(alloc);
    fails.push(call)?;
    let disk = disk(alloc, ONE_FRAME, Faults::of(fails, 0))?;
    let (fault, disk) = match Journal::begin(alloc, disk) {
        Ok(mut journal) => {
            let fault = journal.next().err();
            let again = matches!(journal.next(), Ok(Some(_)));
            return Ok((
                if fault == Some(JournalFault::StoreFault) {
                    2
                } else {
                    0
                },
                again,
            ));
        }
        Err(refusal) => refusal,
    };
    let again = Journal::begin(alloc, disk).is_ok();
    Ok((
        if fault == JournalFault::StoreFault {
            1
        } else {
            0
        },
        again,
    ))
}

// To begin takes a sync, a size and a reading; the first frame takes a size and two readings.
#[test]
fn each_device_call_that_fails_is_a_fault_of_the_store(rt: HostRuntime) {
    for call in 1..4 {
        assert!(rt;
            read_with_fault(rt.alloc(), call) == Ok((1, true)),
            "{call}"
        );
    }
    for call in 4..7 {
        assert!(rt;
            read_with_fault(rt.alloc(), call) == Ok((2, true)),
            "{call}"
        );
    }
    assert!(rt; read_with_fault(rt.alloc(), 9) == Ok((0, false)));
}

// Fails from this device call on, stops, and opens again: whether the append was acknowledged, and
// the frames then.
fn after_stop(alloc: Global, from: u64, fill: Fill) -> Result<(bool, usize), NoMemory> {
    let plan = Faults::of(List::new(alloc), from);
    let (place, disk) = append(alloc, disk(alloc, ONE_FRAME, plan)?, b"new")?;
    let Ok(found) = bodies(alloc, disk.stopped(fill)?) else {
        return Err(NoMemory);
    };
    let kept = match found.as_slice() {
        [old] => old.as_slice() == b"old".as_slice(),
        [old, new] => { old.as_slice() == b"old".as_slice() && new.as_slice() == b"new".as_slice() }
        _ => false,
    };
    Ok((place.is_some(), if kept { found.len() } else { 0 }))
}

// To begin takes 3 calls, the two readings take 3 and 2, and so the append's calls are those from 9
// to 12.
#[test]
fn an_append_that_is_cut_short_is_whole_or_not_at_all(rt: HostRuntime) {
    for fill in [Fill::Old, Fill::New, Fill::Ones] {
        for from in 9..12 {
            assert!(rt; after_stop(rt.alloc(), from, fill) == Ok((false, 1)));
        }
        assert!(rt; after_stop(rt.alloc(), 13, fill) == Ok((true, 2)));
    }
    assert!(rt; after_stop(rt.alloc(), 12, Fill::Old) == Ok((false, 1)));
    assert!(rt; after_stop(rt.alloc(), 12, Fill::New) == Ok((false, 2)));
    assert!(rt; after_stop(rt.alloc(), 12, Fill::Ones) == Ok((false, 1)));
}

fn begins_again(alloc: Global) -> Result<bool, JournalFault> {
    let Ok(disk) = disk(alloc, ONE_FRAME, Faults::none(alloc)) else {
        return Err(JournalFault::NoMemory);
    };
    let mut journal = match Journal::begin(alloc, disk) {
        Ok(journal) => journal,
        Err((fault, _)) => return Err(fault),
    };
    let first = journal.next()?.is_some();
    let behind = journal.place() == 23;
    journal.restart()?;
    let start = journal.place();
    journal.seek(start);
    Ok(first && behind && start == 15 && journal.next()?.is_some())
}

#[test]
fn a_journal_begins_again_at_its_first_gate(rt: HostRuntime) {
    assert!(rt; begins_again(rt.alloc()) == Ok(true));
}
