// Slot files byte by byte, and calls that are cut short at each device call.
ghost use Rattle.std.specs.Prelude.{◌+◌, ◌<◌, ◌^◌, length, IfOk};

use bl_outside::{Disk, Faults, Fill, JournalFault, List, MemoryDisk, NoMemory, Text};
use bl_snapshot::{Slots, Snapshot};
use std::alloc::Global;

// Slots of 5, 3 and 5 entries with the bodies `old`, `low` and `alt`.
const OLD: &[u8] = b"NEPTLOAD-SNAP-1\x01\0\0\0\x13\0\0\0\0\0\0\0\x05\0\0\0\0\0\0\0\x22old";

const LOW: &[u8] = b"NEPTLOAD-SNAP-1\x01\0\0\0\x13\0\0\0\0\0\0\0\x03\0\0\0\0\0\0\0\x11low";

const ALT: &[u8] = b"NEPTLOAD-SNAP-1\x01\0\0\0\x13\0\0\0\0\0\0\0\x05\0\0\0\0\0\0\0\x22alt";

// A closed slot that held something.
const SHUT: &[u8] = b"NEPTLOAD-SNAP-1\0\0\0\0\x13\0\0\0\0\0\0\0\x09\0\0\0\0\0\0\0\x22torn";

fn disk(alloc: Global, bytes: &[u8], plan: Faults) -> Result<MemoryDisk, NoMemory> {
    MemoryDisk::new(alloc, Text::copy_of(alloc, bytes)?, plan)
}

// What the newest slot of two files is, as its entries, its place and whether it has this body.
fn newest(
    alloc: Global,
    left: &[u8],
    right: &[u8],
    body: &[u8],
) -> Result<Option<(u64, u64, bool)>, JournalFault> {
    let Ok(left) = disk(alloc, left, Faults::none(alloc)) else {
        return Err(JournalFault::NoMemory);
    };
    let Ok(right) = disk(alloc, right, Faults::none(alloc)) else {
        return Err(JournalFault::NoMemory);
    };
    newest_on(alloc, left, right, body)
}

fn newest_on(
    alloc: Global,
    left: MemoryDisk,
    right: MemoryDisk,
    body: &[u8],
) -> Result<Option<(u64, u64, bool)>, JournalFault> {
    let mut slots = Slots::over(alloc, left, right);
    match slots.newest()? {
        None => Ok(None),
        Some(found) => Ok(Some((found.entries, found.place, found.body.as_slice() == body))),
    }
}

#[test]
fn a_file_is_closed_or_open_or_no_slot(rt: HostRuntime) {
    let alloc = rt.alloc();
    let closed = [
        b"".as_slice(),
        b"0123456789abcdef".as_slice(),
        b"NEPTLOAD-SNAP-1\x01".as_slice(),
        b"NEPTLOAD-SNAP-1\0\0".as_slice(),
        b"NEPTLOAD-SNAP-1\x02\0\0\0\x13".as_slice(),
        SHUT,
    ];
    for file in closed {
        assert!(rt; newest(alloc, file, b"", b"") == Ok(None));
        assert!(rt; newest(alloc, b"", file, b"") == Ok(None));
    }
    let foreign = [
        (b"hello, this is text!".as_slice(), 0),
        (b"NEPTLOAD-JRNL-1\x01\0\0\0\x03old\0".as_slice(), 9),
        (b"NEPTLOAD-SNAP-2\0\0".as_slice(), 14),
        (b"NEPTLOAD-SNAP-1\x01\0".as_slice(), 15),
        (
            b"NEPTLOAD-SNAP-1\x01\0\0\0\x0f0123456789abcde".as_slice(),
            15,
        ),
        (
            b"NEPTLOAD-SNAP-1\x01\0\0\0\x140123456789abcdefold".as_slice(),
            15,
        ),
        (
            b"NEPTLOAD-SNAP-1\x01\xff\xff\xff\xff0123456789abcdef".as_slice(),
            15,
        ),
    ];
    for (file, place) in foreign {
        assert!(rt; newest(alloc, file, OLD, b"") == Err(JournalFault::NotAJournal(place)));
        assert!(rt; newest(alloc, OLD, file, b"") == Err(JournalFault::NotAJournal(place)));
    }
    let both = newest(alloc, b"NEPTLOAD-SNAP-2\0\0", b"hello, this is text!", b"");
    assert!(rt; both == Err(JournalFault::NotAJournal(14)));
}

#[test]
fn the_open_slot_with_more_entries_is_the_newest(rt: HostRuntime) {
    let alloc = rt.alloc();
    assert!(rt; newest(alloc, b"", b"", b"") == Ok(None));
    assert!(rt; newest(alloc, SHUT, SHUT, b"") == Ok(None));
    assert!(rt; newest(alloc, OLD, SHUT, b"old") == Ok(Some((5, 34, true))));
    assert!(rt; newest(alloc, SHUT, OLD, b"old") == Ok(Some((5, 34, true))));
    assert!(rt; newest(alloc, LOW, OLD, b"old") == Ok(Some((5, 34, true))));
    assert!(rt; newest(alloc, OLD, LOW, b"old") == Ok(Some((5, 34, true))));
    assert!(rt; newest(alloc, OLD, ALT, b"old") == Ok(Some((5, 34, true))));
    assert!(rt; newest(alloc, ALT, OLD, b"alt") == Ok(Some((5, 34, true))));
    let behind = b"NEPTLOAD-SNAP-1\x01\0\0\0\x10\0\0\0\0\0\0\0\x07\0\0\0\0\0\0\0\x09behind";
    assert!(rt; newest(alloc, OLD, behind, b"") == Ok(Some((7, 9, true))));
}

// A snapshot of 9 entries.
fn new_snapshot(alloc: Global) -> Result<Snapshot, NoMemory>
    ensures { IfOk result (λ snapshot. length snapshot.body + 16 < 2 ^ 32) }
{
    let mut body = Text::new(alloc);
    body.push(110)?;
    Ok(Snapshot {
        entries: 9,
        place: 77,
        body,
    })
}

// Looks, closes and fills.
fn replace<D: Disk>(slots: &mut Slots<D>, snapshot: &Snapshot) -> Result<(), JournalFault>
    requires { length snapshot.now.body + 16 < 2 ^ 32 }
{
    let _ = slots.newest()?;
    slots.close_slot()?;
    slots.fill_slot(snapshot)?;
    Ok(())
}

fn filled(alloc: Global, left: &[u8], right: &[u8]) -> Result<(Text, Text), JournalFault> {
    let Ok(snapshot) = new_snapshot(alloc) else {
        return Err(JournalFault::NoMemory);
    };
    let Ok(left) = disk(alloc, left, Faults::none(alloc)) else {
        return Err(JournalFault::NoMemory);
    };
    let Ok(right) = disk(alloc, right, Faults::none(alloc)) else {
        return Err(JournalFault::NoMemory);
    };
    let mut slots = Slots::over(alloc, left, right);
    replace(&mut slots, &snapshot)?;
    let (mut left, mut right) = slots.into_disks();
    Ok((left.read_at(0, 100)?, right.read_at(0, 100)?))
}

// The two files after a slot was filled.
fn files_are(alloc: Global, before: (&[u8], &[u8]), left: &[u8], right: &[u8]) -> bool {
    match filled(alloc, before.0, before.1) {
        Ok((a, b)) => a.as_slice() == left && b.as_slice() == right,
        Err(_) => false,
    }
}

#[test]
fn the_slot_that_is_not_the_newest_is_filled_byte_by_byte(rt: HostRuntime) {
    let alloc = rt.alloc();
    let new = b"NEPTLOAD-SNAP-1\x01\0\0\0\x11\0\0\0\0\0\0\0\x09\0\0\0\0\0\0\0Mn".as_slice();
    let over = b"NEPTLOAD-SNAP-1\x01\0\0\0\x11\0\0\0\0\0\0\0\x09\0\0\0\0\0\0\0Mnow".as_slice();
    assert!(rt; files_are(alloc, (b"", b""), new, b""));
    assert!(rt; files_are(alloc, (b"junk", SHUT), new, SHUT));
    assert!(rt; files_are(alloc, (OLD, b""), OLD, new));
    assert!(rt; files_are(alloc, (OLD, LOW), OLD, over));
    assert!(rt; files_are(alloc, (LOW, OLD), over, OLD));
    let equal = b"NEPTLOAD-SNAP-1\x01\0\0\0\x11\0\0\0\0\0\0\0\x09\0\0\0\0\0\0\0Mnlt".as_slice();
    assert!(rt; files_are(alloc, (OLD, ALT), OLD, equal));
}

// The failing of one disk: this call, once or for good.
fn plan(alloc: Global, call: u64, for_good: bool) -> Result<Faults, NoMemory> {
    let mut calls = List::new(alloc);
    calls.push(call)?;
    Ok(Faults::of(calls, if for_good { call } else { 0 }))
}

// Fails, stops and opens again: whether the filling was acknowledged, and the entries then.
fn after_stop(
    alloc: Global,
    left: (&[u8], Faults),
    right: (&[u8], Faults),
    fill: Fill,
) -> Result<(bool, Option<u64>), NoMemory> {
    let snapshot = new_snapshot(alloc)?;
    let left = disk(alloc, left.0, left.1)?;
    let right = disk(alloc, right.0, right.1)?;
    let mut slots = Slots::over(alloc, left, right);
    let acknowledged = replace(&mut slots, &snapshot).is_ok();
    let (left, right) = slots.into_disks();
    let again = newest_on(alloc, left.stopped(fill)?, right.stopped(fill)?, b"n");
    match again {
        Ok(None) => Ok((acknowledged, None)),
        Ok(Some((5, 34, _))) => Ok((acknowledged, Some(5))),
        Ok(Some((9, 77, true))) => Ok((acknowledged, Some(9))),
        _ => Err(NoMemory),
    }
}

// What may be found after a stop: with `Ok` the new snapshot, and else that or what was there.
fn is_right(found: Result<(bool, Option<u64>), NoMemory>, before: Option<u64>) -> bool {
    match found {
        Ok((true, entries)) => entries == Some(9),
        Ok((false, entries)) => entries == Some(9) || entries == before,
        Err(NoMemory) => false,
    }
}

// Fails at one call of either disk.
fn survives(alloc: Global, files: (&[u8], &[u8], Option<u64>), call: u64, for_good: bool) -> bool {
    let mut all = true;
    for fill in [Fill::Old, Fill::New, Fill::Ones] {
        let Ok(first) = plan(alloc, call, for_good) else {
            return false;
        };
        let Ok(second) = plan(alloc, call, for_good) else {
            return false;
        };
        let left = after_stop(
            alloc,
            (files.0, first),
            (files.1, Faults::none(alloc)),
            fill,
        );
        let right = after_stop(
            alloc,
            (files.0, Faults::none(alloc)),
            (files.1, second),
            fill,
        );
        all = all && is_right(left, files.2) && is_right(right, files.2);
    }
    all
}

// A look takes at most 5 calls of a disk, to close takes at most 4 and to fill 4.
#[test]
fn a_call_that_is_cut_short_leaves_the_old_snapshot_or_the_new_one(rt: HostRuntime) {
    let stores = [
        (b"".as_slice(), b"".as_slice(), None),
        (OLD, b"".as_slice(), Some(5)),
        (OLD, b"short".as_slice(), Some(5)),
        (OLD, SHUT, Some(5)),
        (OLD, LOW, Some(5)),
        (OLD, ALT, Some(5)),
        (LOW, OLD, Some(5)),
        (SHUT, OLD, Some(5)),
    ];
    for files in stores {
        let whole = after_stop(
            rt.alloc(),
            (files.0, Faults::none(rt.alloc())),
            (files.1, Faults::none(rt.alloc())),
            Fill::Old,
        );
        assert!(rt; whole == Ok((true, Some(9))));
        for call in 1..16 {
            assert!(rt; survives(rt.alloc(), files, call, false));
            assert!(rt; survives(rt.alloc(), files, call, true));
        }
    }
}
