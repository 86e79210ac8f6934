// Each adapter once, over memory where that serves, else over a folder of the system's.
ghost use Rattle.std.specs.Str.{IsUtf8};

use crate::stumbling::{Stumbles, StumblingReader, StumblingWriter};
use bl_outside::{Clock, Disk, Failed, Folder, Listing, Outside, Piece, Sink, Source, Text};
use bl_system::{FileDisk, ReadSource, RealFolder, SystemClock, WriteSink, fill};
use std::alloc::{AllocError, Global};
use std::fs::remove_dir_all;
use std::io::Cursor;

#[test]
fn a_source_gives_what_its_reader_has(rt: HostRuntime) {
    let mut source = ReadSource::new(Cursor::new(b"abc".as_slice()));
    let mut room = [0u8; 2];
    assert!(rt; source.take(&mut room) == Ok(2));
    assert!(rt; room.as_slice() == b"ab".as_slice());
    assert!(rt; source.take(&mut room) == Ok(1));
    assert!(rt; source.take(&mut room) == Ok(0));
}

const NONE: Stumbles = Stumbles {
    interrupted: 0,
    fails: 0,
};

fn reader(stumbles: Stumbles) -> StumblingReader {
    StumblingReader {
        left: b"abcd".as_slice(),
        calls: 0,
        stumbles,
    }
}

fn writer(stumbles: Stumbles) -> StumblingWriter {
    StumblingWriter { calls: 0, stumbles }
}

// A part of a file is read to its end, and a fault in its midst is no end.
#[test]
fn a_file_is_read_a_byte_at_a_time_and_a_fault_is_no_end(rt: HostRuntime) {
    for (stumbles, size, expected) in [
        (NONE, 3, Ok(3)),
        (NONE, 6, Ok(4)),
        (
            Stumbles {
                interrupted: 2,
                fails: 0,
            },
            6,
            Ok(4),
        ),
        (
            Stumbles {
                interrupted: 5,
                fails: 0,
            },
            6,
            Ok(4),
        ),
        (
            Stumbles {
                interrupted: 0,
                fails: 1,
            },
            6,
            Err(Outside::Failed),
        ),
        (
            Stumbles {
                interrupted: 0,
                fails: 3,
            },
            6,
            Err(Outside::Failed),
        ),
        (
            Stumbles {
                interrupted: 2,
                fails: 5,
            },
            6,
            Err(Outside::Failed),
        ),
        (
            Stumbles {
                interrupted: 0,
                fails: 5,
            },
            4,
            Ok(4),
        ),
    ] {
        let mut room = [0u8; 6];
        assert!(rt; fill(&mut reader(stumbles), &mut room[..size]) == expected);
        if expected == Ok(4) {
            assert!(rt; room.starts_with(b"abcd"));
        }
    }
}

#[test]
fn a_source_whose_reader_errs_has_not_ended(rt: HostRuntime) {
    let mut source = ReadSource::new(reader(Stumbles {
        interrupted: 2,
        fails: 4,
    }));
    let mut room = [0u8; 2];
    assert!(rt; source.take(&mut room) == Ok(1) && room[0] == b'a');
    assert!(rt; source.take(&mut room) == Ok(1) && room[0] == b'b');
    assert!(rt; source.take(&mut room) == Err(Failed));
    assert!(rt; source.take(&mut room) == Ok(1) && room[0] == b'c');
    assert!(rt; source.take(&mut room) == Ok(1) && room[0] == b'd');
    assert!(rt; source.take(&mut room) == Ok(0));
}

// Three bytes are three calls, and the flush is the fourth.
#[test]
fn a_sink_whose_writer_errs_has_not_written(rt: HostRuntime) {
    for (stumbles, expected) in [
        (NONE, Ok(())),
        (
            Stumbles {
                interrupted: 2,
                fails: 0,
            },
            Ok(()),
        ),
        (
            Stumbles {
                interrupted: 0,
                fails: 1,
            },
            Err(Failed),
        ),
        (
            Stumbles {
                interrupted: 0,
                fails: 3,
            },
            Err(Failed),
        ),
        (
            Stumbles {
                interrupted: 0,
                fails: 4,
            },
            Err(Failed),
        ),
        (
            Stumbles {
                interrupted: 1,
                fails: 5,
            },
            Err(Failed),
        ),
    ] {
        let mut sink = WriteSink::new(writer(stumbles));
        assert!(rt; sink.put(b"abc") == expected);
    }
}

#[test]
fn a_sink_writes_and_a_clock_goes(rt: HostRuntime) {
    let mut sink = WriteSink::new(rt.stdout());
    assert!(rt; sink.put(b"a line of a test\n").is_ok());
    let mut clock = SystemClock::new(rt);
    assert!(rt; clock.now() > 1_600_000_000_000);
}

// Writes a journal, and tells whether its bytes come back.
fn keeps<D: Disk>(disk: &mut D) -> bool
    requires { D.honest disk.old → ⊥ }
{
    let wrote = disk.write_at(0, b"journal").is_ok() && disk.sync().is_ok();
    let size = disk.size() == Ok(7);
    match disk.read_at(2, 3) {
        Ok(bytes) => wrote && size && bytes.as_slice() == b"urn".as_slice(),
        Err(_) => false,
    }
}

fn lists_one_file<F: Folder>(folder: &mut F, path: &Text) -> bool
    requires { IsUtf8 path.now }
{
    matches!(&folder.list(path), Ok(Listing::OneFile))
}

fn reads_the_front<F: Folder>(folder: &mut F, path: &Text) -> bool
    requires { IsUtf8 path.now }
{
    match folder.read_at(path, 0, 4) {
        Ok(Piece::Bytes(bytes)) => bytes.as_slice() == b"jour".as_slice(),
        _ => false,
    }
}

// A folder that no earlier test has made.
fn fresh_root(rt: HostRuntime) -> Result<String, AllocError> {
    let now = SystemClock::new(rt).now();
    let user = rt.process();
    let number = std::process::id(user);
    format!(in rt.alloc(); "/tmp/bl-system-{now}-{number}")
}

fn below(alloc: Global, root: &str, name: &str) -> Result<String, AllocError> {
    format!(in alloc; "{root}/{name}")
}

#[test]
fn a_disk_keeps_its_bytes_and_a_folder_reads_them(rt: HostRuntime) {
    let alloc = rt.alloc();
    let root = fresh_root(rt).expect(&rt, "memory");
    let store = below(alloc, root.as_str(), "stores/first").expect(&rt, "memory");
    let path = below(alloc, store.as_str(), "journal.bl").expect(&rt, "memory");
    let mut disk = FileDisk::open(&rt, alloc, store.as_str(), path.as_str());
    assert!(rt; keeps(&mut disk));
    let there = Text::of_str(alloc, "stores/first/journal.bl").expect(&rt, "memory");
    let missing = Text::of_str(alloc, "stores/first/none").expect(&rt, "memory");
    let mut folder = RealFolder::new(rt, root.clone().expect(&rt, "memory"));
    assert!(rt; lists_one_file(&mut folder, &there));
    assert!(rt; reads_the_front(&mut folder, &there));
    assert!(rt; !lists_one_file(&mut folder, &missing));
    assert!(rt; remove_dir_all(&rt, root.as_str()).is_ok());
}

// How many of the calls of a disk fail.
fn failures<D: Disk>(disk: &mut D) -> u32
    requires { D.honest disk.old → ⊥ }
{
    let mut count: u32 = 0;
    if disk.size() == Err(Outside::Failed) {
        count = count.saturating_add(1);
    }
    if disk.read_at(0, 1) == Err(Outside::Failed) {
        count = count.saturating_add(1);
    }
    if disk.write_at(0, b"x") == Err(Outside::Failed) {
        count = count.saturating_add(1);
    }
    if disk.sync() == Err(Outside::Failed) {
        count = count.saturating_add(1);
    }
    count
}

#[test]
fn a_locked_file_is_a_disk_that_fails(rt: HostRuntime) {
    let alloc = rt.alloc();
    let root = fresh_root(rt).expect(&rt, "memory");
    let path = below(alloc, root.as_str(), "journal.bl").expect(&rt, "memory");
    let mut first = FileDisk::open_locked(&rt, alloc, root.as_str(), path.as_str());
    assert!(rt; first.is_open() && keeps(&mut first));
    let mut second = FileDisk::open_locked(&rt, alloc, root.as_str(), path.as_str());
    assert!(rt; !second.is_open());
    assert_eq!(rt; failures(&mut second), 4);
    assert_eq!(rt; failures(&mut FileDisk::closed(alloc)), 4);
    drop(first);
    let third = FileDisk::open_locked(&rt, alloc, root.as_str(), path.as_str());
    assert!(rt; third.is_open());
    assert!(rt; remove_dir_all(&rt, root.as_str()).is_ok());
}
