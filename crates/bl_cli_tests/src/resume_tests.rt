// Loads that go on with others, over files that changed between them.
use crate::test_runs::{FileTable, NO_FILES, Run, goes_on, new_machine, put, text};
use bl_cli::Status;
use bl_outside::{MemoryFolder, Text};
use std::alloc::Global;
use std::process::Abort;
use std::thread::Threads;

const A: (&str, &[u8]) = ("f/a.csv", b"~id\nv1\n");

const B: (&str, &[u8]) = ("f/b.csv", b"~id\nw1\n");

const TWO: (&str, &[u8]) = ("f/c.csv", b"~id\nx1\nx2\n");

const BROKEN: (&str, &[u8]) = ("f/a.csv", b"~id,age:Int\nv1,1\nv2,2\nv3,x\n");

const MENDED: (&str, &[u8]) = ("f/a.csv", b"~id,age:Int\nv1,1\nv2,2\nv3,3\n");

const CHANGED: (&str, &[u8]) = ("f/a.csv", b"~id,age:Int\nv1,9\nv2,2\nv3,3\n");

const FLOAT: (&str, &[u8]) = ("f/a.csv", b"~id,age:Float\nv1,1\n");

const INT: (&str, &[u8]) = ("f/a.csv", b"~id,age:Int\nv1,1\n");

const OTHER: (&str, &[u8]) = ("g.csv", b"~id\ny1\n");

const STOPPED: &str = "LOAD_FAILED 3 0 0 1 0";

// A file is added, and another one removed: what was completed stays.
const ADDED: &[Run] = &[
    (
        &[A],
        "load s3://b/f",
        Status::Ok,
        "LOAD_COMPLETED 1 0 0 0 0",
    ),
    (
        &[A, TWO],
        "load s3://b/f",
        Status::Ok,
        "LOAD_COMPLETED 3 0 0 0 0",
    ),
    (
        &[TWO],
        "load s3://b/f",
        Status::Ok,
        "LOAD_COMPLETED 3 0 0 0 0",
    ),
];

// A refused header is mended.
const HEADER: &[Run] = &[
    (
        &[FLOAT, B],
        "load s3://b/f --keep-going",
        Status::JobNotCompleted,
        "LOAD_FAILED 1 0 1 0 0",
    ),
    (
        &[INT, B],
        "load s3://b/f --keep-going",
        Status::Ok,
        "LOAD_COMPLETED 2 0 0 0 0",
    ),
];

// A record that was taken is another one by now; and once it is as it was, the load goes on.
const EARLIER: &[Run] = &[
    (&[BROKEN], "load s3://b/f", Status::JobNotCompleted, STOPPED),
    (
        &[CHANGED],
        "load s3://b/f",
        Status::JobNotCompleted,
        "LOAD_FAILED 2 0 0 0 0",
    ),
    (
        &[MENDED],
        "load s3://b/f --mode RESUME",
        Status::Ok,
        "LOAD_COMPLETED 3 0 0 0 0",
    ),
];

// A load of another source stands between.
const BETWEEN: &[Run] = &[
    (
        &[BROKEN, OTHER],
        "load s3://b/f",
        Status::JobNotCompleted,
        STOPPED,
    ),
    (
        &[BROKEN, OTHER],
        "load s3://b/g.csv",
        Status::Ok,
        "LOAD_COMPLETED 1 0 0 0 0",
    ),
    (
        &[MENDED, OTHER],
        "load s3://b/f --mode RESUME",
        Status::Ok,
        "LOAD_COMPLETED 3 0 0 0 0",
    ),
];

// The source is gone, and comes again; a start that failed is not what one goes on with.
const GONE: &[Run] = &[
    (&[BROKEN], "load s3://b/f", Status::JobNotCompleted, STOPPED),
    (
        &[OTHER],
        "load s3://b/f",
        Status::JobNotCompleted,
        "LOAD_FAILED 0 0 0 0 0",
    ),
    (
        &[MENDED],
        "load s3://b/f --mode RESUME",
        Status::Ok,
        "LOAD_COMPLETED 3 0 0 0 0",
    ),
];

// How many runs of a table came to what they should, up to the first that didn't.
fn runs_right<R: Threads + Sync + Abort>(rt: &R, alloc: Global, runs: &[Run]) -> u32 {
    let mut machine = new_machine(rt, alloc, NO_FILES);
    let mut right: u32 = 0;
    for run in runs {
        let number = right.saturating_add(1);
        if !goes_on(rt, alloc, &mut machine, number, run) {
            break;
        }
        right = number;
    }
    right
}

#[test]
fn loads_go_on_over_files_that_changed(rt: HostRuntime) {
    let table: [&[Run]; 5] = [ADDED, HEADER, EARLIER, BETWEEN, GONE];
    for runs in &table {
        let right = runs_right(&rt, rt.alloc(), runs);
        assert!(rt; right as usize == runs.len(), "run {right}");
    }
}

// ---- one record in the middle of many

// Records `v1,1` to `v1002,1002`, of which the 501st has this cell.
fn thousand_and_two<R: Abort>(rt: &R, alloc: Global, cell: &str) -> Text {
    let mut all = text(rt, alloc, b"~id,age:Int\n");
    for number in 1u32..=1002 {
        let row = if number == 501 {
            format!(in alloc; "v501,{cell}\n")
        } else {
            format!(in alloc; "v{number},{number}\n")
        };
        let row = row.expect(rt, "memory");
        all.extend(row.as_bytes()).expect(rt, "memory");
    }
    all
}

fn put_all<R: Abort>(rt: &R, alloc: Global, folder: &mut MemoryFolder, cell: &str) {
    let file = thousand_and_two(rt, alloc, cell);
    put(rt, alloc, folder, "f/a.csv", file.as_slice());
}

const ONE_MORE: FileTable = &[B];

// Commits of 1,000, 1,004 and 1 operations.
#[test]
fn a_record_in_the_middle_is_mended(rt: HostRuntime) {
    let alloc = rt.alloc();
    let mut machine = new_machine(&rt, alloc, ONE_MORE);
    put_all(&rt, alloc, &mut machine.folder, "x");
    machine.run(&rt, alloc, "load s3://b/f --changes");
    assert!(rt; machine.count(b"\"commitNum\":1,") == 1000);
    assert!(rt; machine.ends_with(&rt, alloc, 1, "LOAD_FAILED 501 0 0 1 0"));
    put_all(&rt, alloc, &mut machine.folder, "501");
    let status = machine.run(&rt, alloc, "load s3://b/f --mode RESUME --changes");
    assert!(rt; status == Status::Ok && machine.count(b"\"commitNum\":2,") == 1004);
    assert!(rt; machine.count(b"\"commitNum\":3,") == 1);
    assert!(rt; machine.ends_with(&rt, alloc, 2, "LOAD_COMPLETED 1003 0 0 0 0"));
}
