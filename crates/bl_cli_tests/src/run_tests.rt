// What runs come to.
use crate::test_runs::{
    FOLDER_OF_TWO, FileTable, NO_FILES, PEOPLE, Run, goes_on, new_machine, put, text,
};
use bl_cli::Status;
use bl_outside::{MemoryFolder, Text};
use std::alloc::Global;
use std::process::Abort;
use std::thread::Threads;

const BYTE_RANGE: FileTable = &[("f", b"~id,age:Byte\na,127\nb,128\nc,-128\n")];

const SINGLE_VALUE: FileTable = &[("f", b"~id,name:String(single)\nv1,Ann\nv1,Ann\nv1,Bob\n")];

const EDGE_ERRORS: FileTable = &[
    ("f/v.csv", b"~id\nv1\n"),
    (
        "f/e.csv",
        b"~id,~from,~to,~label\ne1,v1,v1,likes\ne1,v1,v1,knows\ne2,v1,v9,likes\n",
    ),
];

const EMPTY_FILES: FileTable = &[
    ("f/bom.csv", b"\xef\xbb\xbf~id\nv1\n"),
    ("f/empty.csv", b""),
    ("f/head.csv", b"~id\n"),
];

const COMPRESSED: FileTable = &[("f/v.csv", b"~id\nv1\n"), ("f/x.csv.gz", b"~id\nv2\n")];

const USAGE: &[u8] = b"bl: usage: see help\n";

// Loads of these files over an empty store.
const LOADS: &[Run] = &[
    (
        FOLDER_OF_TWO,
        "load s3://b/f",
        Status::Ok,
        "LOAD_COMPLETED 3 0 0 0 0",
    ),
    (
        BYTE_RANGE,
        "load s3://b/f --keep-going",
        Status::Ok,
        "LOAD_COMPLETED 3 0 0 1 0",
    ),
    (
        BYTE_RANGE,
        "load s3://b/f",
        Status::JobNotCompleted,
        "LOAD_FAILED 2 0 0 1 0",
    ),
    (
        SINGLE_VALUE,
        "load s3://b/f --keep-going",
        Status::Ok,
        "LOAD_COMPLETED 3 1 0 0 1",
    ),
    (
        SINGLE_VALUE,
        "load s3://b/f --update-single",
        Status::Ok,
        "LOAD_COMPLETED 3 1 0 0 0",
    ),
    (
        EDGE_ERRORS,
        "load s3://b/f --keep-going",
        Status::Ok,
        "LOAD_COMPLETED 4 0 0 0 2",
    ),
    (
        EMPTY_FILES,
        "load s3://b/f",
        Status::Ok,
        "LOAD_COMPLETED 1 0 0 0 0",
    ),
    (
        COMPRESSED,
        "load s3://b/f --keep-going",
        Status::JobNotCompleted,
        "LOAD_FAILED 1 0 0 0 0",
    ),
    (
        COMPRESSED,
        "load s3://b/f",
        Status::JobNotCompleted,
        "LOAD_FAILED 0 0 0 0 0",
    ),
    (
        PEOPLE,
        "load s3://b/f",
        Status::JobNotCompleted,
        "LOAD_FAILED 0 0 0 0 0",
    ),
    (
        FOLDER_OF_TWO,
        "load s3://b/f --mode RESUME",
        Status::JobNotCompleted,
        "LOAD_FAILED 0 0 0 0 0",
    ),
    (
        FOLDER_OF_TWO,
        "load s3://b/f/ --mode NEW --update-single --keep-going",
        Status::Ok,
        "LOAD_COMPLETED 3 0 0 0 0",
    ),
    (
        PEOPLE,
        "load s3://b/people.csv --mode AUTO",
        Status::Ok,
        "LOAD_COMPLETED 1 0 0 0 0",
    ),
];

fn ends_as_it_should<R: Threads + Sync + Abort>(rt: &R, alloc: Global, run: &Run) -> bool {
    goes_on(rt, alloc, &mut new_machine(rt, alloc, NO_FILES), 1, run)
}

#[test]
fn each_load_ends_as_its_files_say(rt: HostRuntime) {
    for run in LOADS {
        assert!(rt; ends_as_it_should(&rt, rt.alloc(), run), "{}", run.1);
    }
}

#[test]
fn other_words_are_refused(rt: HostRuntime) {
    let alloc = rt.alloc();
    let mut machine = new_machine(&rt, alloc, FOLDER_OF_TWO);
    for words in [
        "load",
        "help me",
        "--help",
        "status a b",
        "stream",
        "stream --type",
        "stream --type NEWEST",
        "stream --type LATEST --limit 0",
        "stream --type LATEST --limit 100001",
        "stream --type LATEST --type LATEST",
        "stream --type AT_SEQUENCE_NUMBER",
        "stream --commit 1 --op x",
        "stream --type LATEST --changes x",
        "stream --type LATEST more",
        "loads s3://b/f",
        "load b/f",
        "load s3://b/../f",
        "load s3://B/f",
        "load s3://b/f --change",
        "load s3://b/f --mode",
        "load s3://b/f --mode new",
        "load s3://b/f --changes --changes",
        "load s3://b/f --mode NEW --mode NEW",
        "load s3://b/f --keep-going --mode AUTO --keep-going",
        "load --changes s3://b/f",
        "load s3://b/f s3://b/f",
        "--changes load s3://b/f",
    ] {
        let status = machine.run(&rt, alloc, words);
        assert!(rt;
            status == Status::Usage && machine.wrote(b"", USAGE),
            "{words}"
        );
    }
}

// ---- what is printed

const FIRST_LOAD: &[u8] =
    b"{\"commitTimestamp\":0,\"data\":{\"id\":\"v1\",\"key\":\"label\",\"type\":\"vl\",\"value\":{\"dataType\":\"String\",\"value\":\"person\"}},\"eventId\":{\"commitNum\":1,\"opNum\":1},\"op\":\"ADD\"}\n{\"commitTimestamp\":0,\"data\":{\"id\":\"v1\",\"key\":\"name\",\"type\":\"vp\",\"value\":{\"dataType\":\"String\",\"value\":\"Ann\"}},\"eventId\":{\"commitNum\":1,\"opNum\":2},\"isLastOp\":true,\"op\":\"ADD\"}\n00000000-0000-4000-8000-000000000001 LOAD_COMPLETED 1 0 0 0 0\n";

const EDGE_LINE: &[u8] =
    b"{\"commitTimestamp\":0,\"data\":{\"from\":\"v1\",\"id\":\"e1\",\"key\":\"label\",\"to\":\"v2\",\"type\":\"e\",\"value\":{\"dataType\":\"String\",\"value\":\"knows\"}},\"eventId\":{\"commitNum\":2,\"opNum\":1},\"isLastOp\":true,\"op\":\"ADD\"}\n00000000-0000-4000-8000-000000000001 LOAD_COMPLETED 3 0 0 0 0\n";

const NEW_SINGLE: &[u8] =
    b"\"value\":{\"dataType\":\"String\",\"value\":\"Ann\"}},\"eventId\":{\"commitNum\":1,\"opNum\":3},\"op\":\"REMOVE\"}\n";

#[test]
fn the_changes_of_a_load_are_printed_before_its_line(rt: HostRuntime) {
    let alloc = rt.alloc();
    let mut machine = new_machine(&rt, alloc, PEOPLE);
    let status = machine.run(&rt, alloc, "load s3://b/people.csv --changes");
    assert!(rt; status == Status::Ok && machine.wrote(FIRST_LOAD, b""));
}

#[test]
fn an_edge_is_printed_behind_its_ends(rt: HostRuntime) {
    let alloc = rt.alloc();
    let mut machine = new_machine(&rt, alloc, FOLDER_OF_TWO);
    machine.run(&rt, alloc, "load s3://b/f --changes");
    assert!(rt; machine.count(b"\n") == 4 && machine.out.as_slice().ends_with(EDGE_LINE));
}

#[test]
fn a_value_that_is_replaced_is_printed_as_removed(rt: HostRuntime) {
    let alloc = rt.alloc();
    let mut machine = new_machine(&rt, alloc, SINGLE_VALUE);
    machine.run(&rt, alloc, "load s3://b/f --update-single --changes");
    assert!(rt; machine.count(NEW_SINGLE) == 1);
}

// Another load's changes are not printed, and a load that goes on takes what is new.
#[test]
fn the_same_load_twice_adds_nothing(rt: HostRuntime) {
    let alloc = rt.alloc();
    let mut machine = new_machine(&rt, alloc, FOLDER_OF_TWO);
    let words = "load s3://b/f --changes";
    assert!(rt; machine.run(&rt, alloc, words) == Status::Ok);
    assert!(rt; machine.run(&rt, alloc, words) == Status::Ok);
    assert!(rt; machine.wrote_line(&rt, alloc, 2, "LOAD_COMPLETED 3 0 0 0 0"));
    let words = "load s3://b/f --mode NEW --changes";
    assert!(rt; machine.run(&rt, alloc, words) == Status::Ok);
    assert!(rt; machine.wrote_line(&rt, alloc, 3, "LOAD_COMPLETED 3 3 0 0 0"));
    put(&rt, alloc, &mut machine.folder, "g.csv", b"~id\nv3\n");
    let words = "load s3://b/g.csv --changes";
    assert!(rt; machine.run(&rt, alloc, words) == Status::Ok && machine.count(b"\n") == 2);
    assert!(rt; machine.count(b"\"commitNum\":3,") == 1);
}

// ---- loads that stop and go on

// Records `v1,1` to `v1000,1000`, then `v1001` with this cell, then `v1002,5`.
fn thousand<R: Abort>(rt: &R, alloc: Global, cell: &str) -> Text {
    let mut all = text(rt, alloc, b"~id,age:Int\n");
    for number in 1u32..=1000 {
        let row = format!(in alloc; "v{number},{number}\n").expect(rt, "memory");
        all.extend(row.as_bytes()).expect(rt, "memory");
    }
    let rest = format!(in alloc; "v1001,{cell}\nv1002,5\n").expect(rt, "memory");
    all.extend(rest.as_bytes()).expect(rt, "memory");
    all
}

fn put_thousand<R: Abort>(rt: &R, alloc: Global, folder: &mut MemoryFolder, cell: &str) {
    let file = thousand(rt, alloc, cell);
    put(rt, alloc, folder, "f/a.csv", file.as_slice());
}

const ONE_MORE: FileTable = &[("f/b.csv", b"~id\nw1\n")];

#[test]
fn a_stopped_load_goes_on_once_its_record_is_mended(rt: HostRuntime) {
    let alloc = rt.alloc();
    let mut machine = new_machine(&rt, alloc, ONE_MORE);
    put_thousand(&rt, alloc, &mut machine.folder, "x");
    let status = machine.run(&rt, alloc, "load s3://b/f --changes");
    assert!(rt; status == Status::JobNotCompleted && machine.count(b"\n") == 2001);
    assert!(rt; machine.ends_with(&rt, alloc, 1, "LOAD_FAILED 1001 0 0 1 0"));
    put_thousand(&rt, alloc, &mut machine.folder, "7");
    let status = machine.run(&rt, alloc, "load s3://b/f --mode RESUME --changes");
    assert!(rt; status == Status::Ok && machine.count(b"\n") == 6);
    assert!(rt; machine.ends_with(&rt, alloc, 2, "LOAD_COMPLETED 1003 0 0 0 0"));
    assert!(rt; machine.count(b"\"commitNum\":2,") == 4);
    assert!(rt; machine.count(b"\"commitNum\":3,") == 1);
}
