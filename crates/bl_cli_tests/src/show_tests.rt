// What is shown of a store, and the help.
use crate::test_runs::{
    FOLDER_OF_TWO, Failing, FileTable, Machine, NO_FILES, NOTHING, PEOPLE, faults_at, new_machine,
    page, store,
};
use bl_cli::Status;
use bl_outside::Faults;
use std::alloc::Global;
use std::process::Abort;
use std::thread::Threads;

const ID: &str = "00000000-0000-4000-8000-000000000001";

const LABEL_1: &str =
    "{\"commitTimestamp\":0,\"data\":{\"id\":\"v1\",\"key\":\"label\",\"type\":\"vl\",\"value\":{\"dataType\":\"String\",\"value\":\"person\"}},\"eventId\":{\"commitNum\":1,\"opNum\":1},\"op\":\"ADD\"}";

const LABEL_2: &str =
    "{\"commitTimestamp\":0,\"data\":{\"id\":\"v2\",\"key\":\"label\",\"type\":\"vl\",\"value\":{\"dataType\":\"String\",\"value\":\"person\"}},\"eventId\":{\"commitNum\":1,\"opNum\":2},\"isLastOp\":true,\"op\":\"ADD\"}";

const EDGE: &str =
    "{\"commitTimestamp\":0,\"data\":{\"from\":\"v1\",\"id\":\"e1\",\"key\":\"label\",\"to\":\"v2\",\"type\":\"e\",\"value\":{\"dataType\":\"String\",\"value\":\"knows\"}},\"eventId\":{\"commitNum\":2,\"opNum\":1},\"isLastOp\":true,\"op\":\"ADD\"}";

// Whether a run comes to this.
fn comes_to<R: Threads + Sync + Abort>(
    rt: &R,
    alloc: Global,
    machine: &mut Machine,
    words: &str,
    status: Status,
    out: &str,
    err: &str,
) -> bool {
    machine.run(rt, alloc, words) == status && machine.wrote(out.as_bytes(), err.as_bytes())
}

#[test]
fn an_empty_store_has_no_load_and_no_record(rt: HostRuntime) {
    let alloc = rt.alloc();
    let mut machine = new_machine(&rt, alloc, NO_FILES);
    for (words, status, out, err) in [
        ("status x", Status::UnknownLoad, "", "bl: unknown load\n"),
        (
            "status 00000000-0000-0000-0000-000000000000",
            Status::UnknownLoad,
            "",
            "bl: unknown load\n",
        ),
        (
            "stream --type LATEST",
            Status::NoRecords,
            "",
            "bl: no records\n",
        ),
        (
            "stream --commit 1",
            Status::NoRecords,
            "",
            "bl: no records\n",
        ),
        (
            "status",
            Status::Ok,
            "{\"payload\":{\"loadIds\":[]},\"status\":\"200 OK\"}\n",
            "",
        ),
    ] {
        let is = comes_to(&rt, alloc, &mut machine, words, status, out, err);
        assert!(rt; is, "{words}");
    }
}

#[test]
fn a_page_has_the_records_that_are_asked_for(rt: HostRuntime) {
    let alloc = rt.alloc();
    let mut machine = new_machine(&rt, alloc, FOLDER_OF_TWO);
    machine.run(&rt, alloc, "load s3://b/f");
    let table: [(&str, u32, u32, &[&str]); 6] = [
        ("stream --type LATEST", 2, 1, &[EDGE]),
        (
            "stream --type TRIM_HORIZON",
            2,
            1,
            &[LABEL_1, LABEL_2, EDGE],
        ),
        ("stream --type TRIM_HORIZON --limit 1", 1, 1, &[LABEL_1]),
        ("stream --commit 1 --op 999", 2, 1, &[EDGE]),
        ("stream --op 2 --limit 1 --commit 1", 1, 2, &[LABEL_2]),
        (
            "stream --commit 1 --type AFTER_SEQUENCE_NUMBER",
            2,
            1,
            &[LABEL_2, EDGE],
        ),
    ];
    for (words, commit, op, records) in &table {
        let out = page(&rt, alloc, *commit, *op, records);
        let is = comes_to(
            &rt,
            alloc,
            &mut machine,
            words,
            Status::Ok,
            out.as_str(),
            "",
        );
        assert!(rt; is, "{words}");
    }
    let words = "stream --type AFTER_SEQUENCE_NUMBER --commit 2";
    let status = Status::NoRecords;
    assert!(rt;
        comes_to(
            &rt,
            alloc,
            &mut machine,
            words,
            status,
            "",
            "bl: no records\n"
        )
    );
}

const MISTYPED: FileTable = &[("f", b"~id,age:Int\na,1\nb,x\n")];

const LOADED: &str =
    "{\"payload\":{\"errors\":{\"endIndex\":0,\"errorLogs\":[],\"loadId\":\"00000000-0000-4000-8000-000000000001\",\"startIndex\":0},\"failedFeeds\":[],\"feedCount\":[{\"LOAD_COMPLETED\":1}],\"overallStatus\":{\"datatypeMismatchErrors\":0,\"fullUri\":\"s3://b/people.csv\",\"insertErrors\":0,\"parsingErrors\":0,\"retryNumber\":0,\"runNumber\":1,\"startTime\":0,\"status\":\"LOAD_COMPLETED\",\"totalDuplicates\":0,\"totalRecords\":1,\"totalTimeSpent\":0}},\"status\":\"200 OK\"}\n";

const FAILED: &str =
    "{\"payload\":{\"errors\":{\"endIndex\":1,\"errorLogs\":[{\"errorCode\":\"NOT_OF_TYPE\",\"errorMessage\":\"the value is not of its type in column 2\",\"fileName\":\"s3://b/f\",\"recordNum\":2}],\"loadId\":\"00000000-0000-4000-8000-000000000001\",\"startIndex\":1},\"failedFeeds\":[{\"datatypeMismatchErrors\":1,\"fullUri\":\"s3://b/f\",\"insertErrors\":0,\"parsingErrors\":0,\"retryNumber\":0,\"runNumber\":1,\"startTime\":0,\"status\":\"LOAD_FAILED\",\"totalDuplicates\":0,\"totalRecords\":2,\"totalTimeSpent\":0}],\"feedCount\":[{\"LOAD_FAILED\":1}],\"overallStatus\":{\"datatypeMismatchErrors\":1,\"fullUri\":\"s3://b/f\",\"insertErrors\":0,\"parsingErrors\":0,\"retryNumber\":0,\"runNumber\":1,\"startTime\":0,\"status\":\"LOAD_FAILED\",\"totalDuplicates\":0,\"totalRecords\":2,\"totalTimeSpent\":0}},\"status\":\"200 OK\"}\n";

const IDS: &str =
    "{\"payload\":{\"loadIds\":[\"00000000-0000-4000-8000-000000000002\",\"00000000-0000-4000-8000-000000000001\"]},\"status\":\"200 OK\"}\n";

// Whether the status of the first load is this.
fn has_status<R: Threads + Sync + Abort>(
    rt: &R,
    alloc: Global,
    machine: &mut Machine,
    out: &str,
) -> bool {
    let words = format!(in alloc; "status {ID}").expect(rt, "memory");
    comes_to(rt, alloc, machine, words.as_str(), Status::Ok, out, "")
}

#[test]
fn the_loads_of_a_store_are_shown(rt: HostRuntime) {
    let alloc = rt.alloc();
    let load = "load s3://b/people.csv";
    let mut machine = new_machine(&rt, alloc, PEOPLE);
    machine.run(&rt, alloc, load);
    assert!(rt; has_status(&rt, alloc, &mut machine, LOADED), "one load");
    machine.run(&rt, alloc, load);
    assert!(rt; comes_to(&rt, alloc, &mut machine, "status", Status::Ok, IDS, ""));
}

#[test]
fn the_errors_of_a_load_are_shown(rt: HostRuntime) {
    let alloc = rt.alloc();
    let mut machine = new_machine(&rt, alloc, MISTYPED);
    machine.run(&rt, alloc, "load s3://b/f");
    assert!(rt;
        has_status(&rt, alloc, &mut machine, FAILED),
        "a load that failed"
    );
}

const STREAM: &str = "stream --type TRIM_HORIZON";

// Where a call of the journal fails nothing is shown, and the journal stays as it is.
fn shows_nothing<R: Threads + Sync + Abort>(
    rt: &R,
    alloc: Global,
    machine: &mut Machine,
    journal: &[u8],
    call: u64,
) -> bool {
    machine.disks = store(rt, alloc, journal, faults_at(rt, alloc, call));
    let status = machine.run(rt, alloc, STREAM);
    let is_fault = status == Status::StoreFault && machine.wrote(b"", b"bl: store fault\n");
    is_fault && machine.journal(rt).as_slice() == journal
}

// Showing writes nothing to a store, and where a device fails says so.
#[test]
fn showing_leaves_the_store_as_it_is(rt: HostRuntime) {
    let alloc = rt.alloc();
    let mut machine = new_machine(&rt, alloc, FOLDER_OF_TWO);
    machine.run(&rt, alloc, "load s3://b/f");
    let journal = machine.journal(&rt);
    let fails = Failing { out: 1, ..NOTHING };
    let status = machine.runs(&rt, alloc, STREAM, fails);
    assert!(rt; status == Status::WriteFault);
    assert!(rt; machine.err.as_slice() == b"bl: write fault\n".as_slice());
    assert!(rt; machine.journal(&rt).as_slice() == journal.as_slice());
    for call in 1u64..4 {
        let bytes = journal.as_slice();
        assert!(rt;
            shows_nothing(&rt, alloc, &mut machine, bytes, call),
            "call {call}"
        );
    }
}

// The help names each command, and opens nothing.
#[test]
fn help_needs_no_store(rt: HostRuntime) {
    let alloc = rt.alloc();
    let mut machine = new_machine(&rt, alloc, NO_FILES);
    machine.disks = store(
        &rt,
        alloc,
        b"this is no journal at all",
        Faults::none(alloc),
    );
    let status = machine.run(&rt, alloc, "help");
    assert!(rt; status == Status::Ok && machine.err.is_empty());
    let text = str::from_utf8(machine.out.as_slice()).unwrap_or("");
    for part in ["\n  load ", "\n  status ", "\n  stream ", "\n  help "] {
        assert!(rt; text.contains(part), "{part}");
    }
    let lines = text.lines().count();
    assert!(rt; lines > 10 && lines <= 24, "{lines} lines");
    assert!(rt; text.lines().all(|line| line.len() <= 80));
}
