// Runs whose store, folder or streams fail.
use crate::test_runs::{
    FOLDER_OF_TWO, Failing, FileTable, NOTHING, PEOPLE, faults_at, folder_of, machine_with,
    new_machine, store,
};
use bl_cli::Status;
use bl_outside::Faults;
use std::alloc::Global;
use std::process::Abort;
use std::thread::Threads;

const STORE_FAULT: &[u8] = b"bl: store fault\n";

const WRITE_FAULT: &[u8] = b"bl: write fault\n";

// Whether a load isn't made where this call of the journal fails. The next one then makes it.
fn fails_at<R: Threads + Sync + Abort>(rt: &R, alloc: Global, call: u64) -> bool {
    let load = "load s3://b/f";
    let mut machine = new_machine(rt, alloc, FOLDER_OF_TWO);
    machine.disks = store(rt, alloc, b"", faults_at(rt, alloc, call));
    let status = machine.run(rt, alloc, load);
    if status != Status::Ok {
        assert!(rt; status == Status::StoreFault && machine.wrote(b"", STORE_FAULT));
        let again = machine.run(rt, alloc, load);
        assert!(rt; again == Status::Ok, "after call {call}");
        assert!(rt; machine.count(b" LOAD_COMPLETED 3 0 0 0 0\n") == 1);
    }
    status != Status::Ok
}

// Calls are made to open an empty store, and four for each of the load's six entries.
#[test]
fn each_call_of_the_journal_may_fail(rt: HostRuntime) {
    let alloc = rt.alloc();
    let mut faults: u64 = 0;
    for call in 1u64..60 {
        if fails_at(&rt, alloc, call) {
            faults = faults.saturating_add(1);
        }
    }
    assert!(rt; faults >= 24);
}

#[test]
fn a_sink_that_fails_is_a_write_fault(rt: HostRuntime) {
    let alloc = rt.alloc();
    let mut machine = new_machine(&rt, alloc, FOLDER_OF_TWO);
    let fails = Failing { out: 1, ..NOTHING };
    let status = machine.runs(&rt, alloc, "load s3://b/f", fails);
    assert!(rt; status == Status::WriteFault);
    assert!(rt; machine.wrote(b"00000000-0000-4000-8000-0000000", WRITE_FAULT));
    let fails = Failing { err: 1, ..NOTHING };
    let status = machine.runs(&rt, alloc, "load b/f", fails);
    assert!(rt; status == Status::WriteFault && machine.wrote(b"", b"bl: usage:"));
}

const TWO_FILES: FileTable = &[("f/a.csv", b"~id\nv1\n"), ("f/b.csv", b"~id\nv2\n")];

// How a load ended whose folder fails at a call.
enum Cut {
    Whole,
    GoneOnWith,
    Refused,
}

fn cut_at<R: Threads + Sync + Abort>(rt: &R, alloc: Global, call: u64) -> Cut {
    let folder = folder_of(rt, alloc, TWO_FILES, faults_at(rt, alloc, call));
    let disks = store(rt, alloc, b"", Faults::none(alloc));
    let mut machine = machine_with(alloc, folder, disks);
    let status = machine.run(rt, alloc, "load s3://b/f --keep-going");
    if status == Status::Ok {
        return Cut::Whole;
    }
    assert!(rt;
        status == Status::JobNotCompleted && machine.err.is_empty(),
        "call {call}"
    );
    machine.folder = folder_of(rt, alloc, TWO_FILES, Faults::none(alloc));
    let words = "load s3://b/f --mode RESUME --keep-going";
    if machine.run(rt, alloc, words) != Status::Ok {
        return Cut::Refused;
    }
    assert!(rt;
        machine.wrote_line(rt, alloc, 2, "LOAD_COMPLETED 2 0 0 0 0"),
        "call {call}"
    );
    Cut::GoneOnWith
}

// A fault of the folder stops the load whatever it is asked; the next one goes on with it. First
// come the listing and the files of the plan, and then those of the load, which is gone on with.
#[test]
fn each_call_of_the_folder_may_fail(rt: HostRuntime) {
    let alloc = rt.alloc();
    let mut refused: u64 = 0;
    let mut gone_on_with: u64 = 0;
    for call in 1u64..20 {
        match cut_at(&rt, alloc, call) {
            Cut::Whole => {}
            Cut::GoneOnWith => gone_on_with = gone_on_with.saturating_add(1),
            Cut::Refused => refused = refused.saturating_add(1),
        }
    }
    assert!(rt; refused > 0 && gone_on_with >= 2);
}

fn opens<R: Threads + Sync + Abort>(
    rt: &R,
    alloc: Global,
    journal: &[u8],
    status: Status,
    err: &[u8],
) -> bool {
    let mut machine = new_machine(rt, alloc, PEOPLE);
    machine.disks = store(rt, alloc, journal, Faults::none(alloc));
    let ended = machine.run(rt, alloc, "load s3://b/people.csv");
    ended == status && machine.err.as_slice() == err
}

#[test]
fn a_file_that_is_no_journal_is_a_bad_store(rt: HostRuntime) {
    let table: [(&[u8], Status, &[u8]); 4] = [
        (
            b"hello, this is text!",
            Status::BadStore(0),
            b"bl: bad store at 0\n",
        ),
        (b"hello", Status::Ok, b""),
        (
            b"NEPTLOAD-JRNL-1\x01\x00\x00\x00\x01\xff\x00",
            Status::BadStore(15),
            b"bl: bad store at 15\n",
        ),
        (b"NEPTLOAD-JRNL-1\x00rest", Status::Ok, b""),
    ];
    for (journal, status, err) in &table {
        assert!(rt; opens(&rt, rt.alloc(), journal, *status, err), "{status:?}");
    }
}
