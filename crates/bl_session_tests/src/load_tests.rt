// Loads by requests: taken on, listed, shown, cancelled, queued, and over stores that fail.
use crate::test_stores::{
    LOAD, LOAD_1, LOADS_1, NO_LOADS, delete_is_refused, deletes, fails_at, gets, load_is_refused,
    new_engine, posts, refusal,
};
use bl_engine::Engine;
use bl_outside::{Faults, MemoryDisk};
use std::alloc::Global;
use std::process::Abort;

const QUEUED: &str =
    "{\"source\":\"s3://b/people.csv\",\"format\":\"csv\",\"queueRequest\":\"TRUE\"}";

const CANCELLED: &str = "{\"status\":\"200 OK\"}";

// The status of a load that is to be planned.
const STATUS_1: &str =
    "{\"payload\":{\"feedCount\":[],\"overallStatus\":{\"datatypeMismatchErrors\":0,\"fullUri\":\"s3://b/people.csv\",\"insertErrors\":0,\"parsingErrors\":0,\"retryNumber\":0,\"runNumber\":0,\"startTime\":0,\"status\":\"LOAD_NOT_STARTED\",\"totalDuplicates\":0,\"totalRecords\":0,\"totalTimeSpent\":0}},\"status\":\"200 OK\"}";

const STATUS_1_ERRORS: &str =
    "{\"payload\":{\"errors\":{\"endIndex\":0,\"errorLogs\":[],\"loadId\":\"00000000-0000-4000-8000-000000000001\",\"startIndex\":0},\"feedCount\":[],\"overallStatus\":{\"datatypeMismatchErrors\":0,\"fullUri\":\"s3://b/people.csv\",\"insertErrors\":0,\"parsingErrors\":0,\"retryNumber\":0,\"runNumber\":0,\"startTime\":0,\"status\":\"LOAD_NOT_STARTED\",\"totalDuplicates\":0,\"totalRecords\":0,\"totalTimeSpent\":0}},\"status\":\"200 OK\"}";

fn a_load_is_taken_on<R: Abort>(rt: &R, alloc: Global, engine: &mut Engine<MemoryDisk>) {
    gets(rt, alloc, engine, "/loader", "200 OK", NO_LOADS);
    posts(rt, alloc, engine, LOAD, "200 OK", LOAD_1);
    gets(rt, alloc, engine, "/loader", "200 OK", LOADS_1);
    assert!(rt; engine.seq() == 1);
    let busy = "load 00000000-0000-4000-8000-000000000001 has not ended";
    load_is_refused(rt, alloc, engine, LOAD, "LoadBusy", busy);
    assert!(rt; engine.seq() == 1);
}

// One load is shown in each form of its id, by its path and by a parameter.
fn a_load_is_shown<R: Abort>(rt: &R, alloc: Global, engine: &mut Engine<MemoryDisk>) {
    for target in [
        "/loader/00000000-0000-4000-8000-000000000001",
        "/loader/00000000000040008000000000000001",
        "/loader/{00000000-0000-4000-8000-000000000001}",
        "/loader/urn:uuid:00000000-0000-4000-8000-000000000001",
        "/loader/00000000-0000-4000-8000-000000000001?loadId=x&loadId=y",
        "/loader?loadId=00000000-0000-4000-8000-000000000001&loadId=x",
        "/loader?loadId=%7B00000000-0000-4000-8000-000000000001%7d&details=FALSE",
        "/loader?loadId=00000000000040008000000000000001&errors=false&page=1000000",
        "/loader?loadId=00000000000040008000000000000001&errorsPerPage=10000&limit=0",
        "/loader?loadId=00000000000040008000000000000001&page=7&page=0&other=1",
    ] {
        gets(rt, alloc, engine, target, "200 OK", STATUS_1);
    }
    let errors = "/loader/00000000-0000-4000-8000-000000000001?errors=tRuE&page=1";
    gets(rt, alloc, engine, errors, "200 OK", STATUS_1_ERRORS);
    let unknown = refusal(alloc, "UnknownLoad", "no kept load has this id").expect(rt, "memory");
    for target in [
        "/loader/00000000-0000-4000-8000-000000000002",
        "/loader/00000000-0000-0000-0000-000000000000",
        "/loader/x",
        "/loader?loadId=",
    ] {
        gets(
            rt,
            alloc,
            engine,
            target,
            "400 Bad Request",
            unknown.as_str(),
        );
    }
}

fn a_load_is_cancelled<R: Abort>(rt: &R, alloc: Global, engine: &mut Engine<MemoryDisk>) {
    let unknown = "no kept load has this id";
    delete_is_refused(rt, alloc, engine, "/loader/x", "UnknownLoad", unknown);
    let id = "/loader?loadId=00000000-0000-4000-8000-000000000001";
    deletes(rt, alloc, engine, id, "200 OK", CANCELLED);
    assert!(rt; engine.seq() == 2);
    let ended = "the load has ended as LOAD_CANCELLED_BY_USER";
    let id = "/loader/00000000-0000-4000-8000-000000000001";
    delete_is_refused(rt, alloc, engine, id, "LoadEnded", ended);
    assert!(rt; engine.seq() == 2);
    let missing = "parameter loadId";
    let code = "InvalidParameterException";
    delete_is_refused(rt, alloc, engine, "/loader", code, missing);
}

// 64 loads wait behind the first.
fn the_queue_is_full<R: Abort>(rt: &R, alloc: Global, engine: &mut Engine<MemoryDisk>) {
    posts(rt, alloc, engine, LOAD, "200 OK", LOAD_1);
    for number in 2..66u64 {
        let body = format!(in alloc;
            "{{\"payload\":{{\"loadId\":\"00000000-0000-4000-8000-{number:012x}\"}},\"status\":\"200 OK\"}}"
        );
        let body = body.expect(rt, "memory");
        posts(rt, alloc, engine, QUEUED, "200 OK", body.as_str());
    }
    let newest =
        "{\"payload\":{\"loadIds\":[\"00000000-0000-4000-8000-000000000041\"]},\"status\":\"200 OK\"}";
    gets(rt, alloc, engine, "/loader?limit=1", "200 OK", newest);
    gets(
        rt,
        alloc,
        engine,
        "/loader?includeQueuedLoads=false&limit=100",
        "200 OK",
        LOADS_1,
    );
    load_is_refused(
        rt,
        alloc,
        engine,
        QUEUED,
        "QueueFull",
        "64 loads are queued",
    );
    let busy = "load 00000000-0000-4000-8000-000000000001 has not ended";
    load_is_refused(rt, alloc, engine, LOAD, "LoadBusy", busy);
    assert!(rt; engine.seq() == 65);
}

// The device call of this number fails while a load is taken on, and then these loads are there.
fn a_load_fails<R: Abort>(rt: &R, alloc: Global, call: u64, loads: &str) {
    let plan = fails_at(alloc, call).expect(rt, "memory");
    let mut engine = new_engine(alloc, plan).expect(rt, "a store");
    let failed = refusal(alloc, "StoreFault", "the store failed").expect(rt, "memory");
    let first = "500 Internal Server Error";
    posts(rt, alloc, &mut engine, LOAD, first, failed.as_str());
    gets(rt, alloc, &mut engine, "/loader", "200 OK", loads);
}

#[test]
fn a_load_is_taken_on_shown_and_cancelled(rt: HostRuntime) {
    let alloc = rt.alloc();
    let mut engine = new_engine(alloc, Faults::none(alloc)).expect(&rt, "a store");
    a_load_is_taken_on(&rt, alloc, &mut engine);
    a_load_is_shown(&rt, alloc, &mut engine);
    a_load_is_cancelled(&rt, alloc, &mut engine);
}

#[test]
fn sixty_four_loads_wait_and_no_more(rt: HostRuntime) {
    let alloc = rt.alloc();
    let mut engine = new_engine(alloc, Faults::none(alloc)).expect(&rt, "a store");
    the_queue_is_full(&rt, alloc, &mut engine);
}

// To open an empty store takes 7 device calls. Of a load's the second is the sync before the gate is
// opened, and the fourth the one behind it.
#[test]
fn a_store_that_fails_is_opened_again(rt: HostRuntime) {
    a_load_fails(&rt, rt.alloc(), 9, NO_LOADS);
    a_load_fails(&rt, rt.alloc(), 11, LOADS_1);
}
