// Requests that are answered between turns of the loader.
use crate::test_runs::{
    FOLDER_OF_TWO, Failing, FileTable, Machine, NO_FILES, NOTHING, PEOPLE, faults_at, new_machine,
    put, store, text,
};
use bl_cli::Status;
use std::alloc::Global;
use std::process::Abort;
use std::thread::Threads;

const POST: &str =
    "POST /loader HTTP/1.1\r\nhost: x\r\ncontent-length: 45\r\n\r\n{\"source\":\"s3://b/people.csv\",\"format\":\"csv\"}";

const LIST: &str = "GET /loader HTTP/1.1\r\n\r\n";

const SHOW: &str = "GET /loader/00000000-0000-4000-8000-000000000001 HTTP/1.1\r\n\r\n";

const TAKEN_ON: &str =
    "HTTP/1.1 200 OK\r\ncontent-type: application/json\r\ncontent-length: 79\r\n\r\n{\"payload\":{\"loadId\":\"00000000-0000-4000-8000-000000000001\"},\"status\":\"200 OK\"}";

const LISTED: &str =
    "HTTP/1.1 200 OK\r\ncontent-type: application/json\r\ncontent-length: 82\r\n\r\n{\"payload\":{\"loadIds\":[\"00000000-0000-4000-8000-000000000001\"]},\"status\":\"200 OK\"}";

// That reply and a half of the next one, which is as much as a sink in memory writes where it fails.
const TAKEN_ON_AND_HALF: &str =
    "HTTP/1.1 200 OK\r\ncontent-type: application/json\r\ncontent-length: 79\r\n\r\n{\"payload\":{\"loadId\":\"00000000-0000-4000-8000-000000000001\"},\"status\":\"200 OK\"}HTTP/1.1 200 OK\r\ncontent-type: application/json\r\ncontent-length: 82\r\n\r\n{\"pay";

const NONE_LISTED: &str =
    "HTTP/1.1 200 OK\r\ncontent-type: application/json\r\ncontent-length: 44\r\n\r\n{\"payload\":{\"loadIds\":[]},\"status\":\"200 OK\"}";

const COMPLETED: &str =
    "{\"payload\":{\"feedCount\":[{\"LOAD_COMPLETED\":1}],\"overallStatus\":{\"datatypeMismatchErrors\":0,\"fullUri\":\"s3://b/people.csv\",\"insertErrors\":0,\"parsingErrors\":0,\"retryNumber\":0,\"runNumber\":1,\"startTime\":0,\"status\":\"LOAD_COMPLETED\",\"totalDuplicates\":0,\"totalRecords\":1,\"totalTimeSpent\":0}},\"status\":\"200 OK\"}";

// Runs the words over these requests.
fn plays<R: Threads + Sync + Abort>(
    rt: &R,
    alloc: Global,
    machine: &mut Machine,
    words: &str,
    requests: &[&str],
    fails: Failing,
) -> Status {
    let mut all = String::new(alloc);
    for request in requests {
        all.push_str(request).expect(rt, "memory");
    }
    machine.input = text(rt, alloc, all.as_bytes());
    machine.runs(rt, alloc, words, fails)
}

// The last run wrote these replies, and nothing on the error output.
fn wrote<R: Abort>(rt: &R, alloc: Global, machine: &Machine, replies: &[&str]) -> bool {
    let mut all = String::new(alloc);
    for reply in replies {
        all.push_str(reply).expect(rt, "memory");
    }
    machine.wrote(all.as_bytes(), b"")
}

#[test]
fn a_load_is_taken_on_and_drained_at_the_end(rt: HostRuntime) {
    let alloc = rt.alloc();
    let mut machine = new_machine(&rt, alloc, PEOPLE);
    let status = plays(
        &rt,
        alloc,
        &mut machine,
        "script --turns 0",
        &[POST],
        NOTHING,
    );
    assert!(rt; status == Status::Ok);
    assert!(rt; wrote(&rt, alloc, &machine, &[TAKEN_ON]));
    let status = plays(&rt, alloc, &mut machine, "script", &[SHOW], NOTHING);
    assert!(rt; status == Status::Ok);
    assert!(rt; machine.out.as_slice().ends_with(COMPLETED.as_bytes()));
}

#[test]
fn turns_are_made_behind_each_reply(rt: HostRuntime) {
    let alloc = rt.alloc();
    let requests = [POST, LIST, LIST, SHOW];
    for (words, completed) in [
        ("script --turns 0", 0),
        ("script", 2),
        ("script --turns 1", 2),
        ("script --turns 1000", 2),
    ] {
        let mut machine = new_machine(&rt, alloc, PEOPLE);
        let status = plays(&rt, alloc, &mut machine, words, &requests, NOTHING);
        assert!(rt; status == Status::Ok, "{words}");
        assert!(rt; machine.count(b"LOAD_COMPLETED") == completed, "{words}");
        assert!(rt; machine.count(LISTED.as_bytes()) == 2, "{words}");
    }
}

// The input, the status, what is written, and the line of the status.
type Ending = (&'static str, Status, &'static str, &'static str);

const ENDINGS: [Ending; 6] = [
    ("", Status::Ok, "", ""),
    ("GET /loader HT", Status::TornInput, "", "bl: torn input\n"),
    (
        "GET /loader HTTP/1.1\r\n\r\nGET /loader HT",
        Status::TornInput,
        NONE_LISTED,
        "bl: torn input\n",
    ),
    (
        "GET /loader HTTP/1.1\r\nconnection: close\r\n\r\nGET /loader HTTP/1.1\r\n\r\n",
        Status::Ok,
        "HTTP/1.1 200 OK\r\ncontent-type: application/json\r\ncontent-length: 44\r\nconnection: close\r\n\r\n{\"payload\":{\"loadIds\":[]},\"status\":\"200 OK\"}",
        "",
    ),
    (
        "GET /loader HTTP/1.1\r\ncontent-length: 1\r\ncontent-length: 1\r\n\r\nx",
        Status::Ok,
        "HTTP/1.1 400 Bad Request\r\ncontent-type: application/json\r\ncontent-length: 73\r\nconnection: close\r\n\r\n{\"code\":\"BadLength\",\"detailedMessage\":\"content-length is not one number\"}",
        "",
    ),
    (
        "PUT /loader HTTP/1.1\r\n\r\n",
        Status::Ok,
        "HTTP/1.1 405 Method Not Allowed\r\ncontent-type: application/json\r\ncontent-length: 75\r\nallow: GET, POST, DELETE\r\n\r\n{\"code\":\"MethodNotAllowed\",\"detailedMessage\":\"no such method on this path\"}",
        "",
    ),
];

#[test]
fn inputs_end_in_their_ways(rt: HostRuntime) {
    let alloc = rt.alloc();
    for (input, status, out, err) in &ENDINGS {
        let mut machine = new_machine(&rt, alloc, NO_FILES);
        let came = plays(&rt, alloc, &mut machine, "script", &[*input], NOTHING);
        assert!(rt; came == *status, "{input}");
        assert!(rt; machine.wrote(out.as_bytes(), err.as_bytes()), "{input}");
    }
}

#[test]
fn words_of_a_script_have_one_form(rt: HostRuntime) {
    let alloc = rt.alloc();
    for words in [
        "script x",
        "script --turns",
        "script --turns x",
        "script --turns 1001",
        "script --turns -1",
        "script --turns 1 --turns 1",
        "script 1 --turns",
        "load script",
    ] {
        let mut machine = new_machine(&rt, alloc, NO_FILES);
        let came = plays(&rt, alloc, &mut machine, words, &[LIST], NOTHING);
        assert!(rt; came == Status::Usage, "{words}");
        assert!(rt; machine.wrote(b"", b"bl: usage: see help\n"), "{words}");
    }
}

// A script whose input or output fails leaves what it answered before, and the store what was taken
// on.
fn a_stream_fails<R: Threads + Sync + Abort>(
    rt: &R,
    alloc: Global,
    fails: Failing,
    status: Status,
    out: &str,
    err: &str,
) {
    let mut machine = new_machine(rt, alloc, PEOPLE);
    let came = plays(rt, alloc, &mut machine, "script", &[POST, LIST], fails);
    assert!(rt; came == status);
    assert!(rt; machine.wrote(out.as_bytes(), err.as_bytes()));
}

#[test]
fn a_stream_that_fails_ends_a_script(rt: HostRuntime) {
    let alloc = rt.alloc();
    let read = Status::ReadFault;
    for call in 1..3 {
        let fails = Failing {
            input: call,
            ..NOTHING
        };
        a_stream_fails(&rt, alloc, fails, read, "", "bl: read fault\n");
    }
    let fails = Failing {
        input: 3,
        ..NOTHING
    };
    a_stream_fails(&rt, alloc, fails, read, TAKEN_ON, "bl: read fault\n");
    let fails = Failing { out: 2, ..NOTHING };
    let write = Status::WriteFault;
    a_stream_fails(
        &rt,
        alloc,
        fails,
        write,
        TAKEN_ON_AND_HALF,
        "bl: write fault\n",
    );
}

// The call of the journal of this number fails: the script goes on, each request has a reply, and
// the status tells of the turn. A next script ends the load.
fn a_turn_fails<R: Threads + Sync + Abort>(rt: &R, alloc: Global, call: u64, status: Status) {
    let mut machine = new_machine(rt, alloc, PEOPLE);
    machine.disks = store(rt, alloc, b"", faults_at(rt, alloc, call));
    let came = plays(
        rt,
        alloc,
        &mut machine,
        "script",
        &[POST, LIST, LIST],
        NOTHING,
    );
    assert!(rt; came == status, "{call}");
    assert!(rt; machine.count(b"HTTP/1.1 ") == 3, "{call}");
    let status = plays(rt, alloc, &mut machine, "script", &[POST, SHOW], NOTHING);
    assert!(rt; status == Status::Ok, "{call}");
    let status = machine.run(rt, alloc, "status 00000000-0000-4000-8000-000000000001");
    assert!(rt; status == Status::Ok, "{call}");
    assert!(rt; machine.count(b"LOAD_COMPLETED") == 2, "{call}");
}

const FAILING: [(u64, Status); 3] = [
    (12, Status::StoreFault),
    (14, Status::StoreFault),
    (18, Status::StoreFault),
];

#[test]
fn a_script_goes_on_behind_a_turn_that_fails(rt: HostRuntime) {
    let alloc = rt.alloc();
    for (call, status) in FAILING {
        a_turn_fails(&rt, alloc, call, status);
    }
}

// Persons of whom the one behind the first batch is refused.
fn persons<R: Abort>(rt: &R, alloc: Global) -> String {
    let mut text = String::from_str(alloc, "~id,age:Int\n").expect(rt, "memory");
    for number in 1..1_003_u32 {
        let age = if number == 1_001 { "x" } else { "5" };
        let row = format!(in alloc; "v{number},{age}\n").expect(rt, "memory");
        text.push_str(row.as_str()).expect(rt, "memory");
    }
    text
}

const POST_ALL: &str =
    "POST /loader HTTP/1.1\r\ncontent-length: 36\r\n\r\n{\"source\":\"s3://b/f\",\"format\":\"csv\"}";

const CANCEL: &str = "DELETE /loader/00000000-0000-4000-8000-000000000001 HTTP/1.1\r\n\r\n";

const POST_AGAIN: &str =
    "POST /loader HTTP/1.1\r\ncontent-length: 52\r\n\r\n{\"source\":\"s3://b/f\",\"format\":\"csv\",\"mode\":\"RESUME\"}";

// The first load is cancelled behind its first batch; the second one goes on with it, and stops at
// record 1,001.
#[test]
fn a_load_is_cancelled_and_gone_on_with(rt: HostRuntime) {
    let alloc = rt.alloc();
    let files: FileTable = &[("f/b.csv", b"~id\nw1\n")];
    let mut machine = new_machine(&rt, alloc, files);
    let persons = persons(&rt, alloc);
    put(
        &rt,
        alloc,
        &mut machine.folder,
        "f/a.csv",
        persons.as_bytes(),
    );
    let requests = [POST_ALL, CANCEL, POST_AGAIN];
    let came = plays(
        &rt,
        alloc,
        &mut machine,
        "script --turns 2",
        &requests,
        NOTHING,
    );
    assert!(rt; came == Status::Ok);
    assert!(rt; machine.count(b"HTTP/1.1 200 OK") == 3);
    machine.run(&rt, alloc, "status 00000000-0000-4000-8000-000000000001");
    assert!(rt; machine.count(b"LOAD_CANCELLED_BY_USER") >= 1);
    assert!(rt; machine.count(b"\"totalRecords\":1000,") >= 1);
    machine.run(&rt, alloc, "status 00000000-0000-4000-8000-000000000002");
    assert!(rt;
        machine.count(b"\"status\":\"LOAD_FAILED\",\"totalDuplicates\":0,\"totalRecords\":1001,")
            >= 1
    );
    assert!(rt; machine.count(b"\"recordNum\":1001") == 1);
}

// The stream tells what the requests before it loaded.
#[test]
fn the_stream_is_read_by_requests(rt: HostRuntime) {
    let alloc = rt.alloc();
    let mut machine = new_machine(&rt, alloc, FOLDER_OF_TWO);
    let requests = [
        POST_ALL,
        "GET /pg/stream?iteratorType=LATEST HTTP/1.1\r\n\r\n",
    ];
    let came = plays(
        &rt,
        alloc,
        &mut machine,
        "script --turns 9",
        &requests,
        NOTHING,
    );
    assert!(rt; came == Status::Ok);
    assert!(rt; machine.count(b"\"lastEventId\":{\"commitNum\":2,\"opNum\":1}") == 1);
    assert!(rt; machine.count(b"\"id\":\"e1\"") == 1);
}
