// Scripts over an engine in memory.
ghost use Rattle.std.specs.Prelude.{◌≡◌, ◌<◌};

use bl_engine::Engine;
use bl_outside::{
    Disks, Faults, FixedClock, List, MemoryDisk, MemoryFolder, MemorySink, MemorySource, Steps,
    Text,
};
use bl_script::{ScriptEnd, run_script};
use bl_session::SessionFault;
use bl_workers::OpenGate;
use std::alloc::Global;
use std::marker::Brand;
use std::process::Abort;
use std::sync::ledger::{Blank, Ledger};
use std::thread::Threads;

const REQUESTS: &str =
    "POST /loader HTTP/1.1\r\ncontent-length: 36\r\n\r\n{\"source\":\"s3://b/f\",\"format\":\"csv\"}GET /loader HTTP/1.1\r\n\r\n";

const TAKEN_ON: &[u8] =
    b"HTTP/1.1 200 OK\r\ncontent-type: application/json\r\ncontent-length: 79\r\n\r\n{\"payload\":{\"loadId\":\"00000000-0000-4000-8000-000000000001\"},\"status\":\"200 OK\"}";

fn text<R: Abort>(rt: &R, alloc: Global, bytes: &[u8]) -> Text {
    Text::copy_of(alloc, bytes).expect(rt, "memory")
}

fn fails_at<R: Abort>(rt: &R, alloc: Global, call: u64) -> Faults {
    let mut fails = List::new(alloc);
    if call > 0 {
        fails.push(call).expect(rt, "memory");
    }
    Faults::of(fails, 0)
}

fn disk<R: Abort>(rt: &R, alloc: Global) -> MemoryDisk {
    let disk = MemoryDisk::new(alloc, Text::new(alloc), Faults::none(alloc));
    disk.expect(rt, "memory")
}

fn disks<R: Abort>(rt: &R, alloc: Global) -> Disks<MemoryDisk> {
    Disks {
        journal: disk(rt, alloc),
        left: disk(rt, alloc),
        right: disk(rt, alloc),
    }
}

fn opened<L: Ledger>(
    alloc: Global,
    disks: Disks<MemoryDisk>,
    blank: Blank,
) -> Option<Engine<MemoryDisk>>
    requires name { blank.name ≡ L.name }
    requires parts { blank.parts ≡ L.parts }
    requires some { 0 < blank.parts }
{
    let mut steps = Steps::<L>::new(blank);
    match Engine::open_counted(alloc, 0, disks, &mut steps) {
        Ok(engine) => Some(engine),
        Err(_) => None,
    }
}

// An engine over an empty store.
fn new_engine(alloc: Global, disks: Disks<MemoryDisk>) -> Option<Engine<MemoryDisk>> {
    opened::<Brand>(alloc, disks, Blank::new(1))
}

fn folder<R: Abort>(rt: &R, alloc: Global) -> MemoryFolder {
    let mut folder = MemoryFolder::new(alloc, 100, Faults::none(alloc));
    let file = text(rt, alloc, b"~id\nv1\n");
    let put = folder.put_file(text(rt, alloc, b"b/f"), file);
    put.expect(rt, "memory");
    folder
}

// How a script over an empty store ends, where this call of its input and of its output fails.
fn ends<R: Threads + Sync + Abort>(
    rt: &R,
    alloc: Global,
    requests: &str,
    input_fails: u64,
    out_fails: u64,
) -> (Result<ScriptEnd, SessionFault>, Text) {
    let engine = new_engine(alloc, disks(rt, alloc)).expect(rt, "an empty store is opened");
    let mut folder = folder(rt, alloc);
    let mut clock = FixedClock::new(0);
    let requests = text(rt, alloc, requests.as_bytes());
    let mut input = MemorySource::new(requests, 60, fails_at(rt, alloc, input_fails));
    let mut out = MemorySink::new(alloc, fails_at(rt, alloc, out_fails));
    let (came, _) = run_script(
        rt,
        alloc,
        engine,
        &mut folder,
        &mut clock,
        0,
        &OpenGate,
        2,
        &mut input,
        &mut out,
    );
    (came, out.bytes().copy(alloc).expect(rt, "memory"))
}

#[test]
fn a_script_answers_its_requests(rt: HostRuntime) {
    let alloc = rt.alloc();
    let (came, out) = ends(&rt, alloc, REQUESTS, 0, 0);
    assert!(rt; came == Ok(ScriptEnd::Drained(None)));
    assert!(rt; out.as_slice().starts_with(TAKEN_ON));
    assert!(rt;
        out.as_slice()
            .ends_with(b"000000000001\"]},\"status\":\"200 OK\"}")
    );
    let (came, out) = ends(&rt, alloc, "GET /loa", 0, 0);
    assert!(rt; came == Ok(ScriptEnd::Torn));
    assert!(rt; out.is_empty());
}

#[test]
fn a_stream_that_fails_ends_it(rt: HostRuntime) {
    let alloc = rt.alloc();
    let (came, out) = ends(&rt, alloc, REQUESTS, 1, 0);
    assert!(rt; came == Err(SessionFault::ReadFault));
    assert!(rt; out.is_empty());
    let (came, out) = ends(&rt, alloc, REQUESTS, 0, 2);
    assert!(rt; came == Err(SessionFault::WriteFault));
    assert!(rt; out.as_slice().starts_with(TAKEN_ON));
    assert!(rt; !out.as_slice().ends_with(b"}"));
}

// A head that is refused has its reply, which closes: the request behind it isn't answered.
fn closes<R: Threads + Sync + Abort>(
    rt: &R,
    alloc: Global,
    head: &str,
    first: &str,
    code: &str,
    message: &str,
) {
    let body = format!(in alloc; "{{\"code\":\"{code}\",\"detailedMessage\":\"{message}\"}}");
    let body = body.expect(rt, "memory");
    let length = body.len();
    let reply = format!(in alloc;
        "HTTP/1.1 {first}\r\ncontent-type: application/json\r\ncontent-length: {length}\r\nconnection: close\r\n\r\n{body}"
    );
    let reply = reply.expect(rt, "memory");
    let requests = format!(in alloc; "{head}GET /loader HTTP/1.1\r\n\r\n").expect(rt, "memory");
    let (came, out) = ends(rt, alloc, requests.as_str(), 0, 0);
    assert!(rt; came == Ok(ScriptEnd::Drained(None)), "{head}");
    assert!(rt; out.as_slice() == reply.as_bytes(), "{head}");
}

// A head, the first line of its reply, and the code and message.
type Refused = (&'static str, &'static str, &'static str, &'static str);

const REFUSED: [Refused; 4] = [
    (
        "\u{1}\r\n\r\n",
        "400 Bad Request",
        "BadHead",
        "the request head can not be read",
    ),
    (
        "GET /loader HTTP/1.1\r\ncontent-length: x\r\n\r\n",
        "400 Bad Request",
        "BadLength",
        "content-length is not one number",
    ),
    (
        "POST /loader HTTP/1.1\r\ncontent-length: 1048577\r\n\r\n",
        "413 Payload Too Large",
        "BodyTooLarge",
        "the body has more than 1048576 bytes",
    ),
    (
        "GET /loader HTTP/1.1\r\ntransfer-encoding: chunked\r\n\r\n",
        "501 Not Implemented",
        "TransferEncoding",
        "transfer-encoding is not supported",
    ),
];

#[test]
fn a_head_that_is_refused_is_the_last(rt: HostRuntime) {
    let alloc = rt.alloc();
    for (head, first, code, message) in &REFUSED {
        closes(&rt, alloc, head, first, code, message);
    }
    let mut large = String::from_str(alloc, "GET /loader HTTP/1.1\r\n").expect(&rt, "memory");
    for _ in 0..65u64 {
        large.push_str("a: b\r\n").expect(&rt, "memory");
    }
    large.push_str("\r\n").expect(&rt, "memory");
    let first = "431 Request Header Fields Too Large";
    let message = "the request head is too large";
    closes(&rt, alloc, large.as_str(), first, "HeadTooLarge", message);
}
