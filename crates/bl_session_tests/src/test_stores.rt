// Stores over disks in memory, requests over them, and their replies.
ghost use Rattle.std.specs.Prelude.{◌≡◌, ◌<◌};

use bl_engine::Engine;
use bl_http::Buffer;
use bl_outside::{
    Disks, Faults, FixedClock, List, MemoryDisk, MemorySink, MemorySource, NoMemory, Steps, Text,
};
use bl_session::{EngineDesk, SessionFault, Step, step_over};
use std::alloc::Global;
use std::marker::Brand;
use std::process::Abort;
use std::sync::ledger::{Blank, Ledger};

pub const LOAD: &str = "{\"source\":\"s3://b/people.csv\",\"format\":\"csv\"}";

pub const LOAD_1: &str =
    "{\"payload\":{\"loadId\":\"00000000-0000-4000-8000-000000000001\"},\"status\":\"200 OK\"}";

pub const LOADS_1: &str =
    "{\"payload\":{\"loadIds\":[\"00000000-0000-4000-8000-000000000001\"]},\"status\":\"200 OK\"}";

pub const NO_LOADS: &str = "{\"payload\":{\"loadIds\":[]},\"status\":\"200 OK\"}";

fn disk(alloc: Global, plan: Faults) -> Result<MemoryDisk, NoMemory> {
    MemoryDisk::new(alloc, Text::new(alloc), plan)
}

fn disks(alloc: Global, plan: Faults) -> Result<Disks<MemoryDisk>, NoMemory> {
    Ok(Disks {
        journal: disk(alloc, plan)?,
        left: disk(alloc, Faults::none(alloc))?,
        right: disk(alloc, Faults::none(alloc))?,
    })
}

/// The device call of this number fails.
pub fn fails_at(alloc: Global, call: u64) -> Option<Faults> {
    let mut fails = List::new(alloc);
    fails.push(call).ok()?;
    Some(Faults::of(fails, 0))
}

fn opened<L: Ledger>(
    alloc: Global,
    disks: Disks<MemoryDisk>,
    blank: Blank,
) -> Option<Engine<MemoryDisk>>
    requires name { blank.name ≡ L.name }
    requires parts { blank.parts ≡ L.parts }
    requires some { 0 < blank.parts }
{
    let mut steps = Steps::<L>::new(blank);
    match Engine::open_counted(alloc, 0, disks, &mut steps) {
        Ok(engine) => Some(engine),
        Err(_) => None,
    }
}

/// An engine over an empty store, whose device calls fail so.
pub fn new_engine(alloc: Global, plan: Faults) -> Option<Engine<MemoryDisk>> {
    let disks = disks(alloc, plan).ok()?;
    opened::<Brand>(alloc, disks, Blank::new(1))
}

/// What one step writes over an input, the step, and whether it failed.
pub fn step(
    alloc: Global,
    engine: &mut Engine<MemoryDisk>,
    input: &str,
    plan: Faults,
) -> Result<(Result<Step, SessionFault>, Text), NoMemory> {
    let bytes = Text::of_str(alloc, input)?;
    let mut source = MemorySource::new(bytes, 7, Faults::none(alloc));
    let mut sink = MemorySink::new(alloc, plan);
    let mut buffer = Buffer::new(alloc);
    let mut clock = FixedClock::new(0);
    let mut desk = EngineDesk {
        engine,
        clock: &mut clock,
        salt: 0,
    };
    let came = step_over(alloc, &mut source, &mut sink, &mut buffer, &mut desk);
    Ok((came, sink.bytes().copy(alloc)?))
}

/// A reply that closes or not, by its first line, the line of its methods and its body.
pub fn reply(
    alloc: Global,
    first: &str,
    allow: &str,
    close: bool,
    body: &str,
) -> Result<String, NoMemory> {
    let length = body.len();
    let close = if close { "connection: close\r\n" } else { "" };
    Ok(format!(in alloc;
        "HTTP/1.1 {first}\r\ncontent-type: application/json\r\ncontent-length: {length}\r\n{allow}{close}\r\n{body}"
    )?)
}

/// The request has these bytes as its reply, and the step comes to this.
pub fn replies<R: Abort>(
    rt: &R,
    alloc: Global,
    engine: &mut Engine<MemoryDisk>,
    request: &str,
    want: &str,
    came: Step,
) {
    let none = Faults::none(alloc);
    let (step, text) = step(alloc, engine, request, none).expect(rt, "memory");
    assert!(rt; step == Ok(came), "{request}");
    assert!(rt; text.as_slice() == want.as_bytes(), "{request}");
}

/// The request has this reply, after which the connection goes on.
pub fn says<R: Abort>(
    rt: &R,
    alloc: Global,
    engine: &mut Engine<MemoryDisk>,
    request: &str,
    first: &str,
    body: &str,
) {
    let want = reply(alloc, first, "", false, body).expect(rt, "memory");
    replies(rt, alloc, engine, request, want.as_str(), Step::Answered);
}

/// A GET of this target has a reply with this first line and body.
pub fn gets<R: Abort>(
    rt: &R,
    alloc: Global,
    engine: &mut Engine<MemoryDisk>,
    target: &str,
    first: &str,
    body: &str,
) {
    let request = format!(in alloc; "GET {target} HTTP/1.1\r\n\r\n").expect(rt, "memory");
    says(rt, alloc, engine, request.as_str(), first, body);
}

/// The same of a DELETE.
pub fn deletes<R: Abort>(
    rt: &R,
    alloc: Global,
    engine: &mut Engine<MemoryDisk>,
    target: &str,
    first: &str,
    body: &str,
) {
    let request = format!(in alloc; "DELETE {target} HTTP/1.1\r\n\r\n").expect(rt, "memory");
    says(rt, alloc, engine, request.as_str(), first, body);
}

/// A DELETE of this target is refused with this code and message.
pub fn delete_is_refused<R: Abort>(
    rt: &R,
    alloc: Global,
    engine: &mut Engine<MemoryDisk>,
    target: &str,
    code: &str,
    message: &str,
) {
    let body = refusal(alloc, code, message).expect(rt, "memory");
    deletes(rt, alloc, engine, target, "400 Bad Request", body.as_str());
}

/// The same of a POST of a load with this body.
pub fn posts<R: Abort>(
    rt: &R,
    alloc: Global,
    engine: &mut Engine<MemoryDisk>,
    load: &str,
    first: &str,
    body: &str,
) {
    let length = load.len();
    let request = format!(in alloc;
        "POST /loader HTTP/1.1\r\nhost: x\r\ncontent-length: {length}\r\n\r\n{load}"
    ).expect(rt, "memory");
    says(rt, alloc, engine, request.as_str(), first, body);
}

/// A POST of a load with this body is refused with this code and message.
pub fn load_is_refused<R: Abort>(
    rt: &R,
    alloc: Global,
    engine: &mut Engine<MemoryDisk>,
    load: &str,
    code: &str,
    message: &str,
) {
    let body = refusal(alloc, code, message).expect(rt, "memory");
    posts(rt, alloc, engine, load, "400 Bad Request", body.as_str());
}

/// A refusal with this code and message.
pub fn refusal(alloc: Global, code: &str, message: &str) -> Result<String, NoMemory> {
    Ok(format!(in alloc; "{{\"code\":\"{code}\",\"detailedMessage\":\"{message}\"}}")?)
}
