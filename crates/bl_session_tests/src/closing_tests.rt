// Heads that are refused, replies after which the connection closes, and replies that are cut.
use crate::test_stores::{
    LOADS_1, NO_LOADS, fails_at, gets, new_engine, refusal, replies, reply, step,
};
use bl_engine::Engine;
use bl_outside::{Faults, MemoryDisk};
use bl_session::{Reply, SessionFault, Step};
use std::alloc::Global;
use std::process::Abort;

fn heads_are_refused<R: Abort>(rt: &R, alloc: Global, engine: &mut Engine<MemoryDisk>) {
    for (request, first, code, message) in [
        (
            "\u{1}\r\n\r\n",
            "400 Bad Request",
            "BadHead",
            "the request head can not be read",
        ),
        (
            "GET /loader HTTP/1.1\r\ncontent-length: x\r\n\r\n",
            "400 Bad Request",
            "BadLength",
            "content-length is not one number",
        ),
        (
            "POST /loader HTTP/1.1\r\ncontent-length: 1048577\r\n\r\n",
            "413 Payload Too Large",
            "BodyTooLarge",
            "the body has more than 1048576 bytes",
        ),
        (
            "GET /loader HTTP/1.1\r\ntransfer-encoding: chunked\r\n\r\n",
            "501 Not Implemented",
            "TransferEncoding",
            "transfer-encoding is not supported",
        ),
    ] {
        let body = refusal(alloc, code, message).expect(rt, "memory");
        let want = reply(alloc, first, "", true, body.as_str()).expect(rt, "memory");
        replies(rt, alloc, engine, request, want.as_str(), Step::Closed);
    }
    assert!(rt; engine.seq() == 0);
}

// More than 64 fields are too many.
fn a_head_is_too_large<R: Abort>(rt: &R, alloc: Global, engine: &mut Engine<MemoryDisk>) {
    let mut request = format!(in alloc; "GET /loader HTTP/1.1\r\n").expect(rt, "memory");
    for _ in 0..65u64 {
        request.push_str("a: b\r\n").expect(rt, "memory");
    }
    request.push_str("\r\n").expect(rt, "memory");
    let body = refusal(alloc, "HeadTooLarge", "the request head is too large");
    let body = body.expect(rt, "memory");
    let first = "431 Request Header Fields Too Large";
    let want = reply(alloc, first, "", true, body.as_str()).expect(rt, "memory");
    replies(
        rt,
        alloc,
        engine,
        request.as_str(),
        want.as_str(),
        Step::Closed,
    );
}

fn a_connection_closes<R: Abort>(rt: &R, alloc: Global, engine: &mut Engine<MemoryDisk>) {
    let want = reply(alloc, "200 OK", "", true, NO_LOADS).expect(rt, "memory");
    for request in [
        "GET /loader HTTP/1.0\r\n\r\n",
        "GET /loader HTTP/1.1\r\nconnection: close\r\n\r\n",
    ] {
        replies(rt, alloc, engine, request, want.as_str(), Step::Closed);
    }
    replies(rt, alloc, engine, "", "", Step::Ended);
    replies(rt, alloc, engine, "GET /loader HT", "", Step::Torn);
}

// The reply of a load that is taken on can't be written whole.
fn a_reply_is_cut<R: Abort>(rt: &R, alloc: Global, engine: &mut Engine<MemoryDisk>) {
    let plan = fails_at(alloc, 1).expect(rt, "memory");
    let request =
        "POST /loader HTTP/1.1\r\ncontent-length: 45\r\n\r\n{\"source\":\"s3://b/people.csv\",\"format\":\"csv\"}";
    let (came, text) = step(alloc, engine, request, plan).expect(rt, "memory");
    assert!(rt; came == Err(SessionFault::WriteFault));
    assert!(rt; text.as_slice().starts_with(b"HTTP/1.1 200 OK\r\n"));
    gets(rt, alloc, engine, "/loader", "200 OK", LOADS_1);
}

#[test]
fn sessions_end_with_their_replies(rt: HostRuntime) {
    let alloc = rt.alloc();
    let mut engine = new_engine(alloc, Faults::none(alloc)).expect(&rt, "a store");
    heads_are_refused(&rt, alloc, &mut engine);
    a_head_is_too_large(&rt, alloc, &mut engine);
    a_connection_closes(&rt, alloc, &mut engine);
    a_reply_is_cut(&rt, alloc, &mut engine);
}

#[test]
fn the_reply_for_want_of_memory_is_constant(rt: HostRuntime) {
    let body = refusal(rt.alloc(), "MemoryLimitExceededException", "no memory");
    let body = body.expect(&rt, "memory");
    let first = "500 Internal Server Error";
    let want = reply(rt.alloc(), first, "", true, body.as_str()).expect(&rt, "memory");
    assert!(rt; Reply::MemoryOut.as_slice() == want.as_bytes());
    assert!(rt; Reply::MemoryOut.ends());
}
