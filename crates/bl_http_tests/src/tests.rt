// Requests and replies as RFC 9112 and RFC 9110 have them, in pieces of any size.
use bl_http::{
    Asked, Buffer, Ending, HeadRefusal, HttpFault, Request, Requests, read_request, read_requests,
    reply_text,
};
use bl_outside::{Faults, List, MemorySource, NoMemory, Text};
use std::alloc::Global;
use std::process::Abort;

// A request in one line: its method, path, parameters, body, and whether it closes.
fn push_request(line: &mut Text, request: &Request) -> Result<(), NoMemory> {
    line.extend(request.method.as_str().as_bytes())?;
    line.push(b' ')?;
    line.extend(request.path.as_slice())?;
    for (name, value) in request.query.as_slice() {
        line.push(b' ')?;
        line.extend(name.as_slice())?;
        line.push(b'=')?;
        line.extend(value.as_slice())?;
    }
    line.extend(b" [")?;
    line.extend(request.body.as_slice())?;
    line.extend(if request.close { b"] close\n" } else { b"]\n" })
}

fn word_of(ending: Ending) -> &'static [u8] {
    match ending {
        Ending::Closed => b"Closed",
        Ending::Refused(HeadRefusal::BadHead) => b"BadHead",
        Ending::Refused(HeadRefusal::HeadTooLarge) => b"HeadTooLarge",
        Ending::Refused(HeadRefusal::BadLength) => b"BadLength",
        Ending::Refused(HeadRefusal::BodyTooLarge) => b"BodyTooLarge",
        Ending::Refused(HeadRefusal::TransferEncoding) => b"TransferEncoding",
        Ending::End => b"End",
        Ending::Torn => b"Torn",
        Ending::TooLong => b"TooLong",
    }
}

// What an input asks, in lines.
fn told(alloc: Global, input: &[u8], piece: usize) -> Result<Text, HttpFault> {
    let bytes = Text::copy_of(alloc, input)?;
    let mut source = MemorySource::new(bytes, piece, Faults::none(alloc));
    let Requests { requests, ending } = read_requests(alloc, &mut source)?;
    let mut lines = Text::new(alloc);
    for request in requests.as_slice() {
        push_request(&mut lines, request)?;
    }
    lines.extend(word_of(ending))?;
    Ok(lines)
}

// The rows hold whatever the size of the pieces.
fn holds<R: Abort + AllocGlobal>(rt: &R, input: &[u8], lines: &str) -> Result<(), HttpFault> {
    for piece in [1, 2, 3, 7, 65_536] {
        let found = told(rt.alloc(), input, piece)?;
        assert!(rt;
            found.as_slice() == lines.as_bytes(),
            "{lines} in pieces of {piece}"
        );
    }
    Ok(())
}

#[test]
fn requests_are_read_as_the_standard_says(rt: HostRuntime) {
    for (input, lines) in [
        ("", "End"),
        ("GET /loader HT", "Torn"),
        (
            "POST /loader HTTP/1.1\r\nhost: x\r\ncontent-length: 45\r\n\r\n{\"source\":\"s3://b/people.csv\",\"format\":\"csv\"}",
            "POST /loader [{\"source\":\"s3://b/people.csv\",\"format\":\"csv\"}]\nEnd",
        ),
        // Two requests, then the begin of a third.
        (
            "GET /a HTTP/1.1\r\n\r\nDELETE /b HTTP/1.1\r\n\r\n\r\n",
            "GET /a []\nDELETE /b []\nTorn",
        ),
        ("\r\n\nGET /a HTTP/1.1\r\n\r\n", "GET /a []\nEnd"),
        ("GET /a HTTP/1.1\nhost: x\n\n", "GET /a []\nEnd"),
        (
            "GET http://h/a?b HTTP/1.1\r\n\r\n",
            "GET http://h/a b= []\nEnd",
        ),
        (
            "GET /%2e?a=b&a=%41+c&d&&e=1=2? HTTP/1.1\r\n\r\n",
            "GET /%2e a=b a=A c d= e=1=2? []\nEnd",
        ),
        ("GET /a HTTP/1.0\r\n\r\nGET /b", "GET /a [] close\nClosed"),
        ("x", "Torn"),
        ("GET /a HTTP/1.1\r\ncontent-length: 2\r\n\r\nx", "Torn"),
    ] {
        holds(&rt, input.as_bytes(), lines).expect(&rt, lines);
    }
}

#[test]
fn a_connection_ends_where_one_of_its_words_is_close(rt: HostRuntime) {
    for (fields, close) in [
        ("Connection: Keep-Alive, CLOSE\r\n", true),
        ("connection:close\r\n", true),
        ("connection: a,\tclose\t,b\r\n", true),
        ("connection: a\r\nCONNECTION: , Close\r\n", true),
        ("connection: closed\r\n", false),
        ("connection: keep-alive\r\n", false),
        ("connection: clo se,\"close\"\r\n", false),
        ("x-connection: close\r\n", false),
        ("", false),
    ] {
        let input = format!(in rt.alloc(); "GET / HTTP/1.1\r\n{fields}\r\n").expect(&rt, fields);
        let lines = if close {
            "GET / [] close\nClosed"
        } else {
            "GET / []\nEnd"
        };
        holds(&rt, input.as_bytes(), lines).expect(&rt, fields);
    }
}

#[test]
fn a_head_is_refused_for_its_first_fault(rt: HostRuntime) {
    for (fields, lines) in [
        ("content-length: 0\r\n", "GET / []\nGET / []\nEnd"),
        (
            "Content-Length: 00000000000000000000\r\n",
            "GET / []\nGET / []\nEnd",
        ),
        ("content-length: 000000000000000000000\r\n", "BadLength"),
        ("content-length:\r\n", "BadLength"),
        ("content-length: +1\r\n", "BadLength"),
        ("content-length: 1, 1\r\n", "BadLength"),
        ("content-length: 0\r\nContent-length: 0\r\n", "BadLength"),
        ("transfer-encoding: x\r\ncontent-length: x\r\n", "BadLength"),
        ("content-length: 1048577\r\n", "BodyTooLarge"),
        ("content-length: 18446744073709551616\r\n", "BodyTooLarge"),
        ("content-length: 99999999999999999999\r\n", "BodyTooLarge"),
        (
            "transfer-encoding: x\r\ncontent-length: 1048577\r\n",
            "BodyTooLarge",
        ),
        ("Transfer-Encoding: chunked\r\n", "TransferEncoding"),
        ("a: b\r\n c\r\n", "BadHead"),
        ("a : b\r\n", "BadHead"),
        ("a\r\n", "BadHead"),
    ] {
        let input = format!(in rt.alloc();
            "GET / HTTP/1.1\r\n{fields}\r\nGET / HTTP/1.1\r\n\r\n"
        ).expect(&rt, fields);
        holds(&rt, input.as_bytes(), lines).expect(&rt, fields);
    }
    for input in [
        "GET  / HTTP/1.1\r\n\r\n",
        "GET / HTTP/2.0\r\n\r\n",
        "G@T / HTTP/1.1\r\n\r\n",
        "GET / HTTP/1.1 \r\n\r\n",
        "GET / http/1.1\r\n\r\n",
        "(",
    ] {
        holds(&rt, input.as_bytes(), "BadHead").expect(&rt, input);
    }
}

// A head of so many fields.
fn head_of_fields(alloc: Global, count: usize) -> Result<Text, NoMemory> {
    let mut head = Text::of_str(alloc, "GET / HTTP/1.1\r\n")?;
    for _ in 0..count {
        head.extend(b"a: b\r\n")?;
    }
    head.extend(b"\r\n")?;
    Ok(head)
}

// A head of so many bytes, 20 at least, which has one long field.
fn head_of_bytes(alloc: Global, count: usize) -> Result<Text, NoMemory> {
    let mut head = Text::of_str(alloc, "GET / HTTP/1.1\r\na:")?;
    for _ in 22..count {
        head.push(b'b')?;
    }
    head.extend(b"\r\n\r\n")?;
    Ok(head)
}

#[test]
fn a_head_has_at_most_64_fields_and_16384_bytes(rt: HostRuntime) {
    let alloc = rt.alloc();
    for (count, ending) in [
        (64, "GET / []\nEnd"),
        (65, "HeadTooLarge"),
        (66, "HeadTooLarge"),
    ] {
        let head = head_of_fields(alloc, count).expect(&rt, ending);
        holds(&rt, head.as_slice(), ending).expect(&rt, ending);
    }
    for (count, ending) in [(16_384, "GET / []\nEnd"), (16_385, "HeadTooLarge")] {
        let head = head_of_bytes(alloc, count).expect(&rt, ending);
        assert_eq!(rt; head.len(), count);
        let found = told(alloc, head.as_slice(), 65_536).expect(&rt, ending);
        assert!(rt; found.as_slice() == ending.as_bytes(), "{ending}");
        let found = told(alloc, head.as_slice(), 1000).expect(&rt, ending);
        assert!(rt; found.as_slice() == ending.as_bytes(), "{ending} in pieces");
    }
}

// A request with a body of so many bytes, and a request behind it.
fn with_body(alloc: Global, size: usize) -> Result<Text, NoMemory> {
    let head = format!(in alloc; "PUT / HTTP/1.1\r\ncontent-length: {size}\r\n\r\n")?;
    let mut input = Text::of_str(alloc, head.as_str())?;
    for _ in 0..size {
        input.push(b'b')?;
    }
    input.extend(b"GET /c HTTP/1.1\r\n\r\n")?;
    Ok(input)
}

fn sizes_of_bodies(alloc: Global, size: usize, piece: usize) -> Result<(usize, usize), HttpFault> {
    let input = with_body(alloc, size)?;
    let mut source = MemorySource::new(input, piece, Faults::none(alloc));
    let Requests { requests, .. } = read_requests(alloc, &mut source)?;
    let mut bytes: usize = 0;
    for request in requests.as_slice() {
        bytes = bytes.saturating_add(request.body.len());
    }
    Ok((requests.len(), bytes))
}

#[test]
fn a_body_has_at_most_1048576_bytes(rt: HostRuntime) {
    for piece in [5_000, 65_536] {
        let found = sizes_of_bodies(rt.alloc(), 1_048_576, piece).expect(&rt, "a body");
        assert_eq!(rt; found, (2, 1_048_576));
        let found = sizes_of_bodies(rt.alloc(), 1_048_577, piece).expect(&rt, "a body");
        assert_eq!(rt; found, (0, 0));
    }
}

// Reads a request from a source whose second call fails. Whether the fault came, and then the
// request all the same.
fn goes_on_after_a_fault(alloc: Global) -> Result<bool, HttpFault> {
    let bytes = Text::of_str(alloc, "GET /a HTTP/1.1\r\n\r\n")?;
    let mut fails = List::new(alloc);
    fails.push(2)?;
    let mut source = MemorySource::new(bytes, 10, Faults::of(fails, u64::MAX));
    let mut buffer = Buffer::new(alloc);
    let first = read_request(alloc, &mut source, &mut buffer);
    let faulted = matches!(first, Err(HttpFault::ReadFault));
    match read_request(alloc, &mut source, &mut buffer)? {
        Asked::Got(request) => Ok(faulted && request.path.as_slice() == b"/a".as_slice()),
        _ => Ok(false),
    }
}

#[test]
fn a_fault_uses_nothing_up(rt: HostRuntime) {
    assert_eq!(rt; goes_on_after_a_fault(rt.alloc()), Ok(true));
}

#[test]
fn replies_are_as_every_client_reads_them(rt: HostRuntime) {
    let alloc = rt.alloc();
    let id =
        "{\"payload\":{\"loadId\":\"00000000-0000-4000-8000-000000000001\"},\"status\":\"200 OK\"}";
    let body = Text::of_str(alloc, id).expect(&rt, "a body");
    let text = reply_text(alloc, 200, None, &body, false).expect(&rt, "a reply");
    let head = "HTTP/1.1 200 OK\r\ncontent-type: application/json\r\ncontent-length: 79\r\n\r\n";
    let whole = format!(in alloc; "{head}{id}").expect(&rt, "a text");
    assert!(rt; text.as_slice() == whole.as_bytes());
    let none = Text::new(alloc);
    let text = reply_text(alloc, 405, Some("GET, POST"), &none, true).expect(&rt, "a reply");
    assert!(rt;
        text.as_slice()
            == b"HTTP/1.1 405 Method Not Allowed\r\ncontent-type: application/json\r\ncontent-length: 0\r\nallow: GET, POST\r\nconnection: close\r\n\r\n".as_slice()
    );
}
