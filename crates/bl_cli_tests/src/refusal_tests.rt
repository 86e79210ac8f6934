// A script of requests that are refused, each for another cause, and its whole output.
use crate::test_runs::{NO_FILES, NOTHING, new_machine, text};
use bl_cli::Status;
use std::alloc::Global;
use std::process::Abort;
use std::thread::Threads;

// Requests, and the replies that they are to have.
#[derive(Drop)]
struct Exchange {
    requests: String,
    replies: String,
}

fn reply<R: Abort>(rt: &R, alloc: Global, first: &str, fields: &str, body: &str) -> String {
    let length = body.len();
    let reply = format!(in alloc;
        "HTTP/1.1 {first}\r\ncontent-type: application/json\r\ncontent-length: {length}\r\n{fields}\r\n{body}"
    );
    reply.expect(rt, "memory")
}

impl Exchange {
    fn new(alloc: Global) -> Exchange {
        Exchange {
            requests: String::new(alloc),
            replies: String::new(alloc),
        }
    }

    // One more request, the first line and fields of its reply, and its body.
    fn add<R: Abort>(
        &mut self,
        rt: &R,
        alloc: Global,
        request: &str,
        first: &str,
        fields: &str,
        body: &str,
    ) {
        let reply = reply(rt, alloc, first, fields, body);
        self.requests.push_str(request).expect(rt, "memory");
        self.replies.push_str(reply.as_str()).expect(rt, "memory");
    }

    // One that is refused with this code and message.
    fn refuse<R: Abort>(
        &mut self,
        rt: &R,
        alloc: Global,
        request: &str,
        first: &str,
        code: &str,
        message: &str,
    ) {
        let body = format!(in alloc; "{{\"code\":\"{code}\",\"detailedMessage\":\"{message}\"}}");
        let body = body.expect(rt, "memory");
        let fields = if first == "405 Method Not Allowed" {
            "allow: GET, POST, DELETE\r\n"
        } else {
            ""
        };
        self.add(rt, alloc, request, first, fields, body.as_str());
    }

    // A load with these members is taken on, by this number.
    fn take_on<R: Abort>(&mut self, rt: &R, alloc: Global, number: u32, members: &str) {
        let request = post(rt, alloc, members);
        let body = format!(in alloc;
            "{{\"payload\":{{\"loadId\":\"00000000-0000-4000-8000-{number:012x}\"}},\"status\":\"200 OK\"}}"
        );
        let body = body.expect(rt, "memory");
        self.add(rt, alloc, request.as_str(), "200 OK", "", body.as_str());
    }

    // One is refused.
    fn refuse_load<R: Abort>(
        &mut self,
        rt: &R,
        alloc: Global,
        members: &str,
        code: &str,
        message: &str,
    ) {
        let request = post(rt, alloc, members);
        self.refuse(
            rt,
            alloc,
            request.as_str(),
            "400 Bad Request",
            code,
            message,
        );
    }

    // A script over an empty store, without turns, has just these replies.
    fn is_had<R: Threads + Sync + Abort>(&self, rt: &R, alloc: Global) -> bool {
        let mut machine = new_machine(rt, alloc, NO_FILES);
        machine.input = text(rt, alloc, self.requests.as_bytes());
        let status = machine.runs(rt, alloc, "script --turns 0", NOTHING);
        status == Status::Ok && machine.wrote(self.replies.as_bytes(), b"")
    }
}

// A POST of a load of `s3://b/f` with more members.
fn post<R: Abort>(rt: &R, alloc: Global, members: &str) -> String {
    let length = members.len().saturating_add(36);
    let request = format!(in alloc;
        "POST /loader HTTP/1.1\r\ncontent-length: {length}\r\n\r\n{{\"source\":\"s3://b/f\",\"format\":\"csv\"{members}}}"
    );
    request.expect(rt, "memory")
}

const SIXTY_FIVE: &str =
    ",\"dependencies\":[\"x\",\"x\",\"x\",\"x\",\"x\",\"x\",\"x\",\"x\",\"x\",\"x\",\"x\",\"x\",\"x\",\"x\",\"x\",\"x\",\"x\",\"x\",\"x\",\"x\",\"x\",\"x\",\"x\",\"x\",\"x\",\"x\",\"x\",\"x\",\"x\",\"x\",\"x\",\"x\",\"x\",\"x\",\"x\",\"x\",\"x\",\"x\",\"x\",\"x\",\"x\",\"x\",\"x\",\"x\",\"x\",\"x\",\"x\",\"x\",\"x\",\"x\",\"x\",\"x\",\"x\",\"x\",\"x\",\"x\",\"x\",\"x\",\"x\",\"x\",\"x\",\"x\",\"x\",\"x\",\"x\"]";

// The request, the first line of its reply, and the code and message.
type Refused = (&'static str, &'static str, &'static str, &'static str);

const REFUSED: [Refused; 6] = [
    (
        "GET /nothing HTTP/1.1\r\n\r\n",
        "404 Not Found",
        "NoRoute",
        "no such path",
    ),
    (
        "PUT /loader HTTP/1.1\r\n\r\n",
        "405 Method Not Allowed",
        "MethodNotAllowed",
        "no such method on this path",
    ),
    (
        "POST /loader HTTP/1.1\r\ncontent-length: 1\r\n\r\nx",
        "400 Bad Request",
        "BadBody",
        "not a JSON object",
    ),
    (
        "GET /loader?limit=0 HTTP/1.1\r\n\r\n",
        "400 Bad Request",
        "InvalidParameterException",
        "parameter limit",
    ),
    (
        "GET /loader/x HTTP/1.1\r\n\r\n",
        "400 Bad Request",
        "UnknownLoad",
        "no kept load has this id",
    ),
    (
        "GET /pg/stream?iteratorType=LATEST HTTP/1.1\r\n\r\n",
        "404 Not Found",
        "StreamRecordsNotFoundException",
        "no record at the place asked for",
    ),
];

const CANCEL: &str = "DELETE /loader/00000000-0000-4000-8000-000000000001 HTTP/1.1\r\n\r\n";

#[test]
fn each_request_is_refused_for_its_cause(rt: HostRuntime) {
    let alloc = rt.alloc();
    let mut all = Exchange::new(alloc);
    for (request, first, code, message) in &REFUSED {
        all.refuse(&rt, alloc, request, first, code, message);
    }
    all.refuse_load(&rt, alloc, ",\"mode\":\"OLD\"", "BadBody", "member mode");
    let many = "more than 64 dependencies";
    all.refuse_load(&rt, alloc, SIXTY_FIVE, "TooManyDependencies", many);
    let unknown = "dependency 1 is not a kept load";
    let one = ",\"dependencies\":[\"x\"]";
    all.refuse_load(&rt, alloc, one, "UnknownDependency", unknown);
    all.take_on(&rt, alloc, 1, "");
    let busy = "load 00000000-0000-4000-8000-000000000001 has not ended";
    all.refuse_load(&rt, alloc, "", "LoadBusy", busy);
    let queued = ",\"queueRequest\":\"TRUE\"";
    for number in 2..66_u32 {
        all.take_on(&rt, alloc, number, queued);
    }
    all.refuse_load(&rt, alloc, queued, "QueueFull", "64 loads are queued");
    all.add(&rt, alloc, CANCEL, "200 OK", "", "{\"status\":\"200 OK\"}");
    let ended = "the load has ended as LOAD_CANCELLED_BY_USER";
    all.refuse(&rt, alloc, CANCEL, "400 Bad Request", "LoadEnded", ended);
    assert!(rt; all.is_had(&rt, alloc));
}
