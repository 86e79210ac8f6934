// Requests that are refused for their bodies, parameters, paths and methods.
use crate::test_stores::{
    LOAD_1, gets, load_is_refused, new_engine, posts, refusal, replies, reply,
};
use bl_engine::Engine;
use bl_outside::{Faults, MemoryDisk};
use bl_session::Step;
use std::alloc::Global;
use std::process::Abort;

// A GET is refused with this parameter.
fn parameter_is_refused<R: Abort>(
    rt: &R,
    alloc: Global,
    engine: &mut Engine<MemoryDisk>,
    target: &str,
    name: &str,
) {
    let message = format!(in alloc; "parameter {name}").expect(rt, "memory");
    let body = refusal(alloc, "InvalidParameterException", message.as_str()).expect(rt, "memory");
    gets(rt, alloc, engine, target, "400 Bad Request", body.as_str());
}

fn bodies_are_refused<R: Abort>(rt: &R, alloc: Global, engine: &mut Engine<MemoryDisk>) {
    load_is_refused(rt, alloc, engine, "", "BadBody", "not a JSON object");
    load_is_refused(rt, alloc, engine, "[]", "BadBody", "not a JSON object");
    load_is_refused(rt, alloc, engine, "{}", "BadBody", "member source");
    let turtle =
        "{\"source\":\"s3://b/f/\",\"format\":\"turtle\",\"iamRoleArn\":\"arn:aws:iam::123456789012:role/r\",\"region\":\"us-east-1\"}";
    load_is_refused(rt, alloc, engine, turtle, "BadBody", "member format");
    for (member, name) in [
        ("\"mode\":\"new\"", "member mode"),
        ("\"failOnError\":0", "member failOnError"),
        ("\"parallelism\":\"\"", "member parallelism"),
        (
            "\"updateSingleCardinalityProperties\":null",
            "member updateSingleCardinalityProperties",
        ),
        ("\"queueRequest\":\"yes\"", "member queueRequest"),
        ("\"dependencies\":7", "member dependencies"),
    ] {
        let load = format!(in alloc; "{{\"source\":\"s3://b\",\"format\":\"csv\",{member}}}");
        let load = load.expect(rt, "memory");
        load_is_refused(rt, alloc, engine, load.as_str(), "BadBody", name);
    }
    let unknown =
        "{\"source\":\"s3://b\",\"format\":\"csv\",\"dependencies\":[\"00000000-0000-4000-8000-000000000001\",\"x\"]}";
    let message = "dependency 1 is not a kept load";
    load_is_refused(rt, alloc, engine, unknown, "UnknownDependency", message);
    let users =
        "{\"source\":\"s3://b/f/\",\"format\":\"csv\",\"iamRoleArn\":\"arn:aws:iam::123456789012:role/r\",\"region\":\"us-east-1\",\"failOnError\":\"FALSE\",\"parallelism\":\"MEDIUM\",\"updateSingleCardinalityProperties\":\"FALSE\",\"queueRequest\":\"TRUE\",\"dependencies\":[]}";
    posts(rt, alloc, engine, users, "200 OK", LOAD_1);
}

// 65 dependencies are one too many.
fn dependencies_are_too_many<R: Abort>(rt: &R, alloc: Global, engine: &mut Engine<MemoryDisk>) {
    let mut load = format!(in alloc;
        "{{\"source\":\"s3://b\",\"format\":\"csv\",\"dependencies\":[\"x\""
    ).expect(rt, "memory");
    for _ in 0..64u64 {
        load.push_str(",\"x\"").expect(rt, "memory");
    }
    load.push_str("]}").expect(rt, "memory");
    let message = "more than 64 dependencies";
    load_is_refused(
        rt,
        alloc,
        engine,
        load.as_str(),
        "TooManyDependencies",
        message,
    );
}

fn parameters_are_refused<R: Abort>(rt: &R, alloc: Global, engine: &mut Engine<MemoryDisk>) {
    for (target, name) in [
        ("/loader?limit=0", "limit"),
        ("/loader?limit=101&includeQueuedLoads=x", "limit"),
        ("/loader?limit=0&limit=1", "limit"),
        (
            "/loader?limit=100&includeQueuedLoads=yes",
            "includeQueuedLoads",
        ),
        ("/loader?loadId=x&details=1&errors=1", "details"),
        ("/loader/x?errors=&page=0", "errors"),
        ("/loader/x?page=0&errorsPerPage=0", "page"),
        ("/loader/x?page=1000001", "page"),
        ("/loader/x?errorsPerPage=0", "errorsPerPage"),
        (
            "/loader/x?page=1000000&errorsPerPage=10001",
            "errorsPerPage",
        ),
        ("/pg/stream?limit=0", "limit"),
        ("/pg/stream?limit=100001&commitNum=1", "limit"),
        ("/propertygraph/stream", "iteratorType"),
        (
            "/propertygraph/stream?iteratorType=x&commitNum=x",
            "iteratorType",
        ),
        ("/pg/stream?iteratorType=AFTER_SEQUENCE_NUMBER", "commitNum"),
        (
            "/pg/stream?iteratorType=LATEST&commitNum=18446744073709551616",
            "commitNum",
        ),
        ("/pg/stream?commitNum=1&opNum=-1", "opNum"),
    ] {
        parameter_is_refused(rt, alloc, engine, target, name);
    }
    let none = "no record at the place asked for";
    let none = refusal(alloc, "StreamRecordsNotFoundException", none).expect(rt, "memory");
    for target in [
        "/pg/stream?commitNum=0",
        "/propertygraph/stream?iteratorType=TRIM_HORIZON&limit=100000&limit=0",
        "/pg/stream?iteratorType=LATEST&commitNum=18446744073709551615&opNum=0",
    ] {
        gets(rt, alloc, engine, target, "404 Not Found", none.as_str());
    }
}

fn no_path_is_named<R: Abort>(rt: &R, alloc: Global, engine: &mut Engine<MemoryDisk>) {
    let body = refusal(alloc, "NoRoute", "no such path").expect(rt, "memory");
    for target in [
        "/",
        "/loader/",
        "/loader/a/b",
        "/loaders",
        "/pg",
        "/pg/stream/",
        "/Loader",
        "/sparql/stream",
        "/%6coader",
    ] {
        gets(rt, alloc, engine, target, "404 Not Found", body.as_str());
    }
}

fn no_method_is_named<R: Abort>(rt: &R, alloc: Global, engine: &mut Engine<MemoryDisk>) {
    let body = refusal(alloc, "MethodNotAllowed", "no such method on this path");
    let body = body.expect(rt, "memory");
    for (request, allow) in [
        (
            "PUT /loader HTTP/1.1\r\n\r\n",
            "allow: GET, POST, DELETE\r\n",
        ),
        (
            "POST /loader/x?details=x HTTP/1.1\r\n\r\n",
            "allow: GET, DELETE\r\n",
        ),
        ("get /loader/x HTTP/1.1\r\n\r\n", "allow: GET, DELETE\r\n"),
        ("DELETE /pg/stream HTTP/1.1\r\n\r\n", "allow: GET\r\n"),
    ] {
        let first = "405 Method Not Allowed";
        let want = reply(alloc, first, allow, false, body.as_str()).expect(rt, "memory");
        replies(rt, alloc, engine, request, want.as_str(), Step::Answered);
    }
}

#[test]
fn requests_are_refused_for_what_they_ask(rt: HostRuntime) {
    let alloc = rt.alloc();
    let mut engine = new_engine(alloc, Faults::none(alloc)).expect(&rt, "a store");
    parameters_are_refused(&rt, alloc, &mut engine);
    no_path_is_named(&rt, alloc, &mut engine);
    no_method_is_named(&rt, alloc, &mut engine);
    dependencies_are_too_many(&rt, alloc, &mut engine);
    bodies_are_refused(&rt, alloc, &mut engine);
}
