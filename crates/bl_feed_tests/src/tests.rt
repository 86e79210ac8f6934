// Bodies letter by letter, and requests in each form.
ghost use Rattle.std.specs.Prelude.{◌≡◌, IfOk};
ghost use Rattle.std.specs.List.{All};
ghost use Rattle.std.specs.Str.{IsUtf8};
ghost use Rattle.bl_value.specs.Valid.{IsId, IsPrintable};

use bl_change::Event;
use bl_feed::{BodyRefusal, list_json, page_json, problem_json, read_load, status_json};
use bl_files::{Counts, Feed, FeedKind, FeedStatus, LoadRequest, Log, Mode};
use bl_outside::{Digest, List, NoMemory, Text};
use bl_queue::{Job, JobStatus};
use bl_stream::Page;
use bl_value::{Change, LogCode};
use std::alloc::Global;

// The id of the load of this number.
fn id(number: u8) -> u128 {
    0x4000_8000_0000_0000_0000 + u128::from(number)
}

fn request(alloc: Global, source: &str) -> Result<LoadRequest, NoMemory>
    ensures { IfOk result (λ request. IsUtf8 request.source) }
{
    Ok(LoadRequest {
        source: Text::of_str(alloc, source)?,
        format: 0,
        mode: Mode::Auto,
        fail_on_error: true,
        update_single: false,
        parallelism: 2,
        queue: false,
        dependencies: List::new(alloc),
    })
}

fn feed(
    alloc: Global,
    name: &str,
    status: FeedStatus,
    taken: u64,
    logs: List<Log>,
) -> Result<Feed, NoMemory>
    ensures { IfOk result (λ feed. IsUtf8 feed.name) }
{
    let mut counts = Counts::none();
    counts.records = taken;
    Ok(Feed {
        name: Text::of_str(alloc, name)?,
        kind: FeedKind::Vertex,
        status,
        taken,
        digest: Digest { bytes: [0; 32] },
        counts,
        logs,
        end_log: None,
    })
}

fn with_feed(mut feeds: List<Feed>, feed: Feed) -> Result<List<Feed>, NoMemory>
    requires all { All (λ feed. IsUtf8 feed.name) feeds }
    requires one { IsUtf8 feed.name }
    ensures { IfOk result (All (λ feed. IsUtf8 feed.name)) }
{
    feeds.push(feed)?;
    Ok(feeds)
}

// A load that ended as completed at once, with these files.
fn job(alloc: Global, source: &str, feeds: List<Feed>) -> Result<Job, NoMemory>
    requires { All (λ feed. IsUtf8 feed.name) feeds }
    ensures source { IfOk result (λ job. IsUtf8 job.request.source) }
    ensures names { IfOk result (λ job. All (λ feed. IsUtf8 feed.name) job.feeds) }
{
    Ok(Job {
        number: 1,
        id: id(1),
        request: request(alloc, source)?,
        submitted: 0,
        started: 0,
        latest: 0,
        run: 1,
        previous: 0,
        status: JobStatus::Completed,
        feeds,
        end_log: None,
    })
}

fn completed_body(alloc: Global) -> Result<Text, NoMemory> {
    let feed = feed(alloc, "", FeedStatus::Completed, 1, List::new(alloc))?;
    let feeds = with_feed(List::new(alloc), feed)?;
    let job = job(alloc, "s3://b/people.csv", feeds)?;
    status_json(alloc, &job, false, None)
}

#[test]
fn the_status_of_a_completed_load(rt: HostRuntime) {
    let body = completed_body(rt.alloc()).expect(&rt, "memory");
    let want =
        b"{\"payload\":{\"feedCount\":[{\"LOAD_COMPLETED\":1}],\"overallStatus\":{\"datatypeMismatchErrors\":0,\"fullUri\":\"s3://b/people.csv\",\"insertErrors\":0,\"parsingErrors\":0,\"retryNumber\":0,\"runNumber\":1,\"startTime\":0,\"status\":\"LOAD_COMPLETED\",\"totalDuplicates\":0,\"totalRecords\":1,\"totalTimeSpent\":0}},\"status\":\"200 OK\"}";
    assert!(rt; body.as_slice() == want.as_slice());
}

// The body of a load of two files, which began at 1.5 seconds and failed at 4.4.
fn failed_body(alloc: Global) -> Result<Text, NoMemory> {
    let failed = feed(alloc, "a.csv", FeedStatus::Failed, 1, List::new(alloc))?;
    let completed = feed(alloc, "b.csv", FeedStatus::Completed, 2, List::new(alloc))?;
    let feeds = with_feed(List::new(alloc), failed)?;
    let mut job = job(alloc, "s3://b/f", with_feed(feeds, completed)?)?;
    job.started = 1500;
    job.latest = 4400;
    job.status = JobStatus::Failed;
    status_json(alloc, &job, true, None)
}

#[test]
fn the_status_of_a_failed_load_with_details(rt: HostRuntime) {
    let body = failed_body(rt.alloc()).expect(&rt, "memory");
    let want =
        b"{\"payload\":{\"failedFeeds\":[{\"datatypeMismatchErrors\":0,\"fullUri\":\"s3://b/f/a.csv\",\"insertErrors\":0,\"parsingErrors\":0,\"retryNumber\":0,\"runNumber\":1,\"startTime\":1,\"status\":\"LOAD_FAILED\",\"totalDuplicates\":0,\"totalRecords\":1,\"totalTimeSpent\":2}],\"feedCount\":[{\"LOAD_COMPLETED\":1},{\"LOAD_FAILED\":1}],\"overallStatus\":{\"datatypeMismatchErrors\":0,\"fullUri\":\"s3://b/f\",\"insertErrors\":0,\"parsingErrors\":0,\"retryNumber\":0,\"runNumber\":1,\"startTime\":1,\"status\":\"LOAD_FAILED\",\"totalDuplicates\":0,\"totalRecords\":3,\"totalTimeSpent\":2}},\"status\":\"200 OK\"}";
    assert!(rt; body.as_slice() == want.as_slice());
}

// The body of a load of a file with 23 logs, 10 on a page.
fn error_body(alloc: Global, page: u32) -> Result<Text, NoMemory> {
    let mut logs = List::new(alloc);
    for number in 1..24 {
        logs.push(Log {
            code: LogCode::NotOfType,
            number,
            column: 2,
        })?;
    }
    let feed = feed(alloc, "a.csv", FeedStatus::Failed, 23, logs)?;
    let feeds = with_feed(List::new(alloc), feed)?;
    let job = job(alloc, "s3://b/f", feeds)?;
    if page == 0 {
        return Err(NoMemory);
    }
    status_json(alloc, &job, true, Some((page, 10)))
}

#[test]
fn a_page_of_logs(rt: HostRuntime) {
    let body = error_body(rt.alloc(), 3).expect(&rt, "memory");
    let want =
        b"{\"payload\":{\"errors\":{\"endIndex\":23,\"errorLogs\":[{\"errorCode\":\"NOT_OF_TYPE\",\"errorMessage\":\"the value is not of its type in column 2\",\"fileName\":\"s3://b/f/a.csv\",\"recordNum\":21},{\"errorCode\":\"NOT_OF_TYPE\",\"errorMessage\":\"the value is not of its type in column 2\",\"fileName\":\"s3://b/f/a.csv\",\"recordNum\":22},{\"errorCode\":\"NOT_OF_TYPE\",\"errorMessage\":\"the value is not of its type in column 2\",\"fileName\":\"s3://b/f/a.csv\",\"recordNum\":23}],\"loadId\":\"00000000-0000-4000-8000-000000000001\",\"startIndex\":21},\"failedFeeds\":[{\"datatypeMismatchErrors\":0,\"fullUri\":\"s3://b/f/a.csv\",";
    assert!(rt; body.as_slice().starts_with(want.as_slice()));
    let body = error_body(rt.alloc(), 4).expect(&rt, "memory");
    let want =
        b"{\"payload\":{\"errors\":{\"endIndex\":0,\"errorLogs\":[],\"loadId\":\"00000000-0000-4000-8000-000000000001\",\"startIndex\":0},\"failedFeeds\":[";
    assert!(rt; body.as_slice().starts_with(want.as_slice()));
}

fn one_id(alloc: Global, number: u8) -> Result<Text, NoMemory> {
    let mut ids = List::new(alloc);
    ids.push(id(number))?;
    list_json(alloc, &ids)
}

fn refusal(alloc: Global) -> Result<Text, NoMemory> {
    problem_json(
        alloc,
        "QueueFull",
        &Text::of_str(alloc, "64 loads are queued")?,
    )
}

#[test]
fn lists_and_refusals(rt: HostRuntime) {
    let body = one_id(rt.alloc(), 65).expect(&rt, "memory");
    let want =
        b"{\"payload\":{\"loadIds\":[\"00000000-0000-4000-8000-000000000041\"]},\"status\":\"200 OK\"}";
    assert!(rt; body.as_slice() == want.as_slice());
    let body = list_json(rt.alloc(), &List::new(rt.alloc())).expect(&rt, "memory");
    let want = b"{\"payload\":{\"loadIds\":[]},\"status\":\"200 OK\"}";
    assert!(rt; body.as_slice() == want.as_slice());
    let body = refusal(rt.alloc()).expect(&rt, "memory");
    let want = b"{\"code\":\"QueueFull\",\"detailedMessage\":\"64 loads are queued\"}";
    assert!(rt; body.as_slice() == want.as_slice());
}

fn edge(alloc: Global) -> Result<Change, NoMemory>
    ensures { IfOk result IsPrintable }
{
    Ok(Change::AddEdge {
        id: Text::of_str(alloc, "e1")?,
        label: Text::of_str(alloc, "knows")?,
        from: Text::of_str(alloc, "v1")?,
        to: Text::of_str(alloc, "v2")?,
    })
}

fn event(commit: u64, change: Change) -> Event
    requires { IsPrintable change }
    ensures { IsPrintable result.change }
{
    Event {
        commit,
        op: 1,
        moment: 0,
        last: true,
        change,
    }
}

fn and(mut events: List<Event>, event: Event) -> Result<List<Event>, NoMemory>
    requires all { All (λ event. IsPrintable event.change) events }
    requires one { IsPrintable event.change }
    ensures { IfOk result (All (λ event. IsPrintable event.change)) }
{
    events.push(event)?;
    Ok(events)
}

fn page_body(alloc: Global, both: bool) -> Result<Text, NoMemory> {
    let mut events = List::new(alloc);
    if both {
        events = and(events, event(1, edge(alloc)?))?;
    }
    let events = and(events, event(2, edge(alloc)?))?;
    if events.is_empty() {
        return Err(NoMemory);
    }
    page_json(alloc, &Page { events })
}

#[test]
fn a_page_of_the_stream(rt: HostRuntime) {
    let body = page_body(rt.alloc(), false).expect(&rt, "memory");
    let want =
        b"{\"format\":\"PG_JSON\",\"lastEventId\":{\"commitNum\":2,\"opNum\":1},\"lastTrxTimestamp\":0,\"records\":[{\"commitTimestamp\":0,\"data\":{\"from\":\"v1\",\"id\":\"e1\",\"key\":\"label\",\"to\":\"v2\",\"type\":\"e\",\"value\":{\"dataType\":\"String\",\"value\":\"knows\"}},\"eventId\":{\"commitNum\":2,\"opNum\":1},\"isLastOp\":true,\"op\":\"ADD\"}],\"totalRecords\":1}";
    assert!(rt; body.as_slice() == want.as_slice());
    let body = page_body(rt.alloc(), true).expect(&rt, "memory");
    let want =
        b"\"op\":\"ADD\"},{\"commitTimestamp\":0,\"data\":{\"from\":\"v1\",\"id\":\"e1\",\"key\":\"label\",\"to\":\"v2\",\"type\":\"e\",\"value\":{\"dataType\":\"String\",\"value\":\"knows\"}},\"eventId\":{\"commitNum\":2,\"opNum\":1},\"isLastOp\":true,\"op\":\"ADD\"}],\"totalRecords\":2}";
    assert!(rt; body.as_slice().ends_with(want.as_slice()));
}

fn read(alloc: Global, body: &str) -> Result<LoadRequest, BodyRefusal> {
    read_load(alloc, &Text::of_str(alloc, body)?)
}

#[test]
fn a_request_as_users_send_it(rt: HostRuntime) {
    let body =
        "{\"source\":\"s3://b/f/\",\"format\":\"csv\",\"iamRoleArn\":\"arn:aws:iam::123456789012:role/r\",\"region\":\"us-east-1\",\"failOnError\":\"FALSE\",\"parallelism\":\"MEDIUM\",\"updateSingleCardinalityProperties\":\"FALSE\",\"queueRequest\":\"TRUE\",\"dependencies\":[]}";
    let request = read(rt.alloc(), body).expect(&rt, "a request");
    assert!(rt; request.source.as_slice() == b"s3://b/f".as_slice());
    assert!(rt; request.format == 0 && request.mode == Mode::Auto && !request.fail_on_error);
    assert!(rt; request.parallelism == 1 && !request.update_single && request.queue);
    assert!(rt; request.dependencies.is_empty());
    let request = read(rt.alloc(), "{\"source\":\"s3://b\",\"format\":\"csv\"}").expect(
        &rt,
        "a request",
    );
    assert!(rt; request.mode == Mode::Auto && request.fail_on_error && request.parallelism == 2);
    assert!(rt; !request.update_single && !request.queue && request.dependencies.is_empty());
}

#[test]
fn the_first_refused_member_is_named(rt: HostRuntime) {
    for (members, want) in [
        ("\"format\":\"csv\"", 1),
        ("\"source\":null,\"format\":\"csv\"", 1),
        ("\"source\":\"b/f\",\"format\":\"turtle\"", 1),
        ("\"source\":\"s3://b\"", 2),
        ("\"source\":\"s3://b\",\"format\":\"turtle\"", 2),
        (
            "\"source\":\"s3://b\",\"format\":\"csv\",\"mode\":\"new\"",
            3,
        ),
        ("\"source\":\"s3://b\",\"format\":\"csv\",\"mode\":null", 3),
        (
            "\"source\":\"s3://b\",\"format\":\"csv\",\"failOnError\":0",
            4,
        ),
        (
            "\"source\":\"s3://b\",\"format\":\"csv\",\"parallelism\":\"TOP\"",
            5,
        ),
        (
            "\"source\":\"s3://b\",\"format\":\"csv\",\"updateSingleCardinalityProperties\":\"\"",
            6,
        ),
        (
            "\"source\":\"s3://b\",\"format\":\"csv\",\"queueRequest\":\"yes\"",
            7,
        ),
        (
            "\"source\":\"s3://b\",\"format\":\"csv\",\"dependencies\":\"\"",
            8,
        ),
        (
            "\"source\":\"s3://b\",\"format\":\"csv\",\"dependencies\":[7]",
            8,
        ),
        (
            "\"queueRequest\":7,\"source\":\"s3://b\",\"format\":\"csv\",\"mode\":7",
            3,
        ),
        (
            "\"format\":\"csv\",\"source\":\"s3://b\",\"format\":\"x\"",
            2,
        ),
    ] {
        let body = format!(in rt.alloc(); "{{{members}}}").expect(&rt, "memory");
        let refusal = read(rt.alloc(), body.as_str()).err();
        assert!(rt; refusal == Some(BodyRefusal::Member(want)));
    }
    for body in ["", "{", "[]", "7", "\"source\"", "{}x"] {
        let refusal = read(rt.alloc(), body).err();
        assert!(rt; refusal == Some(BodyRefusal::NotAnObject));
    }
}

#[test]
fn dependencies_are_ids_in_four_forms(rt: HostRuntime) {
    let body =
        "{\"source\":\"s3://b\",\"format\":\"csv\",\"failOnError\":\"tRuE\",\"dependencies\":[\"00000000-0000-4000-8000-000000000001\",\"00000000000040008000000000000001\",\"{00000000-0000-4000-8000-000000000001}\",\"urn:uuid:00000000-0000-4000-8000-000000000001\",\"x\"]}";
    let request = read(rt.alloc(), body).expect(&rt, "a request");
    let want = [id(1), id(1), id(1), id(1), 0];
    assert!(rt; request.dependencies.as_slice() == want.as_slice());
}
