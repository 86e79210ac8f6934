// Feeds that are carried on, sums, and the logs of a job.
ghost use Rattle.std.specs.Prelude.{◌≡◌, IfOk};
ghost use Rattle.bl_files.specs.Carried.{AreFeeds};

use bl_files::{
    CarryRefusal, Counts, ErrorClass, Feed, FeedKind, FeedStatus, Found, LoadRequest, Log, Mode,
    PlanResult, all_errors, carried_number, carry, class_of, is_kept_source, is_row_code,
    kept_source, names_rise, shown_counts, totals,
};
use bl_outside::{Digest, List, NoMemory, Text};
use bl_value::LogCode;
use std::alloc::Global;

fn file(alloc: Global, name: &[u8], kind: FeedKind) -> Result<Found, NoMemory>
    ensures { IfOk result (λ file. file.name ≡ name.now) }
{
    Ok(Found {
        name: Text::copy_of(alloc, name)?,
        kind,
        digest: Digest { bytes: [1; 32] },
    })
}

// A vertex file of the last load, with as many logs as were refused.
fn feed(alloc: Global, name: &[u8], status: FeedStatus, taken: u64) -> Result<Feed, NoMemory>
    ensures name { IfOk result (λ feed. feed.name ≡ name.now) }
    ensures kind { IfOk result (λ feed. feed.kind ≡ FeedKind.Vertex) }
{
    Ok(Feed {
        name: Text::copy_of(alloc, name)?,
        kind: FeedKind::Vertex,
        status,
        taken,
        digest: Digest { bytes: [2; 32] },
        counts: Counts {
            records: taken,
            duplicates: 1,
            parsing: 0,
            datatype: 1,
            insert: 0,
        },
        logs: one_log(alloc, LogCode::OutOfRange)?,
        end_log: Some(Log {
            code: LogCode::FromMissing,
            number: 4,
            column: 0,
        }),
    })
}

fn one_log(alloc: Global, code: LogCode) -> Result<List<Log>, NoMemory> {
    let mut logs = List::new(alloc);
    logs.push(Log {
        code,
        number: 2,
        column: 2,
    })?;
    Ok(logs)
}

// Three feeds: one completed with 3 records, one that failed with none, one with a record that is
// no longer found.
fn last_load(alloc: Global) -> Result<List<Feed>, NoMemory>
    ensures { IfOk result AreFeeds }
{
    let mut feeds = List::new(alloc);
    feeds.push(feed(alloc, b"a", FeedStatus::Completed, 3)?)?;
    feeds.push(feed(alloc, b"b", FeedStatus::Failed, 0)?)?;
    feeds.push(feed(alloc, b"gone", FeedStatus::CancelledByUser, 1)?)?;
    Ok(feeds)
}

fn no_feeds(alloc: Global) -> List<Feed>
    ensures { AreFeeds result }
{
    List::new(alloc)
}

fn files(alloc: Global) -> Result<List<Found>, NoMemory> {
    let mut found = List::new(alloc);
    found.push(file(alloc, b"a", FeedKind::Vertex)?)?;
    found.push(file(alloc, b"b", FeedKind::Edge)?)?;
    found.push(file(alloc, b"c", FeedKind::Vertex)?)?;
    found.push(file(alloc, b"d", FeedKind::Refused(LogCode::Header, 2))?)?;
    Ok(found)
}

#[test]
fn feeds_go_on_with_what_they_have(rt: HostRuntime) {
    let previous = last_load(rt.alloc()).expect(&rt, "memory");
    let found = files(rt.alloc()).expect(&rt, "memory");
    assert!(rt; names_rise(found.as_slice()));
    let carried = carry(rt.alloc(), &previous, &found).expect(&rt, "memory");
    assert!(rt; carried.len() == 5);
    let names: [&[u8]; 5] = [b"d", b"a", b"c", b"gone", b"b"];
    let statuses = [
        FeedStatus::Failed,
        FeedStatus::Completed,
        FeedStatus::NotStarted,
        FeedStatus::NotStarted,
        FeedStatus::NotStarted,
    ];
    let taken = [0, 3, 0, 1, 0];
    for (i, feed) in carried.as_slice().iter().enumerate() {
        let Some(name) = names.get(i) else {
            return;
        };
        assert!(rt; feed.name.as_slice() == *name, "{i}");
        assert!(rt; Some(&feed.status) == statuses.get(i), "{i}");
        assert!(rt; Some(&feed.taken) == taken.get(i), "{i}");
        assert!(rt;
            feed.logs.len() == if feed.taken > 0 { 1 } else { 0 },
            "{i}"
        );
        assert!(rt; feed.end_log.is_some() == (i == 0), "{i}");
        assert!(rt;
            feed.digest.bytes[0] == if feed.taken > 0 { 2 } else { 1 },
            "{i}"
        );
    }
    let refused = totals(&carried);
    assert!(rt; refused.records == 4 && refused.duplicates == 2 && refused.parsing == 1);
    assert!(rt; refused.datatype == 2 && refused.insert == 0);
}

// As many files, each with a name of three bytes.
fn many(alloc: Global, number: u32) -> Result<List<Found>, NoMemory> {
    let mut found = List::new(alloc);
    for i in 0..number {
        found.push(file(alloc, &i.to_be_bytes(), FeedKind::Vertex)?)?;
    }
    Ok(found)
}

#[test]
fn a_load_has_at_most_4096_files(rt: HostRuntime) {
    let none = no_feeds(rt.alloc());
    let found = many(rt.alloc(), 4096).expect(&rt, "memory");
    assert!(rt; names_rise(found.as_slice()));
    let Ok(carried) = carry(rt.alloc(), &none, &found) else {
        assert!(rt; false);
        return;
    };
    assert!(rt; carried.len() == 4096);
    let found = many(rt.alloc(), 4097).expect(&rt, "memory");
    assert!(rt; names_rise(found.as_slice()));
    let Err(refusal) = carry(rt.alloc(), &none, &found) else {
        assert!(rt; false);
        return;
    };
    assert!(rt; refusal == CarryRefusal::TooMany(4097));
}

#[test]
fn the_end_log_is_shown_with_the_rest(rt: HostRuntime) {
    let previous = last_load(rt.alloc()).expect(&rt, "memory");
    let Some(first) = previous.get(0) else {
        return;
    };
    let shown = shown_counts(first);
    assert!(rt;
        shown.records == 4 && shown.duplicates == 1 && shown.datatype == 1 && shown.insert == 1
    );
    let end = Log {
        code: LogCode::ListFault,
        number: 0,
        column: 0,
    };
    let errors = all_errors(rt.alloc(), &previous, Some(end)).expect(&rt, "memory");
    assert!(rt; errors.len() == 7);
    let Some(sixth) = errors.get(5) else {
        return;
    };
    assert!(rt; sixth.feed == Some(3) && sixth.log.code == LogCode::FromMissing);
    let Some(last) = errors.get(6) else {
        return;
    };
    assert!(rt; last.feed == None && last.log == end);
}

#[test]
fn codes_have_their_counters(rt: HostRuntime) {
    assert!(rt;
        class_of(LogCode::Header) == Some(ErrorClass::Parsing) && !is_row_code(LogCode::Header)
    );
    assert!(rt; class_of(LogCode::OutOfRange) == Some(ErrorClass::Datatype));
    assert!(rt;
        class_of(LogCode::SingleConflict) == Some(ErrorClass::Insert)
            && is_row_code(LogCode::SingleConflict)
    );
    assert!(rt; class_of(LogCode::Compressed) == None);
}

#[test]
fn the_number_of_files_is_known_before_they_are_made(rt: HostRuntime) {
    let previous = last_load(rt.alloc()).expect(&rt, "memory");
    let found = files(rt.alloc()).expect(&rt, "memory");
    assert!(rt; names_rise(found.as_slice()));
    assert!(rt; carried_number(rt.alloc(), &previous, &found) == Ok(5));
}

#[test]
fn plans_are_looked_at(rt: HostRuntime) {
    let good = PlanResult::Feeds(files(rt.alloc()).expect(&rt, "memory"));
    assert!(rt; good.has_rising_names() && good.has_file_codes());
    let mut twice = List::new(rt.alloc());
    for name in [b"a".as_slice(), b"b".as_slice(), b"b".as_slice()] {
        let refused = FeedKind::Refused(LogCode::ReadFault, 0);
        twice
            .push(file(rt.alloc(), name, refused).expect(&rt, "memory"))
            .expect(&rt, "memory");
    }
    let bad = PlanResult::Feeds(twice);
    assert!(rt; !bad.has_rising_names() && !bad.has_file_codes());
    let none = PlanResult::NoPrevious;
    assert!(rt; none.has_rising_names() && none.has_file_codes());
    assert!(rt; FeedKind::Refused(LogCode::FileTooLarge, 0).has_file_code());
}

#[test]
fn statuses_are_open_or_ended(rt: HostRuntime) {
    for (status, open) in [
        (FeedStatus::NotStarted, true),
        (FeedStatus::InProgress, true),
        (FeedStatus::Completed, false),
        (FeedStatus::Failed, false),
        (FeedStatus::ReadError, false),
        (FeedStatus::Modified, false),
        (FeedStatus::CancelledDueToErrors, false),
        (FeedStatus::CancelledByUser, false),
    ] {
        assert!(rt; status.is_open() == open && status.has_ended() != open);
        assert!(rt; status.is_completed() == (status == FeedStatus::Completed));
        assert!(rt; status.is_failed() == (status == FeedStatus::Failed));
    }
}

#[test]
fn a_source_is_kept_without_a_slash_at_its_end(rt: HostRuntime) {
    let sources: [(&[u8], Option<&[u8]>); 8] = [
        (b"s3://b/k/", Some(b"s3://b/k")),
        (b"s3://b/k", Some(b"s3://b/k")),
        (b"s3://b/", Some(b"s3://b")),
        (b"s3://b", Some(b"s3://b")),
        (b"s3://b/k//", None),
        (b"s3://b/../k", None),
        (b"s3://B/k", None),
        (b"http://b/k", None),
    ];
    for (source, expected) in sources {
        let kept = kept_source(rt.alloc(), source).expect(&rt, "memory");
        match (kept, expected) {
            (Some(kept), Some(expected)) => {
                assert!(rt; kept.as_slice() == expected && is_kept_source(kept.as_slice()));
            }
            (None, None) => {}
            _ => assert!(rt; false),
        }
    }
}

#[test]
fn a_request_is_copied(rt: HostRuntime) {
    let mut dependencies = List::new(rt.alloc());
    dependencies.push(7).expect(&rt, "memory");
    let request = LoadRequest {
        source: Text::of_str(rt.alloc(), "s3://b/k").expect(&rt, "memory"),
        format: 0,
        mode: Mode::Resume,
        fail_on_error: true,
        update_single: false,
        parallelism: 2,
        queue: true,
        dependencies,
    };
    let copy = request.copy(rt.alloc()).expect(&rt, "memory");
    assert!(rt; copy.source.as_slice() == b"s3://b/k".as_slice());
    assert!(rt; copy.mode == Mode::Resume && copy.fail_on_error && !copy.update_single);
    assert!(rt; copy.parallelism == 2 && copy.queue && copy.format == 0);
    assert!(rt; copy.dependencies.as_slice() == [7].as_slice());
}
