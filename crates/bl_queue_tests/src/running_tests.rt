// Loads that start, take rows, end files and end.
use crate::test_jobs::{
    ask, ask_with, cancel, end_feed, feed_status, many_logs, request_of, running, start, status_of,
    take, two_files, two_files_of,
};
use bl_files::{FeedEnd, FeedKind, FeedStatus, Log, PlanResult, totals};
use bl_outside::List;
use bl_queue::{JobStatus, Jobs};
use bl_value::LogCode;

#[test]
fn the_end_of_a_file_stops_or_ends_the_job(rt: HostRuntime) {
    let mut jobs = Jobs::new(rt.alloc());
    assert!(rt; ask_with(rt.alloc(), &mut jobs, &[]) == Ok(Some(1)));
    assert!(rt; ask_with(rt.alloc(), &mut jobs, &[1]) == Ok(Some(2)));
    assert!(rt; ask_with(rt.alloc(), &mut jobs, &[]) == Ok(Some(3)));
    let plan = two_files(rt.alloc()).expect(&rt, "memory");
    assert!(rt; start(&mut jobs, 1, &plan));
    assert!(rt; status_of(&jobs, 1) == Some(JobStatus::InProgress));
    assert!(rt; end_feed(&mut jobs, 1, 1, FeedEnd::Completed));
    assert!(rt; status_of(&jobs, 1) == Some(JobStatus::InProgress));
    assert!(rt; !end_feed(&mut jobs, 1, 1, FeedEnd::Completed));
    assert!(rt; end_feed(&mut jobs, 1, 2, FeedEnd::Completed));
    assert!(rt; status_of(&jobs, 1) == Some(JobStatus::Completed));
    assert!(rt; start(&mut jobs, 2, &plan));
    assert!(rt; status_of(&jobs, 2) == Some(JobStatus::Completed));
    assert!(rt; start(&mut jobs, 3, &PlanResult::SourceNotFound) && jobs.front() == None);
}

#[test]
fn a_file_that_is_not_read_stops_a_load_that_is_to_stop(rt: HostRuntime) {
    for (stops, job, other) in [
        (true, JobStatus::Failed, FeedStatus::CancelledDueToErrors),
        (false, JobStatus::InProgress, FeedStatus::NotStarted),
    ] {
        let mut jobs = Jobs::new(rt.alloc());
        let mut request = request_of(rt.alloc(), "s3://b/k", true, &[]).expect(&rt, "memory");
        request.fail_on_error = stops;
        assert!(rt; ask(&mut jobs, request).is_ok());
        let refused = FeedKind::Refused(LogCode::Header, 2);
        let plan = two_files_of(rt.alloc(), refused).expect(&rt, "memory");
        assert!(rt; start(&mut jobs, 1, &plan));
        assert!(rt; status_of(&jobs, 1) == Some(job), "{stops}");
        assert!(rt;
            feed_status(&jobs, 1, 0) == Some(FeedStatus::Failed),
            "{stops}"
        );
        assert!(rt; feed_status(&jobs, 1, 1) == Some(other), "{stops}");
    }
}

#[test]
fn a_stop_and_a_cancel_end_every_file(rt: HostRuntime) {
    let mut jobs = Jobs::new(rt.alloc());
    assert!(rt; ask_with(rt.alloc(), &mut jobs, &[]) == Ok(Some(1)));
    assert!(rt; ask_with(rt.alloc(), &mut jobs, &[1]) == Ok(Some(2)));
    assert!(rt; ask_with(rt.alloc(), &mut jobs, &[]) == Ok(Some(3)));
    let plan = two_files(rt.alloc()).expect(&rt, "memory");
    assert!(rt; start(&mut jobs, 1, &plan));
    assert!(rt; end_feed(&mut jobs, 1, 1, FeedEnd::Modified));
    assert!(rt; status_of(&jobs, 1) == Some(JobStatus::Failed));
    assert!(rt; feed_status(&jobs, 1, 0) == Some(FeedStatus::Modified));
    assert!(rt; feed_status(&jobs, 1, 1) == Some(FeedStatus::CancelledDueToErrors));
    assert!(rt; status_of(&jobs, 2) == Some(JobStatus::DependencyNotSatisfied));
    assert!(rt; start(&mut jobs, 3, &plan));
    assert!(rt; cancel(&mut jobs, 3) && !cancel(&mut jobs, 3));
    assert!(rt; status_of(&jobs, 3) == Some(JobStatus::CancelledByUser));
    assert!(rt; feed_status(&jobs, 3, 0) == Some(FeedStatus::CancelledByUser));
    assert!(rt; feed_status(&jobs, 3, 1) == Some(FeedStatus::CancelledByUser));
}

#[test]
fn rows_are_counted_and_the_last_logs_stay(rt: HostRuntime) {
    let mut jobs = Jobs::new(rt.alloc());
    assert!(rt; ask_with(rt.alloc(), &mut jobs, &[]) == Ok(Some(1)));
    let plan = two_files(rt.alloc()).expect(&rt, "memory");
    assert!(rt; start(&mut jobs, 1, &plan));
    let one = many_logs(rt.alloc(), 1).expect(&rt, "memory");
    assert!(rt; take(&mut jobs, 1, 1, 3, 2, &one));
    assert!(rt; !take(&mut jobs, 1, 1, 3, 3, &one));
    assert!(rt; feed_status(&jobs, 1, 0) == Some(FeedStatus::InProgress));
    let many = many_logs(rt.alloc(), 6000).expect(&rt, "memory");
    assert!(rt; take(&mut jobs, 1, 1, 7000, 0, &many));
    assert!(rt; end_feed(&mut jobs, 1, 1, FeedEnd::Completed));
    assert!(rt; take(&mut jobs, 1, 2, 6000, 0, &many));
    let job = jobs.job(1).expect(&rt, "there");
    assert!(rt; job.latest == 50 && job.feeds.len() == 2);
    let feed = job.feeds.get(0).expect(&rt, "there");
    assert!(rt; feed.taken == 7003 && feed.digest.bytes[0] == 9);
    assert!(rt; feed.counts.records == 7003 && feed.counts.duplicates == 2);
    assert!(rt; feed.counts.datatype == 6001 && feed.counts.parsing == 0);
    assert!(rt; feed.logs.len() == 4000);
    let log = feed.logs.get(0).expect(&rt, "there");
    assert!(rt; log.number == 2001);
    let last = job.feeds.get(1).expect(&rt, "there");
    assert!(rt; last.logs.len() == 6000);
    assert!(rt; take(&mut jobs, 1, 2, 1, 0, &one));
    let job = jobs.job(1).expect(&rt, "there");
    let feed = job.feeds.get(0).expect(&rt, "there");
    assert!(rt; feed.logs.len() == 3999);
    let log = feed.logs.get(0).expect(&rt, "there");
    assert!(rt; log.number == 2002);
    let last = job.feeds.get(1).expect(&rt, "there");
    assert!(rt; last.logs.len() == 6001);
}

// 1,000 rows of the first file, and then the refusal of the next.
#[test]
fn a_refused_record_stops_the_load(rt: HostRuntime) {
    let jobs = running(rt.alloc(), true).expect(&rt, "memory");
    let mut jobs = jobs.expect(&rt, "started");
    let none = List::new(rt.alloc());
    assert!(rt; take(&mut jobs, 1, 1, 1000, 0, &none));
    let log = Log {
        code: LogCode::NotOfType,
        number: 1001,
        column: 2,
    };
    assert!(rt; end_feed(&mut jobs, 1, 1, FeedEnd::Stopped(log)));
    assert!(rt; status_of(&jobs, 1) == Some(JobStatus::Failed) && jobs.front() == None);
    assert!(rt; feed_status(&jobs, 1, 0) == Some(FeedStatus::Failed));
    assert!(rt; feed_status(&jobs, 1, 1) == Some(FeedStatus::CancelledDueToErrors));
    let job = jobs.job(1).expect(&rt, "there");
    let total = totals(&job.feeds);
    assert!(rt; total.records == 1001 && total.duplicates == 0 && total.parsing == 0);
    assert!(rt; total.datatype == 1 && total.insert == 0);
}

#[test]
fn a_load_goes_on_after_a_change_where_it_may_and_stops_at_a_read_fault(rt: HostRuntime) {
    let jobs = running(rt.alloc(), false).expect(&rt, "memory");
    let mut jobs = jobs.expect(&rt, "started");
    assert!(rt; end_feed(&mut jobs, 1, 1, FeedEnd::Modified));
    assert!(rt; status_of(&jobs, 1) == Some(JobStatus::InProgress));
    assert!(rt; feed_status(&jobs, 1, 0) == Some(FeedStatus::Modified));
    assert!(rt; feed_status(&jobs, 1, 1) == Some(FeedStatus::NotStarted));
    assert!(rt; end_feed(&mut jobs, 1, 2, FeedEnd::Completed));
    assert!(rt; status_of(&jobs, 1) == Some(JobStatus::Failed));
    let jobs = running(rt.alloc(), false).expect(&rt, "memory");
    let mut jobs = jobs.expect(&rt, "started");
    assert!(rt; end_feed(&mut jobs, 1, 1, FeedEnd::ReadError));
    assert!(rt; status_of(&jobs, 1) == Some(JobStatus::Failed));
    assert!(rt; feed_status(&jobs, 1, 0) == Some(FeedStatus::ReadError));
    assert!(rt; feed_status(&jobs, 1, 1) == Some(FeedStatus::CancelledDueToErrors));
}

#[test]
fn a_cancelled_load_goes_on_behind_its_records(rt: HostRuntime) {
    let jobs = running(rt.alloc(), true).expect(&rt, "memory");
    let mut jobs = jobs.expect(&rt, "started");
    let one = many_logs(rt.alloc(), 1).expect(&rt, "memory");
    assert!(rt; take(&mut jobs, 1, 2, 10, 3, &one));
    assert!(rt; cancel(&mut jobs, 1));
    assert!(rt; feed_status(&jobs, 1, 1) == Some(FeedStatus::CancelledByUser));
    let again = request_of(rt.alloc(), "s3://b/k", true, &[]).expect(&rt, "memory");
    assert!(rt; ask(&mut jobs, again) == Ok(Some(2)));
    let older = jobs.goes_on_from(2).expect(&rt, "there");
    assert!(rt; older.number == 1);
    let plan = two_files(rt.alloc()).expect(&rt, "memory");
    assert!(rt; start(&mut jobs, 2, &plan));
    let job = jobs.job(2).expect(&rt, "there");
    assert!(rt; job.run == 2 && job.previous == 1 && job.feeds.len() == 2);
    let first = job.feeds.get(0).expect(&rt, "there");
    assert!(rt; first.taken == 0 && first.digest.bytes[0] == 1 && first.logs.is_empty());
    let second = job.feeds.get(1).expect(&rt, "there");
    assert!(rt; second.status == FeedStatus::NotStarted && second.end_log == None);
    assert!(rt; second.taken == 10 && second.digest.bytes[0] == 9 && second.logs.len() == 1);
    assert!(rt; second.counts.duplicates == 3 && second.counts.datatype == 1);
}

#[test]
fn what_may_not_befall_a_job_is_said(rt: HostRuntime) {
    let jobs = running(rt.alloc(), true).expect(&rt, "memory");
    let mut jobs = jobs.expect(&rt, "started");
    assert!(rt; !jobs.has_next_number(1) && jobs.has_next_number(2));
    assert!(rt; jobs.has_next_number((7 << 48) + 2));
    assert!(rt; !jobs.may_start(1) && !jobs.may_end(1) && jobs.may_cancel(1));
    assert!(rt; !jobs.may_cancel(2) && !jobs.may_end(2) && !jobs.may_start(2));
    assert!(rt; jobs.may_end_feed(1, 2) && !jobs.may_end_feed(1, 0) && !jobs.may_end_feed(1, 3));
    assert!(rt; !jobs.may_end_feed(2, 1));
    assert!(rt; jobs.may_take_rows(1, 1, 3, 1, 2) && !jobs.may_take_rows(1, 1, 3, 2, 2));
    assert!(rt; !jobs.may_take_rows(1, 0, 3, 0, 0) && !jobs.may_take_rows(2, 1, 3, 0, 0));
    assert!(rt; ask_with(rt.alloc(), &mut jobs, &[]) == Ok(Some(2)));
    assert!(rt; !jobs.may_start(2) && jobs.may_end(2));
    assert!(rt; cancel(&mut jobs, 1) && jobs.may_start(2));
}
