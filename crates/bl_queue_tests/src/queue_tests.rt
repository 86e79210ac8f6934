// Loads that are taken on and refused, and those that are kept.
use crate::test_jobs::{
    ask, ask_with, complete, end_feed, fail, no_files, request, request_of, running, start,
    status_of, take,
};
use bl_files::{FeedEnd, PlanResult};
use bl_outside::List;
use bl_queue::{CheckRefusal, JobStatus, Jobs, MOST_KEPT, copy_jobs};
use std::alloc::Global;

#[test]
fn the_66th_load_finds_no_room(rt: HostRuntime) {
    let mut jobs = Jobs::new(rt.alloc());
    for i in 0..65 {
        assert!(rt; ask_with(rt.alloc(), &mut jobs, &[]) == Ok(Some(i + 1)));
    }
    assert!(rt; ask_with(rt.alloc(), &mut jobs, &[]) == Err(CheckRefusal::QueueFull));
    let alone = request(rt.alloc(), false, &[]).expect(&rt, "memory");
    assert!(rt; ask(&mut jobs, alone) == Err(CheckRefusal::Busy(1)));
    assert!(rt; jobs.front() == Some(1) && jobs.last() == 65 && jobs.kept().len() == 65);
    assert!(rt; status_of(&jobs, 1) == Some(JobStatus::NotStarted));
    assert!(rt; status_of(&jobs, 65) == Some(JobStatus::InQueue));
    assert!(rt; complete(&mut jobs, 1));
    let alone = request(rt.alloc(), false, &[]).expect(&rt, "memory");
    assert!(rt; ask(&mut jobs, alone) == Err(CheckRefusal::Busy(2)));
    assert!(rt; status_of(&jobs, 2) == Some(JobStatus::NotStarted));
    assert!(rt; ask_with(rt.alloc(), &mut jobs, &[]) == Ok(Some(66)));
}

#[test]
fn dependencies_are_kept_loads_and_at_most_64(rt: HostRuntime) {
    let mut jobs = Jobs::new(rt.alloc());
    assert!(rt; ask_with(rt.alloc(), &mut jobs, &[]) == Ok(Some(1)));
    assert!(rt;
        ask_with(rt.alloc(), &mut jobs, &[1, 1, 9, 8]) == Err(CheckRefusal::UnknownDependency(3))
    );
    assert!(rt;
        ask_with(rt.alloc(), &mut jobs, &[9; 65]) == Err(CheckRefusal::TooManyDependencies)
    );
    assert!(rt;
        ask_with(rt.alloc(), &mut jobs, &[9; 64]) == Err(CheckRefusal::UnknownDependency(1))
    );
    assert!(rt; ask_with(rt.alloc(), &mut jobs, &[1; 64]) == Ok(Some(2)));
}

#[test]
fn a_failure_ends_all_that_depend_on_it(rt: HostRuntime) {
    let mut jobs = Jobs::new(rt.alloc());
    assert!(rt; ask_with(rt.alloc(), &mut jobs, &[]) == Ok(Some(1)));
    assert!(rt; ask_with(rt.alloc(), &mut jobs, &[1]) == Ok(Some(2)));
    assert!(rt; ask_with(rt.alloc(), &mut jobs, &[2]) == Ok(Some(3)));
    assert!(rt; ask_with(rt.alloc(), &mut jobs, &[]) == Ok(Some(4)));
    assert!(rt; fail(&mut jobs, 8, 1));
    let statuses = [
        JobStatus::Failed,
        JobStatus::DependencyNotSatisfied,
        JobStatus::DependencyNotSatisfied,
        JobStatus::NotStarted,
    ];
    let latest = [8, 8, 8, 7];
    for (i, job) in jobs.kept().as_slice().iter().enumerate() {
        assert!(rt; Some(&job.status) == statuses.get(i), "{i}");
        assert!(rt; Some(&job.latest) == latest.get(i), "{i}");
        assert!(rt; job.end_log.is_some() == (i == 0), "{i}");
    }
    assert!(rt; jobs.front() == Some(4));
    assert!(rt; ask_with(rt.alloc(), &mut jobs, &[4, 1]) == Ok(Some(5)));
    assert!(rt; status_of(&jobs, 5) == Some(JobStatus::DependencyNotSatisfied));
    assert!(rt; complete(&mut jobs, 4) && jobs.front() == None);
    assert!(rt; ask_with(rt.alloc(), &mut jobs, &[4]) == Ok(Some(6)));
    assert!(rt; status_of(&jobs, 6) == Some(JobStatus::NotStarted));
    assert!(rt; jobs.previous(6) == None && jobs.previous(60) == None);
}

#[test]
fn numbers_end(rt: HostRuntime) {
    let mut jobs = Jobs::from_kept(rt.alloc(), u32::MAX - 1, List::new(rt.alloc()));
    assert!(rt; ask_with(rt.alloc(), &mut jobs, &[]) == Ok(Some(u32::MAX)));
    assert!(rt; ask_with(rt.alloc(), &mut jobs, &[]) == Err(CheckRefusal::NumbersUsedUp));
}

#[test]
fn the_newest_1024_are_kept(rt: HostRuntime) {
    let mut jobs = Jobs::new(rt.alloc());
    assert!(rt; ask_with(rt.alloc(), &mut jobs, &[]) == Ok(Some(1)));
    for i in 1..MOST_KEPT as u32 {
        assert!(rt; ask_with(rt.alloc(), &mut jobs, &[]) == Ok(Some(i + 1)));
        assert!(rt; complete(&mut jobs, i + 1));
    }
    assert!(rt; jobs.kept().len() == MOST_KEPT);
    assert!(rt; ask_with(rt.alloc(), &mut jobs, &[]) == Ok(Some(1025)));
    assert!(rt; jobs.kept().len() == MOST_KEPT && jobs.front() == Some(1));
    assert!(rt; status_of(&jobs, 1) == Some(JobStatus::NotStarted));
    assert!(rt; status_of(&jobs, 2) == None && status_of(&jobs, 3).is_some());
}

// A load of a source of its own is asked for and started: its run, and the load that it goes on with.
fn run_of(alloc: Global, jobs: &mut Jobs) -> Option<(u32, u32)> {
    let request = request_of(alloc, "s3://b/k", true, &[]).ok()?;
    let number = ask(jobs, request).ok()??;
    if !start(jobs, number, &no_files(alloc)) {
        return None;
    }
    jobs.job(number).map(|job| (job.run, job.previous))
}

// So many loads of another source are taken on, and end.
fn others_end(alloc: Global, jobs: &mut Jobs, count: usize) -> bool {
    for _load in 0..count {
        let Ok(Some(number)) = ask_with(alloc, jobs, &[]) else {
            return false;
        };
        if !complete(jobs, number) {
            return false;
        }
    }
    true
}

// With the 1,024th load behind it a load is dropped, so that one begins anew. The 1,023rd goes on.
#[test]
fn a_load_that_is_dropped_is_not_gone_on_with(rt: HostRuntime) {
    let mut jobs = Jobs::new(rt.alloc());
    assert!(rt; run_of(rt.alloc(), &mut jobs) == Some((1, 0)));
    assert!(rt; others_end(rt.alloc(), &mut jobs, MOST_KEPT - 2));
    let copy = copy_jobs(rt.alloc(), jobs.kept()).expect(&rt, "memory");
    let mut fewer = Jobs::from_kept(rt.alloc(), jobs.last(), copy);
    assert!(rt; fewer.last() == 1023 && run_of(rt.alloc(), &mut fewer) == Some((2, 1)));
    assert!(rt; fewer.kept().len() == MOST_KEPT && fewer.job(1).is_some());
    assert!(rt; others_end(rt.alloc(), &mut jobs, 1) && jobs.kept().len() == MOST_KEPT);
    assert!(rt; jobs.last() == 1024 && run_of(rt.alloc(), &mut jobs) == Some((1, 0)));
    assert!(rt; jobs.kept().len() == MOST_KEPT && jobs.job(1).is_none());
}

#[test]
fn a_load_goes_on_from_the_newest_of_its_source(rt: HostRuntime) {
    let mut jobs = Jobs::new(rt.alloc());
    let sources = [
        "s3://b/k",
        "s3://b/other",
        "s3://b/k",
        "s3://b/k",
        "s3://b/k",
    ];
    for source in sources {
        let request = request_of(rt.alloc(), source, true, &[]).expect(&rt, "memory");
        assert!(rt; ask(&mut jobs, request).is_ok());
    }
    let none = no_files(rt.alloc());
    assert!(rt; start(&mut jobs, 1, &none) && status_of(&jobs, 1) == Some(JobStatus::Completed));
    assert!(rt; start(&mut jobs, 2, &none) && jobs.front() == Some(3));
    assert!(rt; jobs.previous(2) == None && jobs.previous(3) == Some(1));
    assert!(rt; start(&mut jobs, 3, &PlanResult::ListFault));
    assert!(rt; status_of(&jobs, 3) == Some(JobStatus::Failed));
    assert!(rt; jobs.previous(4) == Some(1) && jobs.previous(5) == Some(1));
    assert!(rt; start(&mut jobs, 4, &none));
    assert!(rt; jobs.previous(4) == Some(1) && jobs.previous(5) == Some(4));
    assert!(rt; start(&mut jobs, 5, &none) && jobs.front() == None);
    let runs = [1, 1, 2, 2, 3];
    let previous = [0, 0, 1, 1, 4];
    for (i, job) in jobs.kept().as_slice().iter().enumerate() {
        assert!(rt; Some(&job.run) == runs.get(i), "{i}");
        assert!(rt; Some(&job.previous) == previous.get(i), "{i}");
        assert!(rt; job.started == 20 && job.latest == 20, "{i}");
        assert!(rt; job.end_log.is_some() == (i == 2), "{i}");
    }
}

#[test]
fn sixty_five_kept_loads_are_too_many_to_depend_on(rt: HostRuntime) {
    let mut jobs = Jobs::new(rt.alloc());
    let mut ids: Vec<u128> = Vec::new(rt.alloc());
    for i in 0..65 {
        assert!(rt; ask_with(rt.alloc(), &mut jobs, &[]) == Ok(Some(i + 1)));
        assert!(rt; complete(&mut jobs, i + 1));
        ids.push(i as u128 + 1).expect(&rt, "memory");
    }
    assert!(rt;
        ask_with(rt.alloc(), &mut jobs, ids.as_slice()) == Err(CheckRefusal::TooManyDependencies)
    );
    assert!(rt; ids.pop() == Some(65));
    assert!(rt; ask_with(rt.alloc(), &mut jobs, ids.as_slice()) == Ok(Some(66)));
}

#[test]
fn kept_jobs_are_taken_over(rt: HostRuntime) {
    let jobs = running(rt.alloc(), true).expect(&rt, "memory");
    let mut jobs = jobs.expect(&rt, "started");
    assert!(rt; ask_with(rt.alloc(), &mut jobs, &[1]) == Ok(Some(2)));
    let copy = copy_jobs(rt.alloc(), jobs.kept()).expect(&rt, "memory");
    let mut again = Jobs::from_kept(rt.alloc(), jobs.last(), copy);
    assert!(rt; again.last() == 2 && again.kept().len() == 2 && again.front() == Some(1));
    let front = again.front_job().expect(&rt, "there");
    assert!(rt; front.number == 1 && front.feeds.len() == 2 && front.is_unended());
    let second = again.job_by_id(2).expect(&rt, "there");
    assert!(rt; second.number == 2 && second.status == JobStatus::InQueue);
    assert!(rt; again.job_by_id(3).is_none() && again.job(3).is_none());
    let none = List::new(rt.alloc());
    assert!(rt; take(&mut again, 1, 1, 5, 0, &none));
    assert!(rt; end_feed(&mut again, 1, 1, FeedEnd::ReadError));
    assert!(rt; status_of(&again, 2) == Some(JobStatus::DependencyNotSatisfied));
    assert!(rt; status_of(&jobs, 2) == Some(JobStatus::InQueue));
}
