// A job is started.
ghost use Rattle.std.specs.Prelude.{
  ◌≡◌,
  ◌+◌,
  ◌<◌,
  ◌≤◌,
  ◌^◌,
  ◌↔◌,
  IsTrue,
  AllPairs,
  IfOk,
  IfSome,
  IsSomeAnd,
};
ghost use Rattle.std.specs.List.{list_any};
ghost use Rattle.std.specs.Option.{option_copied};
ghost use Rattle.bl_files.specs.Carried.{AreCarried, AreFeeds, DifferentNames, found_names};
ghost use Rattle.bl_queue.specs.Changes.{with_job};
ghost use Rattle.bl_queue.specs.Doomed.{IsSettled};
ghost use Rattle.bl_queue.specs.Pass.{AreOrdered};
ghost use Rattle.bl_files.specs.Statuses.{is_failed};
ghost use Rattle.bl_queue.specs.Runs.{
  FitsIn,
  begun,
  by_mode,
  feeds_of,
  goes_on_from,
  number_of,
  refused_job,
  run_after,
  running_job,
};

use crate::ending_feeds::{bare_log, with_open_ended};
use crate::running::{close, place_of};
use crate::searching::{job_of, previous_of};
use crate::settling::settle;
use crate::{Job, JobStatus};
use bl_files::{
    CarryRefusal, Feed, FeedStatus, Found, MOST_FILES, Mode, carried_feeds_are_one_list,
    carried_number, carry,
};
use bl_outside::{List, NoMemory};
use bl_value::LogCode;
use std::alloc::Global;

fn by_mode<'a>(mode: Mode, previous: Option<&'a Job>) -> Option<&'a Job>
    ensures { option_copied result ≡ by_mode mode (option_copied previous.entry) }
{
    match mode {
        Mode::New => None,
        Mode::Resume | Mode::Auto => previous,
    }
}

/// The load that the job of this number goes on with.
pub fn goes_on_from(jobs: &[Job], number: u32) -> Option<&Job>
    ensures { option_copied result ≡ goes_on_from jobs.now number }
{
    match job_of(jobs, number) {
        Some(job) => by_mode(job.request.mode, previous_of(jobs, job)),
        None => None,
    }
}

/// The run of a load that goes on from another.
pub fn run_after(older: Option<&Job>) -> u32
    requires { IfSome (option_copied older) (λ it. it.run + 1 < 2 ^ 32) }
    ensures { result ≡ run_after (option_copied older.entry) }
{
    match older {
        Some(job) => job.run + 1,
        None => 1,
    }
}

pub fn number_of(older: Option<&Job>) -> u32
    ensures { result ≡ number_of (option_copied older.entry) }
{
    match older {
        Some(job) => job.number,
        None => 0,
    }
}

fn go_on(alloc: Global, previous: &List<Feed>, found: &List<Found>) -> Result<List<Feed>, NoMemory>
    requires previous { AreFeeds previous.now }
    requires found { DifferentNames (found_names found.now) }
    requires room { FitsIn previous.now found.now }
    ensures carried { IfOk result (λ feeds. AreCarried previous.now found.now feeds) }
    ensures feeds { IfOk result AreFeeds }
{
    carried_feeds_are_one_list();
    match carry(alloc, previous, found) {
        Ok(feeds) => Ok(feeds),
        Err(CarryRefusal::TooMany(_)) => unreachable!(),
        Err(CarryRefusal::NoMemory) => Err(NoMemory),
    }
}

/// The files of a load that goes on from another.
pub fn carried(
    alloc: Global,
    older: Option<&Job>,
    found: &List<Found>,
) -> Result<List<Feed>, NoMemory>
    requires previous { AreFeeds (feeds_of (option_copied older)) }
    requires found { DifferentNames (found_names found.now) }
    requires room { FitsIn (feeds_of (option_copied older)) found.now }
    ensures carried { IfOk result (λ feeds.
        AreCarried (feeds_of (option_copied older.entry)) found.now feeds) }
    ensures feeds { IfOk result AreFeeds }
{
    match older {
        Some(job) => go_on(alloc, &job.feeds, found),
        None => go_on(alloc, &List::new(alloc), found),
    }
}

fn carry_fits(alloc: Global, previous: &List<Feed>, found: &List<Found>) -> Result<bool, NoMemory>
    requires previous { AreFeeds previous.now }
    requires found { DifferentNames (found_names found.now) }
    ensures { IfOk result (λ room. IsTrue room ↔ FitsIn previous.now found.now) }
{
    carried_feeds_are_one_list();
    let number = carried_number(alloc, previous, found)?;
    Ok(number <= MOST_FILES)
}

/// Whether the files of a load that goes on from another are few enough.
pub fn fits_in(alloc: Global, older: Option<&Job>, found: &List<Found>) -> Result<bool, NoMemory>
    requires previous { AreFeeds (feeds_of (option_copied older)) }
    requires found { DifferentNames (found_names found.now) }
    ensures { IfOk result (λ room.
        IsTrue room ↔ FitsIn (feeds_of (option_copied older.entry)) found.now) }
{
    match older {
        Some(job) => carry_fits(alloc, &job.feeds, found),
        None => carry_fits(alloc, &List::new(alloc), found),
    }
}

fn any_failed(feeds: &[Feed]) -> bool
    ensures { result ≡ list_any (λ feed. is_failed feed.status) feeds.now }
{
    feeds.iter().any(|feed| feed.status.is_failed())
}

// A file that has failed at once stops a load that is to stop at errors.
fn begun(fail_on_error: bool, feeds: List<Feed>) -> List<Feed>
    ensures { result ≡ begun fail_on_error feeds }
{
    if fail_on_error && any_failed(feeds.as_slice()) {
        with_open_ended(feeds, FeedStatus::CancelledDueToErrors)
    } else {
        feeds
    }
}

fn run_job(job: &mut Job, moment: u64, run: u32, previous: u32, feeds: List<Feed>)
    ensures { job.new ≡ running_job moment run previous feeds job.old }
{
    job.started = moment;
    job.latest = moment;
    job.run = run;
    job.previous = previous;
    job.status = JobStatus::InProgress;
    job.feeds = begun(job.request.fail_on_error, feeds);
    close(job);
}

fn run_one(jobs: &mut [Job], moment: u64, number: u32, run: u32, previous: u32, feeds: List<Feed>)
    requires { AllPairs (λ a b. a.number < b.number) jobs.old }
    ensures { jobs.new ≡ with_job number (running_job moment run previous feeds) jobs.old }
{
    if let Some(place) = place_of(jobs, number) {
        run_job(&mut jobs[place], moment, run, previous, feeds);
    }
}

/// The job of this number runs with these files, and the jobs settle.
pub fn with_running(
    jobs: List<Job>,
    moment: u64,
    number: u32,
    run: u32,
    previous: u32,
    feeds: List<Feed>,
) -> List<Job>
    requires rising { AllPairs (λ a b. a.number < b.number) jobs }
    requires ordered { AreOrdered (with_job number (running_job moment run previous feeds) jobs) }
    ensures { IsSettled moment
        (with_job number (running_job moment run previous feeds) jobs) result }
{
    let mut jobs = jobs.into_vec();
    run_one(&mut jobs, moment, number, run, previous, feeds);
    settle(&mut jobs, moment);
    List::from_vec(jobs)
}

fn refuse_job(job: &mut Job, moment: u64, run: u32, previous: u32, code: LogCode)
    ensures { job.new ≡ refused_job moment run previous code job.old }
{
    job.started = moment;
    job.latest = moment;
    job.run = run;
    job.previous = previous;
    job.status = JobStatus::Failed;
    job.end_log = Some(bare_log(code));
}

fn refuse_one(jobs: &mut [Job], moment: u64, number: u32, run: u32, previous: u32, code: LogCode)
    requires { AllPairs (λ a b. a.number < b.number) jobs.old }
    ensures { jobs.new ≡ with_job number (refused_job moment run previous code) jobs.old }
{
    if let Some(place) = place_of(jobs, number) {
        refuse_job(&mut jobs[place], moment, run, previous, code);
    }
}

/// The job of this number fails at its start, and the jobs settle.
pub fn with_refused(
    jobs: List<Job>,
    moment: u64,
    number: u32,
    run: u32,
    previous: u32,
    code: LogCode,
) -> List<Job>
    requires rising { AllPairs (λ a b. a.number < b.number) jobs }
    requires ordered { AreOrdered (with_job number (refused_job moment run previous code) jobs) }
    ensures { IsSettled moment
        (with_job number (refused_job moment run previous code) jobs) result }
{
    let mut jobs = jobs.into_vec();
    refuse_one(&mut jobs, moment, number, run, previous, code);
    settle(&mut jobs, moment);
    List::from_vec(jobs)
}
