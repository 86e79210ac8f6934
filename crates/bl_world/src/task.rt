// What the loader is told of its next work.
ghost use Rattle.std.specs.Prelude.{◌≡◌, false, None, [], IfOk, option_map};
ghost use Rattle.std.specs.Option.{option_copied};
ghost use Rattle.bl_queue.specs.Jobs.{front_job};
ghost use Rattle.bl_queue.specs.Runs.{feeds_of};
ghost use Rattle.bl_world.specs.Works.{first_open, task_of, task_on};
ghost use Rattle.bl_world.specs.Worlds.{HaveFewFiles};

use crate::Work;
use crate::working::{first_open, next_work};
use bl_files::{Feed, LoadRequest, copy_feeds};
use bl_outside::{List, NoMemory};
use bl_queue::{Job, Jobs};
use std::alloc::Global;

/// What the loader is told of its next work.
#[derive(Debug, Drop)]
pub struct Task {
    pub work: Work,
    /// What was asked for, where there is work.
    pub request: Option<LoadRequest>,
    /// The files of the load that a plan goes on with.
    pub previous: List<Feed>,
    /// The plan is to go on with a load, and there is none.
    pub no_previous: bool,
    /// The file that goes on.
    pub feed: Option<Feed>,
}

fn copied_request(alloc: Global, job: Option<&Job>) -> Result<Option<LoadRequest>, NoMemory>
    ensures { IfOk result (λ copy.
        copy ≡ option_map (λ job. job.request) (option_copied job.entry)) }
{
    match job {
        Some(job) => Ok(Some(job.request.copy(alloc)?)),
        None => Ok(None),
    }
}

fn copied_feeds(alloc: Global, job: Option<&Job>) -> Result<List<Feed>, NoMemory>
    ensures { IfOk result (λ copy. copy ≡ feeds_of (option_copied job.entry)) }
{
    match job {
        Some(job) => copy_feeds(alloc, &job.feeds),
        None => Ok(List::new(alloc)),
    }
}

fn copied_open(alloc: Global, feeds: &[Feed]) -> Result<Option<Feed>, NoMemory>
    ensures { IfOk result (λ copy.
        copy ≡ option_map (λ next. next.feed) (first_open 1 feeds.now)) }
{
    match first_open(feeds) {
        Some((_, feed)) => Ok(Some(feed.copy(alloc)?)),
        None => Ok(None),
    }
}

fn idle_task(alloc: Global) -> Task
    ensures { result ≡ record {
      work = Work.Idle;
      request = None;
      previous = [];
      no_previous = false;
      feed = None;
    } }
{
    Task {
        work: Work::Idle,
        request: None,
        previous: List::new(alloc),
        no_previous: false,
        feed: None,
    }
}

fn plan_task(
    alloc: Global,
    jobs: &Jobs,
    job: u32,
    previous: u32,
    no_previous: bool,
) -> Result<Task, NoMemory>
    ensures { IfOk result (λ task. task
        ≡ task_on jobs.now.jobs (Work.Plan job previous no_previous) (front_job jobs.now.jobs)) }
{
    Ok(Task {
        work: Work::Plan {
            job,
            previous,
            no_previous,
        },
        request: copied_request(alloc, jobs.front_job())?,
        previous: copied_feeds(alloc, jobs.goes_on_from(job))?,
        no_previous,
        feed: None,
    })
}

fn file_task(alloc: Global, jobs: &Jobs, job: u32, feed: u32, from: u64) -> Result<Task, NoMemory>
    ensures { IfOk result (λ task. task
        ≡ task_on jobs.now.jobs (Work.Continue job feed from) (front_job jobs.now.jobs)) }
{
    let work = Work::Continue { job, feed, from };
    match jobs.front_job() {
        Some(it) => Ok(Task {
            work,
            request: Some(it.request.copy(alloc)?),
            previous: List::new(alloc),
            no_previous: false,
            feed: copied_open(alloc, it.feeds.as_slice())?,
        }),
        None => Ok(Task {
            work,
            request: None,
            previous: List::new(alloc),
            no_previous: false,
            feed: None,
        }),
    }
}

/// What the loader is told of its next work.
pub fn next_task(alloc: Global, jobs: &Jobs) -> Result<Task, NoMemory>
    requires { HaveFewFiles jobs.now.jobs }
    ensures { IfOk result (λ task. task ≡ task_of jobs.now.jobs) }
{
    match next_work(jobs) {
        Work::Idle => Ok(idle_task(alloc)),
        Work::Plan {
            job,
            previous,
            no_previous,
        } => plan_task(alloc, jobs, job, previous, no_previous),
        Work::Continue { job, feed, from } => file_task(alloc, jobs, job, feed, from),
    }
}
