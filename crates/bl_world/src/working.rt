// What is to be done next.
ghost use Rattle.std.specs.Prelude.{◌≡◌, ◌+◌, ◌<◌, ◌≤◌, ◌^◌, IfSome, length, option_map};
ghost use Rattle.std.specs.Option.{option_copied};
ghost use Rattle.bl_files.specs.Carried.{most_files};
ghost use Rattle.bl_queue.specs.Runs.{goes_on_from, number_of};
ghost use Rattle.bl_queue.specs.Statuses.{is_to_start};
ghost use Rattle.bl_world.specs.Works.{file_work, first_open, work_of};
ghost use Rattle.bl_world.specs.Worlds.{HaveFewFiles, lacks_previous};

use crate::Work;
use crate::fitting::lacks_previous;
use bl_files::Feed;
use bl_queue::{Job, JobStatus, Jobs};

/// The place of the first file that hasn't ended, counted from 0, and the file.
pub fn first_open(feeds: &[Feed]) -> Option<(usize, &Feed)>
    ensures open { option_map (λ found. record { place = found.0 + 1; feed = found.1.now }) result
        ≡ first_open 1 feeds.now }
    ensures within { IfSome result (λ found. found.0 < length feeds.now) }
{
    for (i, feed) in feeds.iter().enumerate() {
        if feed.status.is_open() {
            return Some((i, feed));
        }
    }
    None
}

fn file_work(job: &Job) -> Work
    requires { length job.now.feeds ≤ most_files }
    ensures { result ≡ file_work job.now (first_open 1 job.now.feeds) }
{
    match first_open(job.feeds.as_slice()) {
        Some((place, feed)) => Work::Continue {
            job: job.number,
            feed: place as u32 + 1,
            from: feed.taken,
        },
        None => Work::Idle,
    }
}

fn number_of(older: Option<&Job>) -> u32
    ensures { result ≡ number_of (option_copied older.entry) }
{
    match older {
        Some(job) => job.number,
        None => 0,
    }
}

fn plan_work(jobs: &Jobs, job: &Job) -> Work
    ensures { result ≡ Work.Plan job.now.number
        (number_of (goes_on_from jobs.now.jobs job.now.number))
        (lacks_previous jobs.now.jobs job.now) }
{
    Work::Plan {
        job: job.number,
        previous: number_of(jobs.goes_on_from(job.number)),
        no_previous: lacks_previous(jobs, job),
    }
}

fn is_to_start(status: JobStatus) -> bool
    ensures { result ≡ is_to_start status }
{
    matches!(status, JobStatus::NotStarted | JobStatus::InQueue)
}

/// What is to be done next.
pub fn next_work(jobs: &Jobs) -> Work
    requires { HaveFewFiles jobs.now.jobs }
    ensures { result ≡ work_of jobs.now.jobs }
{
    match jobs.front_job() {
        Some(job) => {
            if is_to_start(job.status) {
                plan_work(jobs, job)
            } else {
                file_work(job)
            }
        }
        None => Work::Idle,
    }
}
