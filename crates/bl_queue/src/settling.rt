// The list after a job has ended or was taken on.
ghost use Rattle.std.specs.Prelude.{◌≡◌, ◌<◌, length, position, slice_index_or, slice_set, take};
ghost use Rattle.std.specs.List.{AllZip, list_any};
ghost use Rattle.bl_queue.specs.Changes.{IsTrimmed, trimmed};
ghost use Rattle.bl_queue.specs.Doomed.{IsFate, IsSettled, called_up, unsatisfied, with_front};
ghost use Rattle.bl_queue.specs.Pass.{AreOrdered, after_pass, failed_id, is_blocked};
ghost use Rattle.bl_queue.specs.declared.job.Job.{Job as JobValue};
ghost use Rattle.bl_queue.specs.Jobs.{is_unended};
ghost use Rattle.bl_queue.specs.Statuses.{has_ended};

use crate::jobs::MOST_KEPT;
use crate::{Job, JobStatus};
use bl_outside::List;

fn failed_id(jobs: &[Job], id: u128) -> bool
    ensures { result ≡ failed_id jobs.now id }
{
    jobs.iter()
        .any(|job| job.id == id && job.status.has_failed())
}

fn has_failed_id(earlier: &[Job], ids: &[u128]) -> bool
    ensures { result ≡ list_any (λ id. failed_id earlier.now id) ids.now }
{
    ids.iter().any(|id| failed_id(earlier, *id))
}

// A job that this one depends on has ended otherwise than completed.
fn is_blocked(earlier: &[Job], job: &Job) -> bool
    ensures { result ≡ is_blocked earlier.now job.now }
{
    !job.status.has_ended() && has_failed_id(earlier, job.request.dependencies.as_slice())
}

// The job at a place is blocked by an earlier one.
fn is_blocked_at(jobs: &[Job], place: usize) -> bool
    requires { place < length jobs.now }
    ensures { (d : JobValue)
        → result ≡ is_blocked (take place jobs.now) (slice_index_or jobs.now place d) }
{
    is_blocked(&jobs[..place], &jobs[place])
}

fn end_unsatisfied(job: &mut Job, moment: u64)
    ensures { job.new ≡ unsatisfied moment job.old }
{
    job.status = JobStatus::DependencyNotSatisfied;
    job.latest = moment;
}

// Ends the job at a place where an earlier one blocks it.
fn pass(jobs: &mut [Job], place: usize, moment: u64)
    requires { place < length jobs.old }
    ensures { (d : JobValue)
        → jobs.new ≡ slice_set jobs.old place
        (after_pass moment (take place jobs.old) (slice_index_or jobs.old place d)) }
{
    if is_blocked_at(jobs, place) {
        end_unsatisfied(&mut jobs[place], moment);
    }
}

// Ends the jobs that are doomed. Jobs depend on earlier ones, so one pass from front to back ends
// them all.
fn end_doomed(jobs: &mut [Job], moment: u64)
    requires { AreOrdered jobs.old }
    ensures { AllZip (IsFate moment jobs.old) jobs.old jobs.new }
{
    for place in 0..jobs.len() {
        pass(jobs, place, moment);
    }
}

fn call_up(job: &mut Job)
    ensures { job.new ≡ called_up job.old }
{
    if job.status.is_in_queue() {
        job.status = JobStatus::NotStarted;
    }
}

fn front_place(jobs: &[Job]) -> Option<usize>
    ensures { result ≡ position is_unended jobs.now }
{
    jobs.iter().position(|job| job.is_unended())
}

// The first unended job waits no longer.
fn call_up_front(jobs: &mut [Job])
    ensures { jobs.new ≡ with_front jobs.old }
{
    if let Some(place) = front_place(jobs) {
        call_up(&mut jobs[place]);
    }
}

/// Ends the jobs that are doomed, and calls up the first that is left.
pub fn settle(jobs: &mut [Job], moment: u64)
    requires { AreOrdered jobs.old }
    ensures { IsSettled moment jobs.old jobs.new }
{
    end_doomed(jobs, moment);
    call_up_front(jobs);
}

fn oldest_ended(jobs: &[Job]) -> Option<usize>
    ensures { result ≡ position (λ job. has_ended job.status) jobs.now }
{
    jobs.iter().position(|job| job.status.has_ended())
}

// Of more than 1,024 jobs the oldest that has ended goes.
fn drop_oldest(jobs: &mut Vec<Job>)
    ensures { jobs.new.items ≡ trimmed jobs.old.items }
{
    if jobs.len() > MOST_KEPT {
        if let Some(place) = oldest_ended(jobs) {
            jobs.remove(place);
        }
    }
}

/// The list with all jobs settled, and trimmed.
pub fn with_settled(jobs: List<Job>, moment: u64) -> List<Job>
    requires { AreOrdered jobs }
    ensures { IsTrimmed moment jobs result }
{
    let mut jobs = jobs.into_vec();
    settle(&mut jobs, moment);
    drop_oldest(&mut jobs);
    List::from_vec(jobs)
}
