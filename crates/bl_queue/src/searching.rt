// The job at the front, and the load that one goes on with.
ghost use Rattle.std.specs.Prelude.{◌≡◌, option_map};
ghost use Rattle.std.specs.Option.{option_copied};
ghost use Rattle.bl_queue.specs.Jobs.{front_job, job_of, job_with_id};
ghost use Rattle.bl_queue.specs.Previous.{found_files, may_go_before, previous_job};

use crate::Job;

/// The first job that hasn't ended.
pub fn front_of(jobs: &[Job]) -> Option<&Job>
    ensures { option_copied result ≡ front_job jobs.now }
{
    jobs.iter().find(|job| job.is_unended())
}

/// The job of this number.
pub fn job_of(jobs: &[Job], number: u32) -> Option<&Job>
    ensures { option_copied result ≡ job_of number jobs.now }
{
    jobs.iter().find(|job| job.number == number)
}

/// The job of this id.
pub fn job_with_id(jobs: &[Job], id: u128) -> Option<&Job>
    ensures { option_copied result ≡ job_with_id id jobs.now }
{
    jobs.iter().find(|job| job.id == id)
}

fn found_files(job: &Job) -> bool
    ensures { result ≡ found_files job.now }
{
    job.run > 0 && job.end_log.is_none()
}

fn may_go_before(job: &Job, older: &Job) -> bool
    ensures { result ≡ may_go_before job.now older.now }
{
    older.number < job.number
        && older.request.source == job.request.source
        && older.request.format == job.request.format
        && found_files(older)
}

/// The newest job that this one may go on with.
pub fn previous_of<'a>(jobs: &'a [Job], job: &Job) -> Option<&'a Job>
    ensures { option_copied result ≡ previous_job jobs.now job.now }
{
    jobs.iter().rev().find(|older| may_go_before(job, older))
}
