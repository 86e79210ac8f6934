// Whether a load is taken on.
ghost use Rattle.std.specs.Prelude.{◌≡◌, ◌≤◌, ◌^◌, ◌<◌, length, position, not};
ghost use Rattle.bl_queue.specs.Limits.{most_dependencies};
ghost use Rattle.bl_queue.specs.Checks.{busy, full, has_id, too_many, unknown, used_up};

use crate::searching::front_of;
use crate::{CheckRefusal, Job};
use bl_files::LoadRequest;

/// The most loads that one may depend on.
pub const MOST_DEPENDENCIES: usize = 64;

/// The most loads that may wait.
pub const MOST_QUEUED: usize = 64;

pub fn too_many(request: &LoadRequest) -> Option<CheckRefusal>
    ensures { result ≡ too_many request.now }
{
    if request.dependencies.len() > MOST_DEPENDENCIES {
        Some(CheckRefusal::TooManyDependencies)
    } else {
        None
    }
}

fn has_id(jobs: &[Job], id: u128) -> bool
    ensures { result ≡ has_id jobs.now id }
{
    jobs.iter().any(|job| job.id == id)
}

fn first_unknown(jobs: &[Job], dependencies: &[u128]) -> Option<usize>
    ensures { result ≡ position (λ id. not (has_id jobs.now id)) dependencies.now }
{
    dependencies.iter().position(|id| !has_id(jobs, *id))
}

pub fn unknown(jobs: &[Job], request: &LoadRequest) -> Option<CheckRefusal>
    requires { length request.now.dependencies ≤ most_dependencies }
    ensures { result ≡ unknown jobs.now request.now }
{
    match first_unknown(jobs, request.dependencies.as_slice()) {
        Some(place) => Some(CheckRefusal::UnknownDependency(place as u32 + 1)),
        None => None,
    }
}

pub fn busy(jobs: &[Job], request: &LoadRequest) -> Option<CheckRefusal>
    ensures { result ≡ busy jobs.now request.now }
{
    if request.queue {
        None
    } else {
        match front_of(jobs) {
            Some(job) => Some(CheckRefusal::Busy(job.id)),
            None => None,
        }
    }
}

pub fn full(jobs: &[Job]) -> Option<CheckRefusal>
    ensures { result ≡ full jobs.now }
{
    let waiting = jobs.iter().filter(|job| job.status.is_in_queue()).count();
    if waiting == MOST_QUEUED {
        Some(CheckRefusal::QueueFull)
    } else {
        None
    }
}

pub fn used_up(last: u32) -> Option<CheckRefusal>
    ensures { result ≡ used_up last }
{
    if last == u32::MAX {
        Some(CheckRefusal::NumbersUsedUp)
    } else {
        None
    }
}
