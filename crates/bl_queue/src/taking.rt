// Where a job stands, and how many logs its files have.
ghost use Rattle.std.specs.Prelude.{◌≡◌, ◌==◌, IfSome, None, position};
ghost use Rattle.bl_queue.specs.Taking.{IsStanding, IsTaking};

use crate::Job;
use crate::running::place_of;

/// The job whose rows were taken last.
#[derive(Clone, Copy, Debug)]
pub struct Taking {
    pub number: u32,
    /// Where it stands in the list.
    pub place: usize,
    /// How many logs of records its files have together.
    pub logs: usize,
}

/// Where a job stands, and how many logs of records its files have, where that is known.
#[derive(Clone, Copy, Debug)]
pub struct Standing {
    pub place: usize,
    pub logs: Option<usize>,
}

/// Where the job of this number stands. Where its rows were taken last, no other job is looked at.
pub fn standing_of(jobs: &[Job], taking: Option<Taking>, number: u32) -> Option<Standing>
    requires { IfSome taking (IsTaking jobs.now) }
    ensures found { IfSome result (IsStanding jobs.now number) }
    ensures none { result ≡ None → position (λ job. job.number == number) jobs.now ≡ None }
{
    if let Some(taking) = taking {
        if taking.number == number {
            return Some(Standing {
                place: taking.place,
                logs: Some(taking.logs),
            });
        }
    }
    match place_of(jobs, number) {
        Some(place) => Some(Standing { place, logs: None }),
        None => None,
    }
}
