// The ids of the jobs.
ghost use Rattle.std.specs.Prelude.{
  ◌≡◌,
  ◌++◌,
  [],
  ◌∷◌,
  if◌then◌else◌,
  not,
  filter,
  map,
  reverse,
  IfOk,
  OnOk,
};
ghost use Rattle.bl_queue.specs.Jobs.{waits};
ghost use Rattle.bl_world.specs.Works.{listed};

use bl_outside::{List, NoMemory};
use bl_queue::Job;
use std::alloc::{AllocError, Global};

fn push_waiting(ids: &mut Vec<u128>, job: &Job) -> Result<(), AllocError>
    ensures { OnOk result (ids.new.items
        ≡ ids.old.items ++ (if waits job.now then job.now.id ∷ [] else [])) }
{
    if job.status.is_in_queue() {
        ids.push(job.id)?;
    }
    Ok(())
}

fn push_other(ids: &mut Vec<u128>, job: &Job) -> Result<(), AllocError>
    ensures { OnOk result (ids.new.items
        ≡ ids.old.items ++ (if not (waits job.now) then job.now.id ∷ [] else [])) }
{
    if !job.status.is_in_queue() {
        ids.push(job.id)?;
    }
    Ok(())
}

// The ids of the jobs that wait, the oldest first.
fn waiting_ids(alloc: Global, jobs: &[Job]) -> Result<Vec<u128>, AllocError>
    ensures { IfOk result (λ all. all.items ≡ map (λ job. job.id) (filter waits jobs.now)) }
{
    let mut ids = Vec::new(alloc);
    for job in jobs {
        push_waiting(&mut ids, job)?;
    }
    Ok(ids)
}

// Those of the others.
fn other_ids(alloc: Global, jobs: &[Job]) -> Result<Vec<u128>, AllocError>
    ensures { IfOk result (λ all.
        all.items ≡ map (λ job. job.id) (filter (λ job. not (waits job)) jobs.now)) }
{
    let mut ids = Vec::new(alloc);
    for job in jobs {
        push_other(&mut ids, job)?;
    }
    Ok(ids)
}

fn newest_first(mut ids: Vec<u128>) -> List<u128>
    ensures { result ≡ reverse ids.items }
{
    ids.reverse();
    List::from_vec(ids)
}

/// The ids of the jobs that wait, where they are asked for, and then of the others, each the newest
/// first, so many at most.
pub fn listed(alloc: Global, jobs: &[Job], limit: u32, queued: bool) -> Result<List<u128>, NoMemory>
    ensures { IfOk result (λ all. all ≡ listed limit queued jobs.now) }
{
    let others = newest_first(other_ids(alloc, jobs)?);
    let mut all = if queued {
        newest_first(waiting_ids(alloc, jobs)?)
    } else {
        List::new(alloc)
    };
    all.append(others)?;
    all.truncate(limit as usize);
    Ok(all)
}
