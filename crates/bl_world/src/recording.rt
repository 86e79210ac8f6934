// A plan, as it is recorded.
ghost use Rattle.std.specs.Prelude.{◌≡◌, IfOk};
ghost use Rattle.std.specs.Option.{option_copied};
ghost use Rattle.bl_entry.specs.Valid.{IsPlan};
ghost use Rattle.bl_files.specs.Carried.{AreFeeds, CarriedNumber, DifferentNames, found_names};
ghost use Rattle.bl_files.specs.Plans.{HasNames};
ghost use Rattle.bl_queue.specs.Jobs.{AreJobs};
ghost use Rattle.bl_queue.specs.Runs.{feeds_of};
ghost use Rattle.bl_world.specs.Makings.{IsRecordedAs};

use bl_files::{Found, MOST_FILES, PlanResult, carried_number};
use bl_outside::{List, NoMemory};
use bl_queue::{Job, Jobs};
use std::alloc::Global;

// How many files would go on.
fn number_after(alloc: Global, older: Option<&Job>, found: &List<Found>) -> Result<u64, NoMemory>
    requires previous { AreFeeds (feeds_of (option_copied older)) }
    requires found { DifferentNames (found_names found.now) }
    ensures { IfOk result (λ number.
        CarriedNumber (feeds_of (option_copied older.entry)) found.now number) }
{
    match older {
        Some(job) => carried_number(alloc, &job.feeds, found),
        None => carried_number(alloc, &List::new(alloc), found),
    }
}

/// Of too many files only their number is recorded.
pub fn recorded(
    alloc: Global,
    jobs: &Jobs,
    job: u32,
    plan: PlanResult,
) -> Result<PlanResult, NoMemory>
    requires { HasNames plan }
    ensures recorded { IfOk result (IsRecordedAs jobs.now.jobs job plan) }
    ensures valid { IfOk result (λ recorded. IsPlan plan → IsPlan recorded) }
{
    // The list is looked at for its clause that the jobs are as they always are.
    let _kept = jobs.kept();
    match plan {
        PlanResult::Feeds(found) => {
            let number = number_after(alloc, jobs.goes_on_from(job), &found)?;
            if number > MOST_FILES {
                Ok(PlanResult::TooManyFiles(number))
            } else {
                Ok(PlanResult::Feeds(found))
            }
        }
        PlanResult::NoPrevious => Ok(PlanResult::NoPrevious),
        PlanResult::SourceNotFound => Ok(PlanResult::SourceNotFound),
        PlanResult::ListFault => Ok(PlanResult::ListFault),
        PlanResult::TooManyFiles(number) => Ok(PlanResult::TooManyFiles(number)),
    }
}
