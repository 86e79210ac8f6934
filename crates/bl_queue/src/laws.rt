// Laws of the definitions. The functions do nothing: their contracts are the laws.
ghost use Rattle.std.specs.Prelude.{◌≡◌, ℕ, List};
ghost use Rattle.bl_files.specs.ErrorFeed.{kept_row_logs, row_logs};
ghost use Rattle.bl_files.specs.declared.feed.Feed.{Feed};
ghost use Rattle.bl_queue.specs.Changes.{IsChanged, with_job};
ghost use Rattle.bl_queue.specs.Doomed.{IsSettled};
ghost use Rattle.bl_queue.specs.Jobs.{AreJobs, Kept};
ghost use Rattle.bl_queue.specs.Rows.{last_logs};
ghost use Rattle.bl_queue.specs.declared.job.Job.{Job};

/// There is one list that settles another.
pub fn settled_jobs_are_one_list()
    ensures { (moment : ℕ) (before a b : List Job) → IsSettled moment before a
        → IsSettled moment before b → a ≡ b }
{}

/// Jobs that are as they always are have settled.
pub fn settled_jobs_stay()
    ensures { (moment : ℕ) (kept : Kept) (after : List Job) → AreJobs kept
        → IsSettled moment kept.jobs after → after ≡ kept.jobs }
{}

/// They are the list that settles them, so what changes one job and leaves them so is a change.
pub fn settled_jobs_settle()
    ensures settle { (moment : ℕ) (kept : Kept) → AreJobs kept
        → IsSettled moment kept.jobs kept.jobs }
    ensures change { (moment number : ℕ) (change : Job → Job) (old new : Kept) → AreJobs new
        → new ≡ record old { jobs = with_job number change old.jobs }
        → IsChanged moment number change old new }
{}

/// The logs that stay are the last of all, in the order of the files.
pub fn the_last_logs_stay()
    ensures { (feeds : List Feed) → row_logs (last_logs feeds) ≡ kept_row_logs feeds }
{}
