// How far a job is.
ghost use Rattle.std.specs.Prelude.{◌≡◌, not};
ghost use Rattle.bl_queue.specs.Statuses.{has_ended, has_failed, is_in_queue};

/// The status of a job (Neptune User Guide, "Loader Get-Status responses").
#[derive(Clone, Copy, Debug, PartialEq, Eq)]
pub enum JobStatus {
    /// It is the first that hasn't ended, and is to be started.
    NotStarted,
    /// It waits behind another.
    InQueue,
    InProgress,
    Completed,
    CancelledByUser,
    Failed,
    /// A job that it depends on ended otherwise than completed.
    DependencyNotSatisfied,
}

impl JobStatus {
    /// A job of this status has ended.
    pub fn has_ended(self) -> bool
        ensures { result ≡ has_ended self }
    {
        !matches!(
            self,
            JobStatus::NotStarted | JobStatus::InQueue | JobStatus::InProgress
        )
    }

    /// It hasn't.
    pub fn is_unended(self) -> bool
        ensures { result ≡ not (has_ended self) }
    {
        !self.has_ended()
    }

    /// It has ended otherwise than completed.
    pub fn has_failed(self) -> bool
        ensures { result ≡ has_failed self }
    {
        matches!(
            self,
            JobStatus::CancelledByUser | JobStatus::Failed | JobStatus::DependencyNotSatisfied
        )
    }

    /// It waits behind another.
    pub fn is_in_queue(self) -> bool
        ensures { result ≡ is_in_queue self }
    {
        matches!(self, JobStatus::InQueue)
    }
}
