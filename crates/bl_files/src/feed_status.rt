// How far a file of a job is.
ghost use Rattle.std.specs.Prelude.{◌≡◌};
ghost use Rattle.bl_files.specs.Statuses.{has_ended, is_completed, is_failed, is_open};

/// The status of a file of a job (Neptune User Guide, "Loader Get-Status responses").
#[derive(Clone, Copy, Debug, PartialEq, Eq)]
pub enum FeedStatus {
    /// None of its records were taken in this job.
    NotStarted,
    /// From its first batch until it ends.
    InProgress,
    /// All its records were taken.
    Completed,
    /// A record or the file itself was refused.
    Failed,
    /// The file could not be read.
    ReadError,
    /// The file was changed or deleted since it was begun.
    Modified,
    /// Another file stopped the job.
    CancelledDueToErrors,
    /// The job was cancelled.
    CancelledByUser,
}

impl FeedStatus {
    /// A file of this status hasn't ended.
    pub fn is_open(self) -> bool
        ensures { result ≡ is_open self }
    {
        matches!(self, FeedStatus::NotStarted | FeedStatus::InProgress)
    }

    /// It has.
    pub fn has_ended(self) -> bool
        ensures { result ≡ has_ended self }
    {
        !self.is_open()
    }

    /// All its records were taken.
    pub fn is_completed(self) -> bool
        ensures { result ≡ is_completed self }
    {
        matches!(self, FeedStatus::Completed)
    }

    /// A record or the file itself was refused.
    pub fn is_failed(self) -> bool
        ensures { result ≡ is_failed self }
    {
        matches!(self, FeedStatus::Failed)
    }
}
