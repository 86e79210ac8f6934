// A commit of the change stream, and the job that made it.
use bl_outside::List;
use bl_value::Change;

/// The changes of one batch, of which there is one or more.
#[derive(Debug, Drop)]
pub struct JobCommit {
    pub job: u32,
    /// In milliseconds from 1970 UTC.
    pub moment: u64,
    pub changes: List<Change>,
}
