// What is prepared for a turn.
use bl_files::{FeedEnd, PlanResult};
use bl_outside::List;
use bl_value::DigestRow;

/// What is prepared for a turn.
#[derive(Debug, Drop)]
pub enum Prepared {
    /// There is nothing to do.
    Nothing,
    /// What a job is to read.
    Plan(PlanResult),
    /// The next rows of the file that goes on, one or more.
    Rows(List<DigestRow>),
    /// How it ends.
    End(FeedEnd),
}
