// One commit.
ghost use Rattle.std.specs.Prelude.{◌≡◌, IfOk};

use bl_outside::{List, NoMemory};
use bl_value::{Change, copy_changes};
use std::alloc::Global;

/// The changes that one batch of rows made.
#[derive(Debug, Drop)]
pub struct Commit {
    /// When it was made, in milliseconds from 1970 UTC.
    pub moment: u64,
    pub changes: List<Change>,
}

impl Commit {
    /// A copy with memory of its own.
    pub fn copy(&self, alloc: Global) -> Result<Commit, NoMemory>
        ensures { IfOk result (λ copy. copy ≡ self.now) }
    {
        Ok(Commit {
            moment: self.moment,
            changes: copy_changes(alloc, &self.changes)?,
        })
    }
}
