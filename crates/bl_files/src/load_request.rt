// What a user asks the loader for.
ghost use Rattle.std.specs.Prelude.{◌≡◌, IfOk};

use crate::Mode;
use bl_outside::{List, NoMemory, Text};
use std::alloc::Global;

/// A load as it was asked for (Neptune User Guide, "Loader command").
#[derive(Debug, Drop)]
pub struct LoadRequest {
    /// `s3://`, a bucket, and a key after `/` where there is one.
    pub source: Text,
    /// 0 for `csv`.
    pub format: u8,
    pub mode: Mode,
    /// Stop at the first record that is refused.
    pub fail_on_error: bool,
    /// A new single value takes the place of the old one.
    pub update_single: bool,
    /// 0 LOW, 1 MEDIUM, 2 HIGH, 3 OVERSUBSCRIBE.
    pub parallelism: u8,
    /// The load may wait behind others.
    pub queue: bool,
    /// The loads that are to be completed before this one.
    pub dependencies: List<u128>,
}

impl LoadRequest {
    /// A copy with memory of its own.
    pub fn copy(&self, alloc: Global) -> Result<LoadRequest, NoMemory>
        ensures { IfOk result (λ copy. copy ≡ self.now) }
    {
        let mut dependencies = List::new(alloc);
        dependencies.extend(self.dependencies.as_slice())?;
        Ok(LoadRequest {
            source: self.source.copy(alloc)?,
            format: self.format,
            mode: self.mode,
            fail_on_error: self.fail_on_error,
            update_single: self.update_single,
            parallelism: self.parallelism,
            queue: self.queue,
            dependencies,
        })
    }
}
