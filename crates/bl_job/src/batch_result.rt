// What a batch of rows came to.
ghost use Rattle.std.specs.Prelude.{◌≡◌, ◌<◌, ◌^◌, ◌-◌, OnOk};
ghost use Rattle.bl_job.specs.Batches.{nothing_yet, with_refusal};

use bl_files::Log;
use bl_outside::{List, NoMemory};
use bl_value::{Change, LogCode};
use std::alloc::Global;

/// What a batch of rows came to.
#[derive(Debug, Drop)]
pub struct BatchResult {
    /// The rows that were taken, duplicates and logged ones among them.
    pub rows: u32,
    /// The rows that changed nothing.
    pub duplicates: u32,
    /// The refused rows, by their numbers from 1 within the rows of the batch.
    pub logs: List<Log>,
    /// All changes, in order.
    pub changes: List<Change>,
    /// Why the batch stopped. The row of this log is not counted.
    pub stop: Option<Log>,
}

impl BatchResult {
    pub fn nothing_yet(alloc: Global) -> BatchResult
        ensures { result ≡ nothing_yet }
    {
        BatchResult {
            rows: 0,
            duplicates: 0,
            logs: List::new(alloc),
            changes: List::new(alloc),
            stop: None,
        }
    }

    // Logs a refused row, or stops before it.
    pub fn refuse(
        &mut self,
        fail_on_error: bool,
        code: LogCode,
        column: u32,
    ) -> Result<(), NoMemory>
        requires { self.old.rows < 2 ^ 32 - 1 }
        ensures { OnOk result (self.new ≡ with_refusal fail_on_error self.old code column) }
    {
        let log = Log {
            code,
            number: u64::from(self.rows) + 1,
            column,
        };
        if fail_on_error {
            self.stop = Some(log);
            return Ok(());
        }
        self.logs.push(log)?;
        self.rows += 1;
        Ok(())
    }
}
