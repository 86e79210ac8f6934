// What is told of a record, a file or a job that was refused.
ghost use Rattle.std.specs.Prelude.{◌≡◌, IfOk};

use bl_outside::{List, NoMemory};
use bl_value::LogCode;
use std::alloc::Global;

/// The most logs of records that a job keeps.
pub const MOST_LOGS: usize = 10000;

/// Why a record was refused, or how a file or a job ended.
#[derive(Clone, Copy, Debug, PartialEq, Eq)]
pub struct Log {
    pub code: LogCode,
    /// The record, counted from 1 after the header; 0 where the log is not about one record.
    pub number: u64,
    /// The column, counted from 1; 0 where the code has none.
    pub column: u32,
}

/// A copy of a list of logs.
pub fn copy_logs(alloc: Global, logs: &List<Log>) -> Result<List<Log>, NoMemory>
    ensures { IfOk result (λ copy. copy ≡ logs.now) }
{
    let mut copy = List::new(alloc);
    copy.extend(logs.as_slice())?;
    Ok(copy)
}
