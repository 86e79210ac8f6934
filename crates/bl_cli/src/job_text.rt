// The texts of a job: its id and its status.
ghost use Rattle.std.specs.Prelude.{◌≡◌, IfOk};
ghost use Rattle.bl_cli.specs.JobTexts.{id_text, status_text};

use bl_outside::{NoMemory, Text};
use bl_queue::JobStatus;
use std::alloc::Global;
use uuid::Uuid;

/// The name of a status (Neptune User Guide, "Loader Get-Status responses").
pub fn status_text(status: JobStatus) -> &'static str
    ensures { result.now ≡ status_text status }
{
    match status {
        JobStatus::NotStarted => "LOAD_NOT_STARTED",
        JobStatus::InQueue => "LOAD_IN_QUEUE",
        JobStatus::InProgress => "LOAD_IN_PROGRESS",
        JobStatus::Completed => "LOAD_COMPLETED",
        JobStatus::CancelledByUser => "LOAD_CANCELLED_BY_USER",
        JobStatus::Failed => "LOAD_FAILED",
        JobStatus::DependencyNotSatisfied => "LOAD_FAILED_BECAUSE_DEPENDENCY_NOT_SATISFIED",
    }
}

/// An id of a load as a text of 36 characters, in lower case.
pub fn id_text(alloc: Global, id: u128) -> Result<Text, NoMemory>
    ensures { IfOk result (λ text. text ≡ id_text id) }
{
    let mut buffer = Uuid::encode_buffer();
    let text = Uuid::from_u128(id).hyphenated().encode_lower(&mut buffer);
    Ok(Text::copy_of(alloc, text.as_bytes())?)
}
