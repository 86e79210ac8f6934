// Names of statuses and codes, and what a log says.
ghost use Rattle.std.specs.Prelude.{◌≡◌, IfOk};
ghost use Rattle.serde_json.specs.Data.{string};
ghost use Rattle.serde_json.specs.View.{view};
ghost use Rattle.bl_feed.specs.Words.{
  code_text,
  feed_status_text,
  job_status_text,
  message,
  names_column,
  trouble,
};

use bl_files::{FeedStatus, Log};
use bl_outside::NoMemory;
use bl_queue::JobStatus;
use bl_value::LogCode;
use serde_json::Value as Json;
use std::alloc::Global;

pub fn job_status_text(status: JobStatus) -> &'static str
    ensures { result.now ≡ job_status_text status }
{
    match status {
        JobStatus::NotStarted => "LOAD_NOT_STARTED",
        JobStatus::InQueue => "LOAD_IN_QUEUE",
        JobStatus::InProgress => "LOAD_IN_PROGRESS",
        JobStatus::Completed => "LOAD_COMPLETED",
        JobStatus::CancelledByUser => "LOAD_CANCELLED_BY_USER",
        JobStatus::Failed => "LOAD_FAILED",
        JobStatus::DependencyNotSatisfied => "LOAD_FAILED_BECAUSE_DEPENDENCY_NOT_SATISFIED",
    }
}

pub fn feed_status_text(status: FeedStatus) -> &'static str
    ensures { result.now ≡ feed_status_text status }
{
    match status {
        FeedStatus::NotStarted => "LOAD_NOT_STARTED",
        FeedStatus::InProgress => "LOAD_IN_PROGRESS",
        FeedStatus::Completed => "LOAD_COMPLETED",
        FeedStatus::Failed => "LOAD_FAILED",
        FeedStatus::ReadError => "LOAD_S3_READ_ERROR",
        FeedStatus::Modified => "LOAD_DATA_FAILED_DUE_TO_FEED_MODIFIED_OR_DELETED",
        FeedStatus::CancelledDueToErrors => "LOAD_CANCELLED_DUE_TO_ERRORS",
        FeedStatus::CancelledByUser => "LOAD_CANCELLED_BY_USER",
    }
}

pub fn code_text(code: LogCode) -> &'static str
    ensures { result.now ≡ code_text code }
{
    match code {
        LogCode::ColumnCount => "COLUMN_COUNT",
        LogCode::NotUtf8 => "NOT_UTF8",
        LogCode::RecordTooLarge => "RECORD_TOO_LARGE",
        LogCode::MissingId => "MISSING_ID",
        LogCode::IdTooLong => "ID_TOO_LONG",
        LogCode::NotOfType => "NOT_OF_TYPE",
        LogCode::OutOfRange => "OUT_OF_RANGE",
        LogCode::TooManyValues => "TOO_MANY_VALUES",
        LogCode::FromMissing => "FROM_MISSING",
        LogCode::ToMissing => "TO_MISSING",
        LogCode::EdgeConflict => "EDGE_CONFLICT",
        LogCode::SingleConflict => "SINGLE_CONFLICT",
        LogCode::Header => "HEADER",
        LogCode::Compressed => "COMPRESSED",
        LogCode::ReadFault => "READ_FAULT",
        LogCode::FileTooLarge => "FILE_TOO_LARGE",
        LogCode::FeedModified => "FEED_MODIFIED",
        LogCode::SourceNotFound => "SOURCE_NOT_FOUND",
        LogCode::ListFault => "LIST_FAULT",
        LogCode::TooManyFiles => "TOO_MANY_FILES",
        LogCode::NoPreviousLoad => "NO_PREVIOUS_LOAD",
    }
}

// What is wrong, without the column.
fn trouble(code: LogCode) -> &'static str
    ensures { result.now ≡ trouble code }
{
    match code {
        LogCode::ColumnCount => "the record has another number of fields than the header",
        LogCode::NotUtf8 => "the record is not UTF-8",
        LogCode::RecordTooLarge => "the record has more than 1048576 bytes",
        LogCode::MissingId => "an id is missing",
        LogCode::IdTooLong => "an id or label has more than 1024 bytes",
        LogCode::NotOfType => "the value is not of its type",
        LogCode::OutOfRange => "the number is out of range",
        LogCode::TooManyValues => "the record has more than 4096 values",
        LogCode::FromMissing => "the from vertex does not exist",
        LogCode::ToMissing => "the to vertex does not exist",
        LogCode::EdgeConflict => "the edge exists with another label or other ends",
        LogCode::SingleConflict => "a single value exists",
        LogCode::Header => "the header is refused",
        LogCode::Compressed => "compressed files are not read",
        LogCode::ReadFault => "the file could not be read",
        LogCode::FileTooLarge => "the file has more than 268435456 bytes",
        LogCode::FeedModified => "the file was changed or deleted since it was begun",
        LogCode::SourceNotFound => "the source does not exist",
        LogCode::ListFault => "the source could not be listed or planned",
        LogCode::TooManyFiles => "the load has more than 4096 files",
        LogCode::NoPreviousLoad => "there is no previous load of this source",
    }
}

// The code is said of one column.
fn names_column(code: LogCode) -> bool
    ensures { result ≡ names_column code }
{
    matches!(
        code,
        LogCode::MissingId
            | LogCode::IdTooLong
            | LogCode::NotOfType
            | LogCode::OutOfRange
            | LogCode::SingleConflict
            | LogCode::Header
    )
}

/// What a log says.
pub fn message_json(alloc: Global, log: Log) -> Result<Json, NoMemory>
    ensures { IfOk result (λ json. view json ≡ string (message log)) }
{
    let trouble = trouble(log.code);
    if !names_column(log.code) {
        return Ok(Json::try_from_str(alloc, trouble)?);
    }
    let column = log.column;
    Ok(Json::String(format!(in alloc; "{trouble} in column {column}")?))
}
