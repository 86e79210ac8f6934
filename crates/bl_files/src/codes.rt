// What a code of a log counts as.
ghost use Rattle.std.specs.Prelude.{◌≡◌};
ghost use Rattle.bl_files.specs.Codes.{class_of, is_file_code, is_row_code};

use crate::ErrorClass;
use bl_value::LogCode;

/// The counter of a code, where it has one.
pub fn class_of(code: LogCode) -> Option<ErrorClass>
    ensures { result ≡ class_of code }
{
    match code {
        LogCode::ColumnCount
        | LogCode::NotUtf8
        | LogCode::RecordTooLarge
        | LogCode::MissingId
        | LogCode::IdTooLong
        | LogCode::TooManyValues
        | LogCode::Header => Some(ErrorClass::Parsing),
        LogCode::NotOfType | LogCode::OutOfRange => Some(ErrorClass::Datatype),
        LogCode::FromMissing
        | LogCode::ToMissing
        | LogCode::EdgeConflict
        | LogCode::SingleConflict => Some(ErrorClass::Insert),
        _ => None,
    }
}

/// The code is said of one record, and not of a file or a job.
pub fn is_row_code(code: LogCode) -> bool
    ensures { result ≡ is_row_code code }
{
    !matches!(
        code,
        LogCode::Header
            | LogCode::Compressed
            | LogCode::ReadFault
            | LogCode::FileTooLarge
            | LogCode::FeedModified
            | LogCode::SourceNotFound
            | LogCode::ListFault
            | LogCode::TooManyFiles
            | LogCode::NoPreviousLoad
    )
}

/// A file isn't read at all for this code.
pub fn is_file_code(code: LogCode) -> bool
    ensures { result ≡ is_file_code code }
{
    matches!(
        code,
        LogCode::Header | LogCode::Compressed | LogCode::FileTooLarge
    )
}
