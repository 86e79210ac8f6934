// The numbers of codes.
ghost use Rattle.std.specs.Prelude.{◌≡◌};
ghost use Rattle.bl_entry.specs.Encoding.{code_number};

use bl_value::LogCode;

/// Each code, in the order of the numbers.
pub const ALL_CODES: [LogCode; 21] = [
    LogCode::ColumnCount,
    LogCode::NotUtf8,
    LogCode::RecordTooLarge,
    LogCode::MissingId,
    LogCode::IdTooLong,
    LogCode::NotOfType,
    LogCode::OutOfRange,
    LogCode::TooManyValues,
    LogCode::FromMissing,
    LogCode::ToMissing,
    LogCode::EdgeConflict,
    LogCode::SingleConflict,
    LogCode::Header,
    LogCode::Compressed,
    LogCode::ReadFault,
    LogCode::FileTooLarge,
    LogCode::FeedModified,
    LogCode::SourceNotFound,
    LogCode::ListFault,
    LogCode::TooManyFiles,
    LogCode::NoPreviousLoad,
];

/// The number by which a code is kept.
pub fn code_number(code: LogCode) -> u8
    ensures { result ≡ code_number code }
{
    match code {
        LogCode::ColumnCount => 1,
        LogCode::NotUtf8 => 2,
        LogCode::RecordTooLarge => 3,
        LogCode::MissingId => 4,
        LogCode::IdTooLong => 5,
        LogCode::NotOfType => 6,
        LogCode::OutOfRange => 7,
        LogCode::TooManyValues => 8,
        LogCode::FromMissing => 9,
        LogCode::ToMissing => 10,
        LogCode::EdgeConflict => 11,
        LogCode::SingleConflict => 12,
        LogCode::Header => 20,
        LogCode::Compressed => 21,
        LogCode::ReadFault => 22,
        LogCode::FileTooLarge => 23,
        LogCode::FeedModified => 24,
        LogCode::SourceNotFound => 30,
        LogCode::ListFault => 31,
        LogCode::TooManyFiles => 32,
        LogCode::NoPreviousLoad => 33,
    }
}
