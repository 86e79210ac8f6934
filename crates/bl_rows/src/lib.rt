//! Files, their records, and what the records say.
//!
//! A file is read whole from a folder, in whatever pieces it comes. Its records are those of RFC
//! 4180 (CSV): the first is the header, and the others are given one after another, with a digest
//! of all that were taken. A record is converted to a row under the columns of its file, or to a
//! bad row with the code and the column of its least fault.
//!
//! Words of the contracts: `specs/File`, `specs/Contents`, `specs/Digests`, `specs/RowReaders`,
//! `specs/Rows` (what a record says). What valid columns and rows are is said in `bl_value`.
//! `specs/RecordReaders` and `specs/SystemCells` are for the private ones.
//! This crate stands on `bl_value`, `bl_outside` and the crates `csv` and `sha2`; its tests on
//! `bl_header` too.
#![tactic(auto)]

mod conversion;
mod file;
mod labels;
mod laws;
mod properties;
mod record_digest;
mod records;
mod refused;
mod row_reader;
mod system_cells;
mod whole_record;

pub use conversion::{convert, row_of};
pub use file::{FILE_LIMIT, FileBytes, FileRefusal, read_file};
pub use laws::a_record_has_one_row;
pub use record_digest::digest_of_none;
pub use refused::Refused;
pub use row_reader::{RowReader, start};
