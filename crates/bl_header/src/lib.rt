//! The header of a file: the first record, which says what each column is for.
//!
//! [`read_header`] gives the [`Columns`](bl_value::Columns) that the fields say, or the one
//! [`HeaderRefusal`] that comes before all others: that of the leftmost column that has a fault.
//!
//! Words of the contracts: `specs/Fields` (what a field says), `specs/TypeTexts` (what a type text
//! says), `specs/Faults` (the faults of a column, and which comes first), `specs/FirstFaults` (the
//! same for one column), `specs/Headers` (what a header means). What valid columns are is said in
//! `bl_value`.
//! This crate stands on `bl_value` and `bl_outside`.
#![tactic(auto)]

mod column;
mod field;
mod header;
mod laws;
mod refusal;
mod type_text;

pub use header::{COLUMN_LIMIT, read_header};
pub use laws::{names_are_read_back, type_texts_are_read_as_spelled};
pub use refusal::HeaderRefusal;
