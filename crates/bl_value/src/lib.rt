//! The words of the subject: values, columns, rows and changes.
//!
//! A column of a CSV file has a [`ValueType`]; a cell of it is read to a [`Value`] by
//! [`read_cell`], and one that may be an array to values, each once, by [`read_values`].
//! [`EachOnce`] is how repeats are dropped, of values and of texts.
//! A record becomes a [`Row`], and what a row does to the graph is a list of [`Change`]s. Values
//! are ordered by [`compare`], and [`json_value`] is how a value stands in a change record.
//!
//! Words of the contracts: `specs/Order` (the order of values), `specs/Once` (items without
//! repeats), `specs/Cells` (what a cell and an array cell mean), `specs/Dates` and `specs/Json`
//! (the text and the JSON of a value), `specs/Valid`, `specs/ValidColumns` and `specs/ValidRows`
//! (what a valid thing is, and the limits). `specs/ItemsLeft` is for the private ones. This crate
//! stands on `bl_outside`.
#![tactic(auto)]

mod array;
mod cell;
mod change;
mod column;
mod date;
mod date_text;
mod integer;
mod json_text;
mod laws;
mod log_code;
mod once;
mod row;
mod value;
mod value_type;

pub use array::{is_one_item, items, read_item, read_text_values, read_values};
pub use cell::{CellRefusal, is_empty_cell, read_cell, without_spaces};
pub use change::{Change, copy_changes};
pub use column::{Column, ColumnUse, Columns, KEY_LIMIT, Side};
pub use json_text::{json_of, json_value};
pub use laws::date_texts_are_read_back;
pub use log_code::LogCode;
pub use once::{Copied, EachOnce};
pub use row::{DigestRow, ID_LIMIT, Property, Row};
pub use value::{FIRST_DATE, LAST_DATE, TEXT_LIMIT, Value, compare};
pub use value_type::ValueType;
