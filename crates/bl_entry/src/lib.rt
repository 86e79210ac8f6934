//! Entries of the journal as bytes.
//!
//! An [`Entry`] is what the journal keeps of one event of the core. [`encode`] gives its bytes, and
//! [`decode`] the entry that has all of these bytes, or says that none has: there is one encoding
//! of each valid entry, and none begins another.
//!
//! Words of the contracts: `specs/Encoding` (the bytes of each part), `specs/Valid` (the ranges of
//! the parts), `specs/Decoded` (what decoding gives); `specs/Reading` is the same read from the
//! left. A part that stands in lists is a [`Part`](part::Part), and a new one has its printer, its
//! ranges and its reader there. This crate stands on `bl_files`, `bl_value` and `bl_outside`.
#![tactic(auto)]

mod buffer;
mod code_number;
mod decoding;
mod encoding;
mod entry;
mod items;
mod laws;
mod part;
mod read_changes;
mod read_files;
mod read_parts;
mod refusal;
mod write_parts;

use code_number::{ALL_CODES, code_number};
pub use decoding::decode;
pub use encoding::encode;
pub use entry::{Entry, MOST_ROWS};
pub use laws::no_encoding_begins_another;
pub use refusal::EntryRefusal;
