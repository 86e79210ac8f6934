//! A journal: a file of entries, of which a crash leaves each whole or not at all.
//!
//! A [`Journal`] stands over any `Disk`. Its one contract: an append that is cut short at any
//! moment leaves a file with the entries from before, or with those and the new one, and once it
//! has answered `Ok` every later crash leaves the new one too. A beginning settles an entry of
//! unknown fate, since it syncs before it reads. No checksum is trusted: a gate byte in front of
//! each frame is closed on the disk before anything is written behind it, and is opened by a write
//! of its own.
//!
//! Words of the contracts: `specs/Frames` says what the bytes of a file mean, `specs/Journals` what
//! a journal over its disk has read and what a crash may leave.
//! This crate stands on `bl_outside`.
#![tactic(auto)]

mod frame;
mod head;
mod journal;
mod refusal;

pub use frame::{JOURNAL_LIMIT, LONGEST_BODY};
pub use journal::Journal;
pub use refusal::AppendRefusal;
