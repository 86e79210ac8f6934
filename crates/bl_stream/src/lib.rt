//! Pages of the stream of changes (Neptune User Guide, "Neptune Streams API").
//!
//! A [`Stream`] is a range of commits. [`Stream::page`] gives a slice of their events: it asks a
//! [`CommitReader`] for the commits by their numbers, from the first that it needs, and stops as
//! soon as the page is full, so a page costs what it answers.
//!
//! Words of the contracts: `specs/Events` (the events of commits, one flat list), `specs/Slices`
//! (which of them a page has), `specs/Readers` (what a reader answers), `specs/Pages` (what a page
//! is, told or not, and why there is none). `specs/Filling` is for the private ones.
//! This crate stands on `bl_change`, `bl_value` and `bl_outside`.
#![tactic(auto)]

mod commit;
mod commit_fault;
mod commit_reader;
mod filling;
mod memory_commits;
mod page;
mod page_ask;
mod start;
mod stream;

pub use commit::Commit;
pub use commit_fault::CommitFault;
pub use commit_reader::CommitReader;
pub use filling::PAGE_BYTES;
pub use memory_commits::MemoryCommits;
pub use page::{Page, PageRefusal};
pub use page_ask::{Iterator4, MOST_EVENTS, PageAsk};
pub use stream::Stream;
