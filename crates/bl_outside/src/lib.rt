//! The outside world, as the rest of the program sees it.
//!
//! Bytes come in through a [`Source`] or a [`Folder`], go out through a [`Sink`], are kept on a
//! [`Disk`], and the time comes from a [`Clock`]. Each of these traits but the clock has a count of
//! faults that never falls, and `Failed` is answered only where it rose in the call. Each may tell
//! its content, and what a call does to content that is told is exact. A disk also says what a
//! crash may leave of it, at every moment.
//!
//! A [`Listener`] hands out a [`Link`] for each connection, which is a source and a sink at once.
//!
//! The versions in memory tell all that they hold, and fail at the calls that they were told to.
//! The small types that every crate uses stand here too: [`Text`], [`List`], [`Digest`],
//! [`NoMemory`], and [`Steps`], a count of what was done.
//!
//! Words of the contracts: `specs/Counts`, `specs/Streams`, `specs/Folders`, `specs/Disks`,
//! `specs/Listeners`.
//! This crate stands on nothing but std.
#![tactic(auto)]

mod digest;
mod disk;
mod disks;
mod durable_write;
mod faults;
mod fixed_clock;
mod folder;
mod journal_fault;
mod link;
mod list;
mod listener;
mod listing;
mod memory_disk;
mod memory_folder;
mod memory_link;
mod memory_listener;
mod memory_sink;
mod memory_source;
mod refusals;
mod steps;
mod stops;
mod streams;
mod text;
mod text_order;
mod utf8;

pub use digest::Digest;
pub use disk::Disk;
pub use disks::Disks;
pub use durable_write::write_through;
pub use faults::{Faults, counted};
pub use fixed_clock::FixedClock;
pub use folder::Folder;
pub use journal_fault::JournalFault;
pub use link::Link;
pub use list::List;
pub use listener::Listener;
pub use listing::{Listing, Piece};
pub use memory_disk::{DiskCall, MemoryDisk};
pub use memory_folder::MemoryFolder;
pub use memory_link::MemoryLink;
pub use memory_listener::{MemoryListener, PreparedLink};
pub use memory_sink::MemorySink;
pub use memory_source::MemorySource;
pub use refusals::{Failed, NoMemory, Outside};
pub use steps::Steps;
pub use stops::Fill;
pub use streams::{Clock, Sink, Source};
pub use text::Text;
pub use utf8::is_utf8;
