//! The engine: the one owner of a store, and the world of all its entries.
//!
//! An [`Engine`] stands over three disks, the journal and two slots for snapshots. Each call that
//! changes something appends one entry to the journal, and a crash at any moment leaves the entries
//! from before, or those and this one. Once the call has answered `Ok` every later crash leaves it
//! too. After a failed append it isn't known whether the entry is there: the engine is closed, and
//! its next call opens it again, which settles that.
//!
//! Words of the contracts: `specs/Engines` (what an engine is, and the state of its store),
//! `specs/Images` (the entries of a journal's image), `specs/Openings` (what an opening finds),
//! `specs/Calls` (what a call does to the state), `specs/Attempts` (the whole promise of a call that
//! appends), `specs/Findings` (what a call finds in the world, and so when it is refused),
//! `specs/Streams` (the change stream of a world), `specs/Outcomes`, `specs/Troubles`. Worlds and
//! their entries are those of `bl_world`.
//! This crate stands on `bl_world`, `bl_stream`, `bl_journal` and the crates below them.
#![tactic(auto)]

mod appending;
mod engine;
mod laws;
mod loads;
mod opening;
mod pages;
mod refusals;
mod replaying;
mod turned;
mod turns;
mod views;

pub use engine::Engine;
pub use laws::{files_are_judged_in_one_way, left_files_are_never_bad};
pub use refusals::{CancelRefusal, SubmitRefusal, Trouble, TurnRefusal, ViewRefusal};
pub use turned::Turned;
