//! The world: what the core knows after a list of entries.
//!
//! A [`World`] is what the entries of a journal lead to: the kept jobs, the graph and the commits
//! of the change stream. [`World::follow`] tests whether an entry may follow, and takes it.
//! [`World::submit_entry`], [`World::cancel_entry`], [`World::plan_entry`], [`World::rows_entry`]
//! and [`World::end_entry`] make the entry of a call, which [`World::take`] takes once it is kept.
//! [`World::next_work`], [`World::task`] and [`World::list`] are what is told of the jobs.
//!
//! Words of the contracts: `specs/Worlds` (which entries may follow, and the world after them),
//! `specs/Makings` (the entry that a call makes), `specs/Works` (the next work, and the ids),
//! `specs/LoadIds`, `specs/States` (a list of entries of which the last may be pending);
//! `specs/Following` has the parts of these that single functions speak of.
//! This crate stands on `bl_job`, `bl_graph`, `bl_entry`, `bl_queue`, `bl_files`, `bl_value` and
//! `bl_outside`.
#![tactic(auto)]

mod applying;
mod commits;
mod fitting;
mod following;
mod job_commit;
mod laws;
mod listing;
mod load_ids;
mod making;
mod recording;
mod rows_refusal;
mod taking_rows;
mod task;
mod work;
mod working;
mod world;

pub use following::FollowRefusal;
pub use job_commit::JobCommit;
pub use laws::{
    ended_jobs_stay, entries_lead_to_one_world, jobs_end_for_one_cause, streams_give_graphs,
    worlds_have_jobs,
};
pub use load_ids::{load_id, load_id_text, load_number};
pub use rows_refusal::{MOST_CHANGES, RowsRefusal};
pub use task::Task;
pub use work::Work;
pub use world::World;
