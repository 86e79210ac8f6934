//! What a load over unchanged files comes to, however it was cut.
//!
//! A load is one fold over the rows of its files, in order. It may be taken in batches, be stopped
//! between any two entries, be cancelled, and be gone on with by later loads: over unchanged files
//! and with equal options it comes to what one uninterrupted load comes to. The functions of
//! `laws` do nothing: their contracts are the laws. [`BatchSize`] is how much of a file is taken at
//! once.
//!
//! Words of the contracts: `specs/Tables` (the files of a load as rows), `specs/Loads` (a load as
//! one fold over one list of lines), `specs/Frontiers` (how far its files have come),
//! `specs/Stops` and `specs/Ends` (where a load stops at an error, and how it ends), `specs/Turns`
//! (what a turn does over the files), `specs/Chains` (loads that go on from one another over
//! unchanged files), `specs/WholeEnds` (those that weren't cut off), `specs/Folders` (the files of
//! a source, as a folder tells them), `specs/BatchSizes` and `specs/NextEntries` (the entry of a
//! turn), `specs/MadeEntries` (entries that are made over the same files), `specs/Resumption`,
//! `specs/UncutLoads` and `specs/GrownStores` (lists that grow by them), `specs/EarlierLoads` (loads
//! that were started before). Lists of entries have the newest first.
//! This crate stands on `bl_world`, `bl_job`, `bl_graph`, `bl_entry`, `bl_queue`, `bl_rows`,
//! `bl_header`, `bl_files`, `bl_value` and `bl_outside`.
#![tactic(auto)]

mod batch_size;
mod laws;

pub use batch_size::{BatchSize, MOST_BYTES, MOST_ROWS, MOST_VALUES};
pub use laws::{
    batches_are_parts, entries_keep_unchanged, files_are_folders, listings_are_tables,
    loads_resume, next_rows_are_next_lines, no_batches_stand_behind, previous_loads_have_ended,
    started_jobs_are_satisfied, stores_grow, turns_are_made, turns_have_one_entry,
    two_parts_are_one_load, unchanged_stands, uncut_ends_whole, uncut_goes_on, uncut_loads_resume,
};
