//! One batch of rows, admitted into a graph.
//!
//! [`batch`] takes the rows of a file one after another: each is admitted into the graph so far,
//! and its changes are applied. The [`BatchResult`] has what was counted, the changes in order, and
//! the logs of refused rows. A load that is to fail on an error stops before the first refused row.
//!
//! Words of the contracts: `specs/Batches` (what a batch does, one fold over the rows),
//! `specs/Batched` (what is promised of it), `specs/Joined` (two batches, one after the other).
//! This crate stands on `bl_graph`, `bl_files`, `bl_value` and `bl_outside`.
#![tactic(auto)]

mod batch_result;
mod batching;
mod laws;

pub use batch_result::BatchResult;
pub use batching::batch;
pub use laws::two_batches_are_one;
