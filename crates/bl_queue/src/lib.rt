//! The list of jobs.
//!
//! A [`Job`] is a load that was asked for, and [`Jobs`] are those that are kept. One runs at a
//! time; the others wait behind it. [`Jobs::check`] says whether a load is taken on, and
//! [`Jobs::submit`] takes it on. [`Jobs::start`], [`Jobs::rows`] and [`Jobs::end_feed`] are what
//! befalls the job at the front, and [`Jobs::cancel`] and [`Jobs::end`] end any; whether they may
//! is said by a call of its own for each. With a job that ends other than completed ends each that
//! depends on it, at one or more removes. [`Jobs::front`] is the job whose turn it is, and
//! [`Jobs::previous`] the load that one goes on with.
//!
//! Words of the contracts: `specs/Jobs` (what the list always is), `specs/Limits`,
//! `specs/Statuses`, `specs/Checks` (why a load is refused), `specs/Previous` (the front, and the
//! load before), `specs/Doomed` (which jobs end with others), `specs/Changes` (loads taken on and
//! ended), `specs/Runs` (starts, ends of files, cancels), `specs/Rows` (rows taken),
//! `specs/Taking` (what is kept so that a batch costs no more than its own logs).
//! This crate stands on `bl_files`, `bl_value` and `bl_outside`.
#![tactic(auto)]

mod check_refusal;
mod checking;
mod conditions;
mod ending_feeds;
mod job;
mod job_status;
mod jobs;
mod laws;
mod running;
mod searching;
mod settling;
mod starting;
mod taking;
mod taking_rows;

pub use check_refusal::CheckRefusal;
pub use checking::{MOST_DEPENDENCIES, MOST_QUEUED};
pub use job::{Job, copy_jobs};
pub use job_status::JobStatus;
pub use jobs::{Jobs, MOST_KEPT};
pub use laws::{
    settled_jobs_are_one_list, settled_jobs_settle, settled_jobs_stay, the_last_logs_stay,
};
pub use taking_rows::RECORD_LIMIT;
