//! The files of a job, and what goes on from one load to the next.
//!
//! A [`Feed`] is a file of a job: what it is, how far it is, and what was told of its records.
//! [`carry`] makes the feeds of a new job from those of the previous load and from the files that
//! were found. [`totals`], [`shown_counts`] and [`all_errors`] are what a user is shown of them.
//! What is asked of the loader, a [`LoadRequest`], and how a plan or a file ends stand here too.
//!
//! Words of the contracts: `specs/Carried` (the feeds of a new job), `specs/Codes` (what a code
//! counts as), `specs/Statuses`, `specs/Plans` (what a plan of files is to be), `specs/Shown`
//! (records, counts and sums), `specs/ErrorFeed` (the logs of a job), `specs/Sources` (the source
//! of a load).
//! This crate stands on `bl_value` and `bl_outside`.
#![tactic(auto)]

mod carrying;
mod codes;
mod counts;
mod error_class;
mod error_feed;
mod feed;
mod feed_end;
mod feed_kind;
mod feed_status;
mod found;
mod laws;
mod load_request;
mod log;
mod mode;
mod plan_result;
mod shown;
mod source;

pub use carrying::{CarryRefusal, MOST_FILES, carried_number, carry};
pub use codes::{class_of, is_file_code, is_row_code};
pub use counts::Counts;
pub use error_class::ErrorClass;
pub use error_feed::{ErrorEntry, all_errors};
pub use feed::{Feed, copy_feeds};
pub use feed_end::FeedEnd;
pub use feed_kind::FeedKind;
pub use feed_status::FeedStatus;
pub use found::{Found, copy_found};
pub use laws::carried_feeds_are_one_list;
pub use load_request::LoadRequest;
pub use log::{Log, MOST_LOGS, copy_logs};
pub use mode::Mode;
pub use plan_result::{PlanResult, names_rise};
pub use shown::{shown_counts, totals};
pub use source::{is_kept_source, kept_source, path_of};
