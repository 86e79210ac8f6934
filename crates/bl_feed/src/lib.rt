//! Bodies of requests and replies, as the JSON of the Neptune User Guide ("Loader command",
//! "Loader Get-Status responses", "Neptune Streams API").
//!
//! [`status_json`] is what became of a load, [`list_json`] the loads that are kept, [`page_json`] a
//! page of the stream, and [`problem_json`] a refusal. The definition of each is a JSON value, and
//! the text is its one compact print. [`submitted_json`] and [`cancelled_json`] say that a load was
//! taken on or cancelled. [`read_load`] reads the body of a request for a load, [`read_page_ask`]
//! the parameters of a page, and [`read_id`] the id of a load.
//!
//! Words of the contracts: `specs/Words` (names of statuses and codes, messages of logs),
//! `specs/Bodies` (lists, pages and refusals), `specs/StatusBodies` (the status of a load),
//! `specs/LoadBodies` (a request for a load), `specs/Parameters` (numbers, and what a page is asked
//! for). `specs/PagePieces` is for the private ones.
//! This crate stands on `bl_stream`, `bl_queue`, `bl_change`, `bl_files`, `bl_value` and
//! `bl_outside`.
#![tactic(auto)]

mod body_refusal;
mod error_page;
mod feed_counts;
mod iterator_type;
mod list_body;
mod load_body;
mod load_id;
mod load_members;
mod numbers;
mod page_body;
mod page_parameters;
mod problem_body;
mod state;
mod status_body;
mod stream_parameter;
mod success_body;
mod words;

pub use body_refusal::BodyRefusal;
pub use list_body::list_json;
pub use load_body::read_load;
pub use load_id::{id_text, read_id};
pub use load_members::read_truth;
pub use numbers::{read_number, read_number_or};
pub use page_body::page_json;
pub use page_parameters::read_page_ask;
pub use problem_body::problem_json;
pub use status_body::status_json;
pub use stream_parameter::StreamParameter;
pub use success_body::{cancelled_json, submitted_json};
pub use words::job_status_text;
