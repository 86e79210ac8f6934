//! Requests of an input that are answered one after another, with turns of the loader between them.
//!
//! [`run_script`] reads requests, has each answered over an engine, writes its reply, and makes turns
//! behind it; at the end of the input it makes all turns that are left. So the whole service is run
//! by one list of requests, with nothing that depends on time.
//!
//! Words of the contracts: `specs/Turns` (turns behind a reply), `specs/Rounds` (a request, its reply
//! and its turns), `specs/Scripts` (all rounds, and how they end).
//! This crate stands on `bl_session`, `bl_load` and the crates below them.
#![tactic(auto)]

mod desk;
mod rounds;
mod script;
mod script_end;
mod turns;

pub use script::run_script;
pub use script_end::ScriptEnd;
