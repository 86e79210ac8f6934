//! The top call, [`run`]: the words of a command, over whatever outside it is handed.
//!
//! `load s3://BUCKET/KEY [options]` loads the files at `BUCKET/KEY` of a folder into the graph that
//! a store keeps, and prints the line of the job, with `--changes` after a line for each change.
//!
//! Words of the contracts: `specs/Words` (the command line), `specs/Runs` (how a run ends),
//! `specs/Stores` (what it makes of the store), `specs/Loads` (a load over an engine),
//! `specs/ScriptRuns` (requests that are answered), `specs/Outputs` (what is printed), `specs/Printing` (text that is written in pieces). What turns
//! of the loader do is said in `bl_load`, what loads come to in `bl_chain`.
#![tactic(auto)]

mod asked;
mod command;
mod commands;
mod help;
mod job_text;
mod load_fault;
mod load_option;
mod loads;
mod options;
mod outputs;
mod printing;
mod scripts;
mod shown;
mod status;
mod stream_words;
mod top;
mod words;

pub use status::Status;
pub use top::run;
