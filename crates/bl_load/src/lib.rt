//! The loader: it reads a folder in turns, and hands what it read to the engine.
//!
//! [`prepare`] makes what the next turn commits: a plan of the files at the source of a load, the
//! next rows of a file, or the end of a file. [`Held`] keeps the file that is being read from one
//! turn to the next, so that no byte of it is read twice. [`commit`] hands it to the engine,
//! [`turn`] does both, and [`drain`] makes turns until nothing is to be done.
//!
//! Words of the contracts: `specs/Prepares` (what is prepared for a task), `specs/Tasks` (what a
//! task has), `specs/Finding` (the files of a source, for a plan), `specs/Resuming` (a file that
//! goes on), `specs/SourceFiles` (a file by its name), `specs/OpenFiles` (what is held),
//! `specs/Committing` and `specs/PreparedTurns` (the entry that is made of it), `specs/Turns` (what
//! turns do to the store), `specs/TurnFaults`, `specs/SameJobs`.
//! This crate stands on `bl_engine`, `bl_chain`, `bl_workers`, `bl_world` and the crates below them.
#![tactic(auto)]

mod batch_rows;
mod committing;
mod content;
mod finding;
mod gathering;
mod held;
mod open_file;
mod planning;
mod prepared;
mod preparing;
mod resuming;
mod source_file;
mod turn_fault;
mod turning;

pub use committing::commit;
pub use held::Held;
pub use prepared::Prepared;
pub use preparing::prepare;
pub use turn_fault::TurnFault;
pub use turning::{drain, turn};
