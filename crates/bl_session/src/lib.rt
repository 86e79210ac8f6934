//! One request answered over the engine, and one step of a session.
//!
//! [`answer`] says what a request asks for, has it done by the engine, and tells the answer. A
//! [`Desk`] is who answers: [`EngineDesk`] by `answer`. A session is steps: [`step_over`] reads a
//! request, has it answered, and writes the reply; [`reply_to`] and [`refuse_head`] are its halves.
//!
//! Words of the contracts: `specs/Routes` and `specs/Parameters` (paths, methods and parameters),
//! `specs/Asks` (what a request asks for), `specs/Problems` (why it is refused, and what is said of
//! it), `specs/Replies` (the bytes of a reply), `specs/Answers` (what a request does to the store,
//! and what it is replied), `specs/Steps` (what a step does).
//! This crate stands on `bl_engine`, `bl_feed`, `bl_http` and the crates below them.
#![tactic(auto)]

mod answering;
mod ask;
mod desk;
mod parameter;
mod parameters;
mod problem;
mod reply;
mod replying;
mod route;
mod routes;
mod step;
mod stepping;

pub use answering::answer;
pub use desk::{Desk, EngineDesk};
pub use reply::Reply;
pub use step::{SessionFault, Step};
pub use stepping::{refuse_head, reply_to, step_over};
