//! Requests as bytes, and replies.
//!
//! [`read_request`] reads what a client sends as HTTP/1.1 says, in whatever pieces it comes from a
//! `Source`: a head of `httparse`'s grammar, and the body whose length its fields declare. What was
//! taken and isn't used yet stays in a [`Buffer`], so several requests may come in one piece. Its
//! one contract: the answer is that of the definition to the bytes themselves, and reading one
//! request after another gives the requests of the input, however it was cut ([`read_requests`]).
//! [`reply_text`] is the text of a reply.
//!
//! Words of the contracts: `specs/Heads`, `specs/Fields` and `specs/Targets` say what a head asks,
//! `specs/Answers` what the answer to some bytes is, `specs/Buffers` what a call does with them,
//! `specs/Inputs` what the requests of an input are, and `specs/Replies` what a reply is.
//! This crate stands on `bl_outside`, and on `httparse`, `http` and `form_urlencoded`.
#![tactic(auto)]

mod asked;
mod buffer;
mod fields;
mod head;
mod reading;
mod refusal;
mod reply;
mod request;
mod target;

pub use asked::{Asked, Ending, Requests};
pub use buffer::Buffer;
pub use reading::{read_request, read_requests};
pub use refusal::{HeadRefusal, HttpFault};
pub use reply::{is_sent, reply_text};
pub use request::Request;
