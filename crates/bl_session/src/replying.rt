// Replies with their bodies.
ghost use Rattle.std.specs.Prelude.{◌≡◌, IfOk, None, Some, Ok, Err};
ghost use Rattle.bl_session.specs.Replies.{Tells, TellsMade, problem_bytes, problem_told};

use crate::problem::Problem;
use crate::reply::Reply;
use bl_feed::problem_json;
use bl_http::reply_text;
use bl_outside::{NoMemory, Text};
use std::alloc::Global;

/// The reply with a body of success, where it could be made.
pub fn success_reply(alloc: Global, body: Result<Text, NoMemory>, close: bool) -> Reply
    ensures { TellsMade body close result }
{
    let Ok(body) = body else {
        return Reply::MemoryOut;
    };
    match reply_text(alloc, 200, None, &body, close) {
        Ok(text) => Reply::Made { text, close },
        Err(_) => Reply::MemoryOut,
    }
}

/// The text of a refusal's reply.
pub fn problem_text(alloc: Global, problem: Problem, close: bool) -> Result<Text, NoMemory>
    ensures { IfOk result (λ text. text ≡ problem_bytes problem close) }
{
    let message = problem.message(alloc)?;
    let body = problem_json(alloc, problem.code(), &message)?;
    reply_text(alloc, problem.status(), problem.allow(), &body, close)
}

/// The reply of a refusal.
pub fn problem_reply(alloc: Global, problem: Problem, close: bool) -> Reply
    ensures { Tells (Some (Err problem)) close result }
{
    match problem_text(alloc, problem, close) {
        Ok(text) => Reply::Made { text, close },
        Err(_) => Reply::MemoryOut,
    }
}

/// The same where it isn't known that memory was there to do what was asked.
pub fn maybe_problem_reply(alloc: Global, problem: Option<Problem>, close: bool) -> Reply
    ensures { Tells (problem_told problem) close result }
{
    match problem {
        Some(problem) => problem_reply(alloc, problem, close),
        None => Reply::MemoryOut,
    }
}
