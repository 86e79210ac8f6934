// Any request is answered.
ghost use Rattle.bl_session.specs.Answers.{Answered, AnswersAsk};
ghost use Rattle.bl_session.specs.Asks.{IsAsk};

use crate::ask::{Ask, read_ask};
use crate::reply::Reply;
use crate::replying::problem_reply;
use bl_engine::Engine;
use bl_http::Request;
use bl_outside::{Clock, Disk};
use std::alloc::Global;

mod changing;
mod looking;

use changing::{cancel, submit};
use looking::{list, page, show};

// What is asked for is done, and told.
fn answer_ask<D: Disk, K: Clock>(
    alloc: Global,
    engine: &mut Engine<D>,
    clock: &mut K,
    salt: u128,
    ask: Ask,
    close: bool,
) -> Reply
    requires { IsAsk ask }
    ensures { AnswersAsk ⟦<D as Disk>⟧ salt (K.last clock.new) close ask engine.old engine.new
        result }
{
    match ask {
        Ask::Submit(load) => submit(alloc, engine, clock, salt, load, close),
        Ask::Cancel(id) => cancel(alloc, engine, clock, id, close),
        Ask::List { limit, queued } => list(alloc, engine, limit, queued, close),
        Ask::Show {
            id,
            details,
            errors,
        } => show(alloc, engine, id, details, errors, close),
        Ask::Page(ask) => page(alloc, engine, &ask, close),
    }
}

/// Answers a request over an engine: what it asks for is done, at most one entry is appended, and
/// the reply tells the answer of the engine. The entry has the value that the clock gave last, and
/// the id of a load is made of the salt.
pub fn answer<D: Disk, K: Clock>(
    alloc: Global,
    engine: &mut Engine<D>,
    clock: &mut K,
    salt: u128,
    request: &Request,
) -> Reply
    ensures { Answered ⟦<D as Disk>⟧ salt (K.last clock.new) request.now engine.old engine.new
        result }
{
    match read_ask(alloc, request) {
        Err(_) => Reply::MemoryOut,
        Ok(Err(problem)) => problem_reply(alloc, problem, request.close),
        Ok(Ok(ask)) => answer_ask(alloc, engine, clock, salt, ask, request.close),
    }
}
