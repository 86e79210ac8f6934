// Loads are taken on and cancelled.
ghost use Rattle.std.specs.Prelude.{◌≡◌};
ghost use Rattle.bl_entry.specs.Valid.{IsRequest};
ghost use Rattle.bl_session.specs.Answers.{Cancels, Submits, cancel_problem, submit_problem};

use crate::problem::Problem;
use crate::reply::Reply;
use crate::replying::{maybe_problem_reply, success_reply};
use bl_engine::{CancelRefusal, Engine, SubmitRefusal};
use bl_feed::{cancelled_json, submitted_json};
use bl_files::LoadRequest;
use bl_outside::{Clock, Disk};
use std::alloc::Global;

fn submit_problem(refusal: SubmitRefusal) -> Option<Problem>
    ensures { result ≡ submit_problem refusal }
{
    match refusal {
        SubmitRefusal::TooManyDependencies => Some(Problem::TooManyDependencies),
        SubmitRefusal::UnknownDependency(place) => Some(Problem::UnknownDependency(place)),
        SubmitRefusal::Busy(id) => Some(Problem::LoadBusy(id)),
        SubmitRefusal::QueueFull => Some(Problem::QueueFull),
        SubmitRefusal::NumbersUsedUp => Some(Problem::NumbersUsedUp),
        SubmitRefusal::JournalFull => Some(Problem::JournalFull),
        SubmitRefusal::StoreFault => Some(Problem::StoreFault),
        SubmitRefusal::BadStore(place) => Some(Problem::BadStore(place)),
        SubmitRefusal::NoMemory => None,
    }
}

fn cancel_problem(refusal: CancelRefusal) -> Option<Problem>
    ensures { result ≡ cancel_problem refusal }
{
    match refusal {
        CancelRefusal::Unknown => Some(Problem::UnknownLoad),
        CancelRefusal::Ended(status) => Some(Problem::LoadEnded(status)),
        CancelRefusal::JournalFull => Some(Problem::JournalFull),
        CancelRefusal::StoreFault => Some(Problem::StoreFault),
        CancelRefusal::BadStore(place) => Some(Problem::BadStore(place)),
        CancelRefusal::NoMemory => None,
    }
}

/// Takes a load on, and tells its id.
pub fn submit<D: Disk, K: Clock>(
    alloc: Global,
    engine: &mut Engine<D>,
    clock: &mut K,
    salt: u128,
    load: LoadRequest,
    close: bool,
) -> Reply
    requires { IsRequest load }
    ensures { Submits ⟦<D as Disk>⟧ salt load (K.last clock.new) close engine.old engine.new
        result }
{
    match engine.submit(clock, salt, load) {
        Ok(id) => success_reply(alloc, submitted_json(alloc, id), close),
        Err(refusal) => maybe_problem_reply(alloc, submit_problem(refusal), close),
    }
}

/// Cancels the load of an id.
pub fn cancel<D: Disk, K: Clock>(
    alloc: Global,
    engine: &mut Engine<D>,
    clock: &mut K,
    id: u128,
    close: bool,
) -> Reply
    ensures { Cancels ⟦<D as Disk>⟧ id (K.last clock.new) close engine.old engine.new result }
{
    match engine.cancel(clock, id) {
        Ok(()) => success_reply(alloc, cancelled_json(alloc), close),
        Err(refusal) => maybe_problem_reply(alloc, cancel_problem(refusal), close),
    }
}
