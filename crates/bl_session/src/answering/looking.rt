// Loads and pages of the stream are shown.
ghost use Rattle.std.specs.Prelude.{◌≡◌, ◌≤◌, true, All, IfOk, IfSome, length};
ghost use Rattle.std.specs.Str.{IsUtf8};
ghost use Rattle.bl_change.specs.EventTexts.{IsEvent};
ghost use Rattle.bl_feed.specs.StatusBodies.{status_text};
ghost use Rattle.bl_session.specs.Answers.{
  Lists,
  Pages,
  Shows,
  page_problem,
  trouble_problem,
  view_problem,
};
ghost use Rattle.bl_session.specs.Asks.{IsPageOfLogs};

use crate::problem::Problem;
use crate::reply::Reply;
use crate::replying::{maybe_problem_reply, success_reply};
use bl_engine::{Engine, Trouble, ViewRefusal};
use bl_feed::{list_json, page_json, status_json};
use bl_outside::{Disk, NoMemory, Text, is_utf8};
use bl_queue::Job;
use bl_stream::{PageAsk, PageRefusal};
use std::alloc::Global;

fn trouble_problem(trouble: Trouble) -> Option<Problem>
    ensures { result ≡ trouble_problem trouble }
{
    match trouble {
        Trouble::StoreFault => Some(Problem::StoreFault),
        Trouble::BadStore(place) => Some(Problem::BadStore(place)),
        Trouble::NoMemory => None,
    }
}

fn view_problem(refusal: ViewRefusal) -> Option<Problem>
    ensures { result ≡ view_problem refusal }
{
    match refusal {
        ViewRefusal::Unknown => Some(Problem::UnknownLoad),
        ViewRefusal::StoreFault => Some(Problem::StoreFault),
        ViewRefusal::BadStore(place) => Some(Problem::BadStore(place)),
        ViewRefusal::NoMemory => None,
    }
}

fn page_problem(refusal: PageRefusal) -> Option<Problem>
    ensures { result ≡ page_problem refusal }
{
    match refusal {
        PageRefusal::NoRecords => Some(Problem::NoRecords),
        PageRefusal::StoreFault => Some(Problem::StoreFault),
        PageRefusal::BadStore(place) => Some(Problem::BadStore(place)),
        PageRefusal::NoMemory => None,
    }
}

/// Lists the loads.
pub fn list<D: Disk>(
    alloc: Global,
    engine: &mut Engine<D>,
    limit: u32,
    queued: bool,
    close: bool,
) -> Reply
    ensures { Lists ⟦<D as Disk>⟧ limit queued close engine.old engine.new result }
{
    match engine.list(limit, queued) {
        Ok(ids) => success_reply(alloc, list_json(alloc, &ids), close),
        Err(trouble) => maybe_problem_reply(alloc, trouble_problem(trouble), close),
    }
}

fn has_names(job: &Job) -> bool
    ensures { result ≡ true → All (λ feed. IsUtf8 feed.name) job.now.feeds }
{
    for feed in job.feeds.as_slice() {
        if !is_utf8(feed.name.as_slice()) {
            return false;
        }
    }
    true
}

// The status of a job as a body. The texts of every job are UTF-8, since entries are; over a disk
// that isn't honest this isn't told of an engine, so it is looked at.
fn status_body(
    alloc: Global,
    job: &Job,
    details: bool,
    errors: Option<(u32, u32)>,
) -> Result<Text, NoMemory>
    requires { IfSome errors IsPageOfLogs }
    ensures { IfOk result (λ text. text ≡ status_text job.now details errors) }
{
    if !is_utf8(job.request.source.as_slice()) || !has_names(job) {
        return Err(NoMemory);
    }
    status_json(alloc, job, details, errors)
}

/// Shows the load of an id.
pub fn show<D: Disk>(
    alloc: Global,
    engine: &mut Engine<D>,
    id: u128,
    details: bool,
    errors: Option<(u32, u32)>,
    close: bool,
) -> Reply
    requires { IfSome errors IsPageOfLogs }
    ensures { Shows ⟦<D as Disk>⟧ id details errors close engine.old engine.new result }
{
    match engine.status(id) {
        Ok(job) => success_reply(alloc, status_body(alloc, &job, details, errors), close),
        Err(refusal) => maybe_problem_reply(alloc, view_problem(refusal), close),
    }
}

/// Shows a page of the stream.
pub fn page<D: Disk>(alloc: Global, engine: &mut Engine<D>, ask: &PageAsk, close: bool) -> Reply
    requires { (1 ≤ ask.now.limit) × (ask.now.limit ≤ 100000) }
    ensures { Pages ⟦<D as Disk>⟧ ask.now close engine.old engine.new result }
{
    match engine.page(ask) {
        Ok(page) => success_reply(alloc, page_json(alloc, &page), close),
        Err(refusal) => maybe_problem_reply(alloc, page_problem(refusal), close),
    }
}
