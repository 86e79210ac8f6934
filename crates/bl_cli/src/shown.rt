// What is shown of a store: a body, and a line feed.
ghost use Rattle.std.specs.Prelude.{◌≡◌, ◌≤◌, ◌++◌, ◌∷◌, [], true, IfOk, Some, length};
ghost use Rattle.std.specs.List.{All};
ghost use Rattle.std.specs.Str.{IsUtf8};
ghost use Rattle.bl_value.specs.Valid.{IsPrintable};
ghost use Rattle.bl_cli.specs.Commands.{IsLook};
ghost use Rattle.bl_cli.specs.Shown.{
  Tells,
  job_body,
  list_body,
  made,
  page_body,
  page_status,
  view_status,
};

use crate::command::Look;
use crate::load_fault::LoadFault;
use crate::status::Status;
use bl_engine::{Engine, ViewRefusal};
use bl_feed::{list_json, page_json, status_json};
use bl_outside::{Disk, List, NoMemory, Text, is_utf8};
use bl_queue::Job;
use bl_stream::{Page, PageAsk, PageRefusal};
use std::alloc::Global;

fn list_body(alloc: Global, ids: &List<u128>) -> Result<Text, NoMemory>
    ensures { IfOk result (λ body. body ≡ list_body ids.now) }
{
    let mut body = list_json(alloc, ids)?;
    body.push(b'\n')?;
    Ok(body)
}

fn has_names(job: &Job) -> bool
    ensures { result ≡ true → All (λ feed. IsUtf8 feed.name) job.now.feeds }
{
    for feed in job.feeds.as_slice() {
        if !is_utf8(feed.name.as_slice()) {
            return false;
        }
    }
    true
}

// The texts of every job are UTF-8, since entries are; over a disk that isn't honest this isn't
// told of an engine, so it is looked at.
fn job_body(alloc: Global, job: &Job) -> Result<Text, NoMemory>
    ensures { IfOk result (λ body. body ≡ job_body job.now) }
{
    if !is_utf8(job.request.source.as_slice()) || !has_names(job) {
        return Err(NoMemory);
    }
    let mut body = status_json(alloc, job, true, Some((1, 10)))?;
    body.push(b'\n')?;
    Ok(body)
}

fn page_body(alloc: Global, page: &Page) -> Result<Text, NoMemory>
    requires some { 1 ≤ length page.now.events }
    requires printable { All (λ event. IsPrintable event.change) page.now.events }
    ensures { IfOk result (λ body. body ≡ page_body page.now.events) }
{
    let mut body = page_json(alloc, page)?;
    body.push(b'\n')?;
    Ok(body)
}

// The status where memory ran out.
fn made(body: Result<Text, NoMemory>) -> Result<Text, Status>
    ensures { result ≡ made body }
{
    match body {
        Ok(body) => Ok(body),
        Err(NoMemory) => Err(Status::NoMemory),
    }
}

fn view_status(refusal: ViewRefusal) -> Status
    ensures { result ≡ view_status refusal }
{
    match refusal {
        ViewRefusal::Unknown => Status::UnknownLoad,
        ViewRefusal::StoreFault => Status::StoreFault,
        ViewRefusal::BadStore(place) => Status::BadStore(place),
        ViewRefusal::NoMemory => Status::NoMemory,
    }
}

fn page_status(refusal: PageRefusal) -> Status
    ensures { result ≡ page_status refusal }
{
    match refusal {
        PageRefusal::NoRecords => Status::NoRecords,
        PageRefusal::StoreFault => Status::StoreFault,
        PageRefusal::BadStore(place) => Status::BadStore(place),
        PageRefusal::NoMemory => Status::NoMemory,
    }
}

fn tell_loads<D: Disk>(alloc: Global, engine: &mut Engine<D>) -> Result<Text, Status>
    requires { engine.old.ready ≡ true }
    ensures { Tells ⟦<D as Disk>⟧ Look.Loads engine.old engine.new result }
{
    match engine.list(100, true) {
        Ok(ids) => made(list_body(alloc, &ids)),
        Err(trouble) => Err(LoadFault::from(trouble).status()),
    }
}

fn tell_load<D: Disk>(alloc: Global, engine: &mut Engine<D>, id: u128) -> Result<Text, Status>
    requires { engine.old.ready ≡ true }
    ensures { Tells ⟦<D as Disk>⟧ (Look.Load id) engine.old engine.new result }
{
    match engine.status(id) {
        Ok(job) => made(job_body(alloc, &job)),
        Err(refusal) => Err(view_status(refusal)),
    }
}

fn tell_page<D: Disk>(alloc: Global, engine: &mut Engine<D>, ask: PageAsk) -> Result<Text, Status>
    requires ready { engine.old.ready ≡ true }
    requires limit { (1 ≤ ask.limit) × (ask.limit ≤ 100000) }
    ensures { Tells ⟦<D as Disk>⟧ (Look.Page ask) engine.old engine.new result }
{
    match engine.page(&ask) {
        Ok(page) => made(page_body(alloc, &page)),
        Err(refusal) => Err(page_status(refusal)),
    }
}

/// The text that shows what is asked for, or why there is none.
pub fn tell<D: Disk>(alloc: Global, engine: &mut Engine<D>, look: Look) -> Result<Text, Status>
    requires ready { engine.old.ready ≡ true }
    requires valid { IsLook look }
    ensures { Tells ⟦<D as Disk>⟧ look engine.old engine.new result }
{
    match look {
        Look::Loads => tell_loads(alloc, engine),
        Look::Load(id) => tell_load(alloc, engine, id),
        Look::Page(ask) => tell_page(alloc, engine, ask),
    }
}
