// What a request asks for.
ghost use Rattle.std.specs.Prelude.{◌≡◌, ◌≤◌, IfOk, IfSome, codes};
ghost use Rattle.std.specs.Option.{option_copied};
ghost use Rattle.bl_feed.specs.LoadBodies.{id_in};
ghost use Rattle.bl_feed.specs.Parameters.{number_or};
ghost use Rattle.bl_session.specs.Asks.{
  Asks,
  AsksLoad,
  AsksOf,
  IsAsk,
  IsPageOfLogs,
  cancel_asked,
  errors_asked,
  errors_if,
  list_asked,
  loads_asked,
  show_asked,
  stream_asked,
};
ghost use Rattle.bl_session.specs.Parameters.{value_of};
ghost use Rattle.bl_session.specs.Routes.{id_part, verb_of};

use crate::parameter::Parameter;
use crate::parameters::{truth_or, value_of};
use crate::problem::Problem;
use crate::route::{Route, Verb, verb_of};
use crate::routes::{id_part, route_of};
use bl_feed::{BodyRefusal, read_id, read_load, read_number_or, read_page_ask};
use bl_files::LoadRequest;
use bl_http::Request;
use bl_outside::{NoMemory, Text};
use bl_stream::PageAsk;
use std::alloc::Global;

/// What a request asks for. An id that is none is 0, which no load has.
#[derive(Debug, Drop)]
pub enum Ask {
    Submit(LoadRequest),
    Cancel(u128),
    List {
        limit: u32,
        queued: bool,
    },
    Show {
        id: u128,
        details: bool,
        /// The number of a page of logs and how many it has, both from 1.
        errors: Option<(u32, u32)>,
    },
    Page(PageAsk),
}

fn id_in(text: &[u8]) -> u128
    ensures { result ≡ id_in text.now }
{
    read_id(text).unwrap_or(0)
}

// The id in the path of one load.
fn path_id(path: &Text) -> u128
    ensures { result ≡ id_in (id_part path.now) }
{
    id_in(id_part(path))
}

// A number of at most 32 bits, or the default.
fn small_or(default: u32, least: u32, most: u32, text: Option<&[u8]>) -> Option<u32>
    requires { (least ≤ default) × (default ≤ most) }
    ensures value { result ≡ number_or default least most (option_copied text.entry) }
    ensures range { IfSome result (λ number. least ≤ number) }
{
    let number = read_number_or(default as u64, least as u64, most as u64, text)?;
    Some(number as u32)
}

fn errors_if(errors: bool, page: u32, count: u32) -> Option<(u32, u32)>
    requires { IsPageOfLogs (page, count) }
    ensures value { result ≡ errors_if errors page count }
    ensures range { IfSome result IsPageOfLogs }
{
    if errors { Some((page, count)) } else { None }
}

// The page of logs that is asked for, where one is.
fn errors_asked(query: &[(Text, Text)]) -> Result<Option<(u32, u32)>, Problem>
    ensures value { result ≡ errors_asked query.now }
    ensures range { IfOk result (λ errors. IfSome errors IsPageOfLogs) }
{
    let errors = truth_or(false, value_of(b"errors", query));
    let errors = errors.ok_or(Problem::BadParameter(Parameter::Errors))?;
    let page = small_or(1, 1, 1_000_000, value_of(b"page", query));
    let page = page.ok_or(Problem::BadParameter(Parameter::Page))?;
    let count = small_or(10, 1, 10_000, value_of(b"errorsPerPage", query));
    let count = count.ok_or(Problem::BadParameter(Parameter::ErrorsPerPage))?;
    Ok(errors_if(errors, page, count))
}

fn show_asked(id: &[u8], query: &[(Text, Text)]) -> Result<Ask, Problem>
    ensures value { result ≡ show_asked id.now query.now }
    ensures valid { IfOk result IsAsk }
{
    let details = truth_or(false, value_of(b"details", query));
    let details = details.ok_or(Problem::BadParameter(Parameter::Details))?;
    let errors = errors_asked(query)?;
    let id = id_in(id);
    Ok(Ask::Show {
        id,
        details,
        errors,
    })
}

fn list_asked(query: &[(Text, Text)]) -> Result<Ask, Problem>
    ensures value { result ≡ list_asked query.now }
    ensures valid { IfOk result IsAsk }
{
    let limit = small_or(100, 1, 100, value_of(b"limit", query));
    let limit = limit.ok_or(Problem::BadParameter(Parameter::Limit))?;
    let queued = truth_or(true, value_of(b"includeQueuedLoads", query));
    let queued = queued.ok_or(Problem::BadParameter(Parameter::IncludeQueuedLoads))?;
    Ok(Ask::List { limit, queued })
}

fn loads_asked(query: &[(Text, Text)]) -> Result<Ask, Problem>
    ensures value { result ≡ loads_asked (value_of (codes "loadId") query.now) query.now }
    ensures valid { IfOk result IsAsk }
{
    match value_of(b"loadId", query) {
        None => list_asked(query),
        Some(id) => show_asked(id, query),
    }
}

fn cancel_asked(query: &[(Text, Text)]) -> Result<Ask, Problem>
    ensures value { result ≡ cancel_asked (value_of (codes "loadId") query.now) }
    ensures valid { IfOk result IsAsk }
{
    match value_of(b"loadId", query) {
        None => Err(Problem::BadParameter(Parameter::LoadId)),
        Some(id) => Ok(Ask::Cancel(id_in(id))),
    }
}

fn stream_asked(query: &[(Text, Text)]) -> Result<Ask, Problem>
    ensures value { result ≡ stream_asked query.now }
    ensures valid { IfOk result IsAsk }
{
    let asked = read_page_ask(
        value_of(b"limit", query),
        value_of(b"iteratorType", query),
        value_of(b"commitNum", query),
        value_of(b"opNum", query),
    );
    match asked {
        Ok(ask) => Ok(Ask::Page(ask)),
        Err(parameter) => Err(Problem::BadParameter(Parameter::Stream(parameter))),
    }
}

fn load_asked(alloc: Global, body: &Text) -> Result<Result<Ask, Problem>, NoMemory>
    ensures asks { IfOk result (AsksLoad body.now) }
    ensures valid { IfOk result (λ asked. IfOk asked IsAsk) }
{
    match read_load(alloc, body) {
        Ok(load) => Ok(Ok(Ask::Submit(load))),
        Err(BodyRefusal::NotAnObject) => Ok(Err(Problem::NotAnObject)),
        Err(BodyRefusal::Member(number)) => Ok(Err(Problem::BadMember(number))),
        Err(BodyRefusal::NoMemory) => Err(NoMemory),
    }
}

// What is asked of a route.
fn asked_of(
    alloc: Global,
    route: Route,
    request: &Request,
) -> Result<Result<Ask, Problem>, NoMemory>
    ensures asks { IfOk result (AsksOf route (verb_of request.now.method) request.now) }
    ensures valid { IfOk result (λ asked. IfOk asked IsAsk) }
{
    let query = request.query.as_slice();
    match (route, verb_of(&request.method)) {
        (Route::Loads, Some(Verb::Get)) => Ok(loads_asked(query)),
        (Route::Loads, Some(Verb::Post)) => load_asked(alloc, &request.body),
        (Route::Loads, Some(Verb::Delete)) => Ok(cancel_asked(query)),
        (Route::Load, Some(Verb::Get)) => Ok(show_asked(id_part(&request.path), query)),
        (Route::Load, Some(Verb::Delete)) => Ok(Ok(Ask::Cancel(path_id(&request.path)))),
        (Route::Stream, Some(Verb::Get)) => Ok(stream_asked(query)),
        _ => Ok(Err(Problem::MethodNotAllowed(route))),
    }
}

/// What a request asks for, or the first reason why it is refused.
pub fn read_ask(alloc: Global, request: &Request) -> Result<Result<Ask, Problem>, NoMemory>
    ensures asks { IfOk result (Asks request.now) }
    ensures valid { IfOk result (λ asked. IfOk asked IsAsk) }
{
    match route_of(alloc, &request.path)? {
        Some(route) => asked_of(alloc, route, request),
        None => Ok(Err(Problem::NoRoute)),
    }
}
