// Members of a request for a load.
ghost use Rattle.std.specs.Prelude.{
  ◌≡◌,
  ◌<◌,
  ◌^◌,
  [],
  true,
  codes,
  All,
  IfOk,
  IfSome,
  option_and_then,
};
ghost use Rattle.serde_json.specs.Find.{get};
ghost use Rattle.serde_json.specs.View.{view, items_view};
ghost use Rattle.bl_files.specs.Sources.{is_kept_source, kept_source};
ghost use Rattle.bl_outside.specs.Texts.{IsShortText};
ghost use Rattle.bl_entry.specs.Valid.{IsList};
ghost use Rattle.bl_feed.specs.LoadBodies.{
  dependencies_of,
  few,
  format_in,
  given_or,
  id_in,
  ids_in,
  mode_in,
  parallelism_in,
  text_of,
  truth_in,
  truth_of,
};

use crate::load_id::read_id;
use bl_files::{Mode, kept_source};
use bl_outside::{List, NoMemory, Text};
use serde_json::Value as Json;
use std::alloc::Global;

/// The truth value that a text is, in any letter case.
pub fn read_truth(text: &[u8]) -> Option<bool>
    ensures { result ≡ truth_in text.now }
{
    if text.eq_ignore_ascii_case(b"true") {
        Some(true)
    } else if text.eq_ignore_ascii_case(b"false") {
        Some(false)
    } else {
        None
    }
}

fn truth_of(value: &Json) -> Option<bool>
    ensures { result ≡ truth_of (view value.now) }
{
    if let Some(truth) = value.as_bool() {
        return Some(truth);
    }
    read_truth(value.as_str()?.as_bytes())
}

/// A truth value, or the default.
pub fn truth_at(body: &Json, name: &str, default: bool) -> Option<bool>
    ensures { result ≡ given_or default truth_of (get name.now (view body.now)) }
{
    match body.get(name) {
        None => Some(default),
        Some(value) => truth_of(value),
    }
}

fn mode_in(text: &str) -> Option<Mode>
    ensures { result ≡ mode_in text.now }
{
    match text {
        "NEW" => Some(Mode::New),
        "RESUME" => Some(Mode::Resume),
        "AUTO" => Some(Mode::Auto),
        _ => None,
    }
}

/// The mode; AUTO where it is absent.
pub fn mode_at(body: &Json) -> Option<Mode>
    ensures { result ≡ given_or Mode.Auto (text_of mode_in) (get (codes "mode") (view body.now)) }
{
    match body.get("mode") {
        None => Some(Mode::Auto),
        Some(value) => mode_in(value.as_str()?),
    }
}

fn parallelism_in(text: &str) -> Option<u8>
    ensures value { result ≡ parallelism_in text.now }
    ensures range { IfSome result (λ number. number < 4) }
{
    match text {
        "LOW" => Some(0),
        "MEDIUM" => Some(1),
        "HIGH" => Some(2),
        "OVERSUBSCRIBE" => Some(3),
        _ => None,
    }
}

/// The parallelism by its number; HIGH where it is absent.
pub fn parallelism_at(body: &Json) -> Option<u8>
    ensures value { result
        ≡ given_or 2 (text_of parallelism_in) (get (codes "parallelism") (view body.now)) }
    ensures range { IfSome result (λ number. number < 4) }
{
    match body.get("parallelism") {
        None => Some(2),
        Some(value) => parallelism_in(value.as_str()?),
    }
}

fn format_in(text: &str) -> Option<u8>
    ensures value { result ≡ format_in text.now }
    ensures csv { IfSome result (λ number. number ≡ 0) }
{
    if text == "csv" { Some(0) } else { None }
}

/// The format by its number, which is needed.
pub fn format_at(body: &Json) -> Option<u8>
    ensures value { result
        ≡ option_and_then (text_of format_in) (get (codes "format") (view body.now)) }
    ensures csv { IfSome result (λ number. number ≡ 0) }
{
    format_in(body.get("format")?.as_str()?)
}

/// The source as it is kept, which is needed.
pub fn source_at(alloc: Global, body: &Json) -> Result<Option<Text>, NoMemory>
    ensures source { IfOk result (λ source. source
        ≡ option_and_then (text_of kept_source) (get (codes "source") (view body.now))) }
    ensures kept { IfOk result (λ kept. IfSome kept (λ text. is_kept_source text ≡ true)) }
    ensures text { IfOk result (λ kept. IfSome kept IsShortText) }
{
    let Some(value) = body.get("source") else {
        return Ok(None);
    };
    let Some(text) = value.as_str() else {
        return Ok(None);
    };
    kept_source(alloc, text.as_bytes())
}

fn id_in(text: &str) -> u128
    ensures { result ≡ id_in text.now }
{
    read_id(text.as_bytes()).unwrap_or(0)
}

// The ids of texts; none where an item is no text.
fn ids_in(alloc: Global, texts: &[Json]) -> Result<Option<List<u128>>, NoMemory>
    ensures ids { IfOk result (λ ids. ids ≡ ids_in (items_view texts.now)) }
    ensures range { IfOk result (λ ids. IfSome ids (All (λ id. id < 2 ^ 128))) }
{
    let mut ids = List::new(alloc);
    for value in texts {
        let Some(text) = value.as_str() else {
            return Ok(None);
        };
        ids.push(id_in(text))?;
    }
    Ok(Some(ids))
}

/// Dependencies are counted in 32 bits.
const DEPENDENCY_LIMIT: usize = 4_294_967_296;

fn few(ids: List<u128>) -> Option<List<u128>>
    requires { All (λ id. id < 2 ^ 128) ids }
    ensures few { result ≡ few ids }
    ensures range { IfSome result (IsList (λ id. id < 2 ^ 128)) }
{
    if ids.len() < DEPENDENCY_LIMIT {
        Some(ids)
    } else {
        None
    }
}

fn dependencies_of(alloc: Global, value: &Json) -> Result<Option<List<u128>>, NoMemory>
    ensures ids { IfOk result (λ ids. ids ≡ dependencies_of (view value.now)) }
    ensures range { IfOk result (λ ids. IfSome ids (IsList (λ id. id < 2 ^ 128))) }
{
    let Some(texts) = value.as_array() else {
        return Ok(None);
    };
    match ids_in(alloc, texts.as_slice())? {
        Some(ids) => Ok(few(ids)),
        None => Ok(None),
    }
}

/// The ids of the loads that are to be completed before; none where the member is absent.
pub fn dependencies_at(alloc: Global, body: &Json) -> Result<Option<List<u128>>, NoMemory>
    ensures ids { IfOk result (λ ids. ids
        ≡ given_or [] dependencies_of (get (codes "dependencies") (view body.now))) }
    ensures range { IfOk result (λ ids. IfSome ids (IsList (λ id. id < 2 ^ 128))) }
{
    match body.get("dependencies") {
        Some(value) => dependencies_of(alloc, value),
        None => Ok(Some(List::new(alloc))),
    }
}
