// A page of the logs of a job.
ghost use Rattle.std.specs.Prelude.{
  ◌≡◌,
  ◌==◌,
  ◌≤◌,
  ◌<◌,
  ◌+◌,
  ◌-◌,
  ◌*◌,
  ◌^◌,
  IfOk,
  drop,
  if◌then◌else◌,
  map,
  take,
};
ghost use Rattle.std.specs.List.{All};
ghost use Rattle.std.specs.Str.{IsUtf8};
ghost use Rattle.serde_json.specs.View.{view};
ghost use Rattle.bl_feed.specs.StatusBodies.{entry_data, errors_data, name_at};

use crate::load_id::id_json;
use crate::state::{put_number, put_text, shown_name};
use crate::words::{code_text, message_json};
use bl_files::{ErrorEntry, all_errors};
use bl_outside::{NoMemory, Text};
use bl_queue::Job;
use serde_json::{Map, Value as Json, put};
use std::alloc::Global;

// The name of the file of an entry; the source where it is said of the job.
fn name_at(alloc: Global, job: &Job, feed: Option<usize>) -> Result<Text, NoMemory>
    requires source { IsUtf8 job.now.request.source }
    requires names { All (λ feed. IsUtf8 feed.name) job.now.feeds }
    ensures name { IfOk result (λ name. name ≡ name_at job.now feed) }
    ensures utf8 { IfOk result IsUtf8 }
{
    let Some(place) = feed else {
        return job.request.source.copy(alloc);
    };
    match job.feeds.get(place.saturating_sub(1)) {
        Some(feed) => shown_name(alloc, &job.request.source, &feed.name),
        None => job.request.source.copy(alloc),
    }
}

fn entry_json(alloc: Global, job: &Job, entry: &ErrorEntry) -> Result<Json, NoMemory>
    requires source { IsUtf8 job.now.request.source }
    requires names { All (λ feed. IsUtf8 feed.name) job.now.feeds }
    ensures { IfOk result (λ json. view json ≡ entry_data job.now entry.now) }
{
    let message = message_json(alloc, entry.log)?;
    let name = name_at(alloc, job, entry.feed)?;
    let mut members = Map::new(alloc);
    put_text(alloc, &mut members, "errorCode", code_text(entry.log.code))?;
    put(&mut members, alloc, "errorMessage", message)?;
    put_text(alloc, &mut members, "fileName", name.as_str())?;
    put_number(alloc, &mut members, "recordNum", entry.log.number)?;
    Ok(Json::Object(members))
}

fn entries_json(alloc: Global, job: &Job, entries: &[ErrorEntry]) -> Result<Vec<Json>, NoMemory>
    requires source { IsUtf8 job.now.request.source }
    requires names { All (λ feed. IsUtf8 feed.name) job.now.feeds }
    ensures { IfOk result (λ values. map view values.items ≡ map (entry_data job.now) entries.now) }
{
    let mut values = Vec::new(alloc);
    for entry in entries {
        values.push(entry_json(alloc, job, entry)?)?;
    }
    Ok(values)
}

// The entries of a page of so many, and how many stand before them.
fn page_of(entries: &[ErrorEntry], page: u32, per_page: u32) -> (usize, &[ErrorEntry])
    requires page { 1 ≤ page }
    ensures before { result.0 ≡ (page - 1) * per_page }
    ensures entries { result.1.now ≡ take per_page (drop ((page - 1) * per_page) entries.now) }
{
    let before = (page as usize - 1) * per_page as usize;
    let start = before.min(entries.len());
    let end = (start + per_page as usize).min(entries.len());
    (before, &entries[start..end])
}

/// The logs of a page, `asked` being its number and how many a page has, both from 1.
pub fn errors_json(alloc: Global, job: &Job, asked: (u32, u32)) -> Result<Json, NoMemory>
    requires source { IsUtf8 job.now.request.source }
    requires names { All (λ feed. IsUtf8 feed.name) job.now.feeds }
    requires page { 1 ≤ asked.0 }
    requires per_page { 1 ≤ asked.1 }
    ensures { IfOk result (λ json. view json ≡ errors_data job.now asked) }
{
    let errors = all_errors(alloc, &job.feeds, job.end_log)?;
    let (before, entries) = page_of(errors.as_slice(), asked.0, asked.1);
    let logs = entries_json(alloc, job, entries)?;
    let count = entries.len();
    let first = index_of(count, before, 1);
    let last = index_of(count, before, count);
    let mut members = Map::new(alloc);
    put_number(alloc, &mut members, "endIndex", last)?;
    put(&mut members, alloc, "errorLogs", Json::Array(logs))?;
    put(&mut members, alloc, "loadId", id_json(alloc, job.id)?)?;
    put_number(alloc, &mut members, "startIndex", first)?;
    Ok(Json::Object(members))
}

// A place behind those before, or 0 where there is none.
fn index_of(count: usize, before: usize, place: usize) -> u64
    requires { before + place < 2 ^ 64 }
    ensures { result ≡ (if count == 0 then 0 else before + place) }
{
    if count == 0 {
        0
    } else {
        (before + place) as u64
    }
}
