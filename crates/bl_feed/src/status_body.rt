// The body of the status of a load.
ghost use Rattle.std.specs.Prelude.{◌≡◌, ◌≤◌, IfOk, IfSome, OnOk, map};
ghost use Rattle.std.specs.List.{All, filter};
ghost use Rattle.std.specs.Str.{IsUtf8};
ghost use Rattle.serde_json.specs.View.{view, members_view};
ghost use Rattle.bl_feed.specs.Bodies.{success_data};
ghost use Rattle.bl_feed.specs.StatusBodies.{
  and_errors,
  and_stopped,
  feed_data,
  is_stopped,
  payload_data,
  status_text,
  stopped_data,
};

use crate::error_page::errors_json;
use crate::feed_counts::counts_json;
use crate::problem_body::success_value;
use crate::state::{feed_json, job_json};
use bl_files::Feed;
use bl_outside::{NoMemory, Text};
use bl_queue::Job;
use serde_json::{Map, Value as Json, put};
use std::alloc::Global;

fn is_stopped(feed: &Feed) -> bool
    ensures { result ≡ is_stopped feed.now }
{
    feed.status.has_ended() && !feed.status.is_completed()
}

// The files that ended otherwise than whole.
fn stopped_json(alloc: Global, job: &Job) -> Result<Json, NoMemory>
    requires source { IsUtf8 job.now.request.source }
    requires names { All (λ feed. IsUtf8 feed.name) job.now.feeds }
    ensures { IfOk result (λ json. view json ≡ stopped_data job.now) }
{
    let mut stopped = Vec::new(alloc);
    for feed in job.feeds.as_slice() {
        if is_stopped(feed) {
            stopped.push(feed_json(alloc, job, feed)?)?;
        }
    }
    Ok(Json::Array(stopped))
}

// Adds a page of logs, where one is asked for.
fn put_errors(
    alloc: Global,
    members: &mut Map<String, Json>,
    job: &Job,
    errors: Option<(u32, u32)>,
) -> Result<(), NoMemory>
    requires source { IsUtf8 job.now.request.source }
    requires names { All (λ feed. IsUtf8 feed.name) job.now.feeds }
    requires errors { IfSome errors (λ asked. (1 ≤ asked.0) × (1 ≤ asked.1)) }
    ensures { OnOk result (members_view members.new.entries
        ≡ and_errors job.now errors (members_view members.old.entries)) }
{
    match errors {
        Some(asked) => {
            let page = errors_json(alloc, job, asked)?;
            Ok(put(members, alloc, "errors", page)?)
        }
        None => Ok(()),
    }
}

// Adds the files that ended otherwise than whole, where they are asked for.
fn put_stopped(
    alloc: Global,
    members: &mut Map<String, Json>,
    job: &Job,
    details: bool,
) -> Result<(), NoMemory>
    requires source { IsUtf8 job.now.request.source }
    requires names { All (λ feed. IsUtf8 feed.name) job.now.feeds }
    ensures { OnOk result (members_view members.new.entries
        ≡ and_stopped job.now details (members_view members.old.entries)) }
{
    if details {
        let stopped = stopped_json(alloc, job)?;
        return Ok(put(members, alloc, "failedFeeds", stopped)?);
    }
    Ok(())
}

fn payload_json(
    alloc: Global,
    job: &Job,
    details: bool,
    errors: Option<(u32, u32)>,
) -> Result<Json, NoMemory>
    requires source { IsUtf8 job.now.request.source }
    requires names { All (λ feed. IsUtf8 feed.name) job.now.feeds }
    requires errors { IfSome errors (λ asked. (1 ≤ asked.0) × (1 ≤ asked.1)) }
    ensures { IfOk result (λ json. view json ≡ payload_data job.now details errors) }
{
    let mut members = Map::new(alloc);
    put_errors(alloc, &mut members, job, errors)?;
    put_stopped(alloc, &mut members, job, details)?;
    let counts = counts_json(alloc, &job.feeds)?;
    put(&mut members, alloc, "feedCount", counts)?;
    let whole = job_json(alloc, job)?;
    put(&mut members, alloc, "overallStatus", whole)?;
    Ok(Json::Object(members))
}

fn status_value(
    alloc: Global,
    job: &Job,
    details: bool,
    errors: Option<(u32, u32)>,
) -> Result<Json, NoMemory>
    requires source { IsUtf8 job.now.request.source }
    requires names { All (λ feed. IsUtf8 feed.name) job.now.feeds }
    requires errors { IfSome errors (λ asked. (1 ≤ asked.0) × (1 ≤ asked.1)) }
    ensures { IfOk result (λ json. view json ≡ success_data (payload_data job.now details errors)) }
{
    let payload = payload_json(alloc, job, details, errors)?;
    success_value(alloc, payload)
}

/// The body of the status of a load. With `details` it has the files that ended otherwise than
/// whole, with `errors` a page of logs, by its number and how many a page has, both from 1.
pub fn status_json(
    alloc: Global,
    job: &Job,
    details: bool,
    errors: Option<(u32, u32)>,
) -> Result<Text, NoMemory>
    requires source { IsUtf8 job.now.request.source }
    requires names { All (λ feed. IsUtf8 feed.name) job.now.feeds }
    requires errors { IfSome errors (λ asked. (1 ≤ asked.0) × (1 ≤ asked.1)) }
    ensures { IfOk result (λ text. text ≡ status_text job.now details errors) }
{
    let value = status_value(alloc, job, details, errors)?;
    Ok(Text::from_vec(value.to_vec(alloc)?))
}
