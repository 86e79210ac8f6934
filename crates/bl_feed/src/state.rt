// What is shown of a job, or of a file of it.
ghost use Rattle.std.specs.Prelude.{◌≡◌, ◌++◌, IfOk, OnOk};
ghost use Rattle.std.specs.Str.{IsUtf8};
ghost use Rattle.serde_json.specs.Data.{number, string, unsigned, put as with_member};
ghost use Rattle.serde_json.specs.View.{view, members_view};
ghost use Rattle.bl_feed.specs.StatusBodies.{
  feed_data,
  job_data,
  seconds,
  shown_name,
  state_data,
  time_spent,
};

use crate::words::{feed_status_text, job_status_text};
use bl_files::{Counts, Feed, shown_counts, totals};
use bl_outside::{NoMemory, Text};
use bl_queue::Job;
use serde_json::{Map, Value as Json, put};
use std::alloc::Global;

// The time from the start to the last entry, in whole seconds.
fn time_spent(job: &Job) -> u64
    ensures { result ≡ time_spent job.now }
{
    if job.run == 0 {
        0
    } else {
        job.latest.saturating_sub(job.started) / 1000
    }
}

/// Adds a number to an object.
pub fn put_number(
    alloc: Global,
    members: &mut Map<String, Json>,
    name: &str,
    n: u64,
) -> Result<(), NoMemory>
    ensures { OnOk result (members_view members.new.entries
        ≡ with_member name.now (number (unsigned n)) (members_view members.old.entries)) }
{
    Ok(put(members, alloc, name, Json::from(n))?)
}

/// Adds a text to an object.
pub fn put_text(
    alloc: Global,
    members: &mut Map<String, Json>,
    name: &str,
    text: &str,
) -> Result<(), NoMemory>
    ensures { OnOk result (members_view members.new.entries
        ≡ with_member name.now (string text.now) (members_view members.old.entries)) }
{
    Ok(put(members, alloc, name, Json::try_from_str(alloc, text)?)?)
}

// A job, or a file of it, by its name, its status and its counts.
fn state_json(
    alloc: Global,
    job: &Job,
    uri: &str,
    status: &str,
    counts: Counts,
) -> Result<Json, NoMemory>
    ensures { IfOk result (λ json. view json ≡ state_data job.now uri.now status.now counts) }
{
    let mut members = Map::new(alloc);
    put_number(
        alloc,
        &mut members,
        "datatypeMismatchErrors",
        counts.datatype,
    )?;
    put_text(alloc, &mut members, "fullUri", uri)?;
    put_number(alloc, &mut members, "insertErrors", counts.insert)?;
    put_number(alloc, &mut members, "parsingErrors", counts.parsing)?;
    put_number(alloc, &mut members, "retryNumber", 0)?;
    put_number(alloc, &mut members, "runNumber", job.run as u64)?;
    put_number(alloc, &mut members, "startTime", job.started / 1000)?;
    put_text(alloc, &mut members, "status", status)?;
    put_number(alloc, &mut members, "totalDuplicates", counts.duplicates)?;
    put_number(alloc, &mut members, "totalRecords", counts.records)?;
    put_number(alloc, &mut members, "totalTimeSpent", time_spent(job))?;
    Ok(Json::Object(members))
}

/// The name of a file as it is shown.
pub fn shown_name(alloc: Global, source: &Text, name: &Text) -> Result<Text, NoMemory>
    requires source { IsUtf8 source.now }
    requires name { IsUtf8 name.now }
    ensures name { IfOk result (λ shown. shown ≡ shown_name source.now name.now) }
    ensures utf8 { IfOk result IsUtf8 }
{
    if name.is_empty() {
        return source.copy(alloc);
    }
    let source = source.as_str();
    let name = name.as_str();
    let shown = format!(in alloc; "{source}/{name}")?;
    Text::of_str(alloc, shown.as_str())
}

/// What is shown of a job.
pub fn job_json(alloc: Global, job: &Job) -> Result<Json, NoMemory>
    requires { IsUtf8 job.now.request.source }
    ensures { IfOk result (λ json. view json ≡ job_data job.now) }
{
    let counts = totals(&job.feeds);
    let status = job_status_text(job.status);
    state_json(alloc, job, job.request.source.as_str(), status, counts)
}

/// What is shown of a file of a job.
pub fn feed_json(alloc: Global, job: &Job, feed: &Feed) -> Result<Json, NoMemory>
    requires source { IsUtf8 job.now.request.source }
    requires name { IsUtf8 feed.now.name }
    ensures { IfOk result (λ json. view json ≡ feed_data job.now feed.now) }
{
    let uri = shown_name(alloc, &job.request.source, &feed.name)?;
    let counts = shown_counts(feed);
    let status = feed_status_text(feed.status);
    state_json(alloc, job, uri.as_str(), status, counts)
}
