// Rows are taken into the graph, and their entry is made.
ghost use Rattle.std.specs.Prelude.{
  ◌≡◌,
  ◌+◌,
  ◌<◌,
  ◌≤◌,
  ◌^◌,
  length,
  map,
  take,
  All,
  IfOk,
  IsErrOf,
};
ghost use Rattle.bl_entry.specs.Valid.{IsEntry, IsLog};
ghost use Rattle.bl_files.specs.declared.feed.Feed.{Feed as Fed};
ghost use Rattle.bl_graph.specs.ValidChanges.{HasValidValues};
ghost use Rattle.bl_graph.specs.ValidGraph.{IsValidGraph};
ghost use Rattle.bl_job.specs.Batched.{AreValidRows};
ghost use Rattle.bl_job.specs.Joined.{behind};
ghost use Rattle.bl_outside.specs.declared.digest.Digest.{Digest as Bytes};
ghost use Rattle.bl_queue.specs.declared.job.Job.{Job as Known};
ghost use Rattle.bl_value.specs.Valid.{IsChange};
ghost use Rattle.bl_world.specs.Following.{AreCountsOf, HasMany, IsMade};
ghost use Rattle.bl_world.specs.Makings.{IsRowsEntry, digest_behind};
ghost use Rattle.bl_world.specs.Worlds.{AreNext};

use crate::RowsRefusal;
use crate::fitting::next_feed;
use crate::rows_refusal::MOST_CHANGES;
use bl_entry::Entry;
use bl_files::{FeedEnd, Log};
use bl_graph::{Graph, valid_rows_are_proper};
use bl_job::{BatchResult, batch};
use bl_outside::{Digest, List, NoMemory};
use bl_queue::Jobs;
use bl_value::DigestRow;
use std::alloc::Global;

// The digest behind so many of the rows.
fn digest_behind(rows: &[DigestRow], count: u32) -> Digest
    requires some { 1 ≤ count }
    requires within { count ≤ length rows.now }
    ensures { (before : Bytes) → digest_behind before (take count rows.now) ≡ result }
{
    rows[count as usize - 1].digest
}

fn behind(from: u64, log: Log) -> Log
    requires { from + log.number < 2 ^ 64 }
    ensures is { result ≡ behind from log }
    ensures valid { IsLog result }
{
    Log {
        code: log.code,
        number: from + log.number,
        column: log.column,
    }
}

fn logs_behind(alloc: Global, from: u64, logs: &[Log]) -> Result<List<Log>, NoMemory>
    requires { All (λ log. from + log.number < 2 ^ 64) logs.now }
    ensures are { IfOk result (λ all. all ≡ map (behind from) logs.now) }
    ensures valid { IfOk result (All IsLog) }
{
    let mut all = List::with_capacity(alloc, logs.len())?;
    for log in logs {
        all.push(behind(from, *log))?;
    }
    Ok(all)
}

// The entry of rows that were taken.
fn batch_entry(
    alloc: Global,
    moment: u64,
    job: u32,
    feed: u32,
    from: u64,
    rows: &[DigestRow],
    made: BatchResult,
) -> Result<Entry, RowsRefusal>
    requires some { 1 ≤ made.rows }
    requires room { from + made.rows < 2 ^ 48 }
    requires counts { AreCountsOf rows.now made }
    requires changes { All IsChange made.changes }
    ensures entry { IfOk result (λ entry. (of : Fed) → of.taken ≡ from
        → IsRowsEntry moment job feed of rows.now made entry) }
    ensures valid { IfOk result IsEntry }
    ensures many { IsErrOf result RowsRefusal.TooManyChanges → 2 ^ 32 ≤ length made.changes }
{
    if made.changes.len() > MOST_CHANGES {
        return Err(RowsRefusal::TooManyChanges);
    }
    let logs = logs_behind(alloc, from, made.logs.as_slice())?;
    Ok(Entry::Batch {
        moment,
        job,
        feed,
        from,
        rows: made.rows,
        digest: digest_behind(rows, made.rows),
        duplicates: made.duplicates,
        logs,
        changes: made.changes,
    })
}

// The entry of a row that stops the job.
fn stop_entry(moment: u64, job: u32, feed: u32, from: u64, log: Log) -> Entry
    requires { from + log.number < 2 ^ 64 }
    ensures is { result ≡ Entry.FeedEnd moment job feed (FeedEnd.Stopped (behind from log)) }
    ensures valid { IsEntry result }
{
    Entry::FeedEnd {
        moment,
        job,
        feed,
        end: FeedEnd::Stopped(behind(from, log)),
    }
}

/// The entry of what rows came to.
pub fn entry_of(
    alloc: Global,
    moment: u64,
    job: u32,
    feed: u32,
    from: u64,
    rows: &[DigestRow],
    made: BatchResult,
) -> Result<Entry, RowsRefusal>
    requires some { 1 ≤ length rows.now }
    requires room { from + length rows.now < 2 ^ 48 }
    requires counts { AreCountsOf rows.now made }
    requires changes { All IsChange made.changes }
    ensures entry { IfOk result (λ entry. (of : Fed) → of.taken ≡ from
        → IsRowsEntry moment job feed of rows.now made entry) }
    ensures valid { IfOk result IsEntry }
    ensures many { IsErrOf result RowsRefusal.TooManyChanges → HasMany made }
{
    if made.rows > 0 {
        return batch_entry(alloc, moment, job, feed, from, rows, made);
    }
    match made.stop {
        Some(log) => Ok(stop_entry(moment, job, feed, from, log)),
        None => unreachable!(),
    }
}

/// Takes rows of the file at work into the graph. After want of memory the graph has taken a front
/// of their changes.
pub fn take_rows(
    alloc: Global,
    jobs: &Jobs,
    graph: &mut Graph,
    job: u32,
    feed: u32,
    rows: &List<DigestRow>,
) -> Result<BatchResult, NoMemory>
    requires next { (it : Known) × (of : Fed) × AreNext jobs.now.jobs job feed it of }
    requires few { length rows.now < 2 ^ 32 }
    requires rows { AreValidRows rows.now }
    ensures made { IfOk result (IsMade jobs.now.jobs graph.old job feed rows.now graph.new) }
    ensures valid { IsValidGraph graph.old → IsValidGraph graph.new }
    ensures values { HasValidValues graph.old → HasValidValues graph.new }
{
    valid_rows_are_proper();
    match next_feed(jobs, job, feed) {
        Some((it, _)) => batch(alloc, graph, &it.request, rows),
        None => unreachable!(),
    }
}
