// One load of one file, whose rows are made, over an engine.
ghost use Rattle.std.specs.Prelude.{
  ◌≡◌,
  ◌≢◌,
  ◌≤◌,
  ◌<◌,
  ◌+◌,
  true,
  length,
  IfSome,
  OnSome,
};
ghost use Rattle.std.specs.Int.{div_ceil};
ghost use Rattle.bl_entry.specs.Valid.{IsFound, IsPlan, IsRequest};
ghost use Rattle.bl_job.specs.Batched.{AreValidRows};
ghost use Rattle.bl_value.specs.ValidRows.{IsRow};
ghost use Rattle.bl_world.specs.Worlds.{ArePlanned};
ghost use Rattle.bl_bench.specs.Committing.{Grows, entries_of};

use crate::graph_rows::graph_row;
use bl_engine::{Engine, Turned};
use bl_files::{FeedEnd, FeedKind, Found, LoadRequest, Mode, PlanResult, kept_source};
use bl_outside::{Digest, FixedClock, List, MemoryDisk, Text};
use bl_value::{DigestRow, Row};
use bl_world::Work;
use std::alloc::Global;

/// A call takes so many rows.
const BATCH: u32 = 1_000;

fn request(alloc: Global) -> Option<LoadRequest>
    ensures { IfSome result IsRequest }
{
    let Ok(Some(source)) = kept_source(alloc, b"s3://bench/rows.csv") else {
        return None;
    };
    Some(LoadRequest {
        source,
        format: 0,
        mode: Mode::New,
        fail_on_error: false,
        update_single: false,
        parallelism: 3,
        queue: false,
        dependencies: List::new(alloc),
    })
}

fn submit(alloc: Global, engine: &mut Engine<MemoryDisk>) -> Option<()>
    requires { engine.old.ready ≡ true }
    ensures { OnSome result (Grows 1 engine.old engine.new) }
{
    let request = request(alloc)?;
    let Ok(_) = engine.submit(&mut FixedClock::new(0), 0, request) else {
        return None;
    };
    Some(())
}

fn file(alloc: Global) -> Option<Found>
    ensures { IfSome result IsFound }
{
    Some(Found {
        name: Text::of_str(alloc, "rows.csv").ok()?,
        kind: FeedKind::Vertex,
        digest: Digest { bytes: [0; 32] },
    })
}

fn one_file(alloc: Global) -> Option<PlanResult>
    ensures valid { IfSome result IsPlan }
    ensures files { IfSome result (λ plan. plan ≢ PlanResult.NoPrevious) }
{
    let mut found = List::new(alloc);
    let file = file(alloc)?;
    found.push(file).ok()?;
    Some(PlanResult::Feeds(found))
}

fn are_planned(files: &PlanResult) -> bool
    ensures { result ≡ true → ArePlanned files.now }
{
    files.has_rising_names() && files.has_file_codes()
}

fn plan(alloc: Global, engine: &mut Engine<MemoryDisk>) -> Option<()>
    requires { engine.old.ready ≡ true }
    ensures { OnSome result (Grows 1 engine.old engine.new) }
{
    let files = one_file(alloc)?;
    if !are_planned(&files) {
        return None;
    }
    let work = Work::Plan {
        job: 1,
        previous: 0,
        no_previous: false,
    };
    let Ok(_) = engine.commit_plan(&mut FixedClock::new(0), work, files) else {
        return None;
    };
    Some(())
}

// ---- the rows

fn no_rows(alloc: Global) -> List<DigestRow>
    ensures rows { AreValidRows result }
    ensures none { length result ≡ 0 }
{
    List::new(alloc)
}

// Rows, and one more.
fn and(mut rows: List<DigestRow>, row: Row) -> Option<List<DigestRow>>
    requires rows { AreValidRows rows }
    requires row { IsRow row }
    ensures rows { IfSome result AreValidRows }
    ensures more { IfSome result (λ more. length more ≡ length rows + 1) }
{
    let digest = Digest { bytes: [0; 32] };
    rows.push(DigestRow { row, digest }).ok()?;
    Some(rows)
}

// The rows of these numbers, of so many.
fn batch(alloc: Global, from: u32, to: u32, rows: u32) -> Option<List<DigestRow>>
    requires some { from < to }
    requires within { to ≤ rows }
    requires all { 2 ≤ rows }
    ensures valid { IfSome result AreValidRows }
    ensures each { IfSome result (λ batch. from + length batch ≡ to) }
{
    let mut batch = no_rows(alloc);
    for number in from..to {
        batch = and(batch, graph_row(alloc, number, rows)?)?;
    }
    Some(batch)
}

// The engine takes rows, all of them.
fn take(engine: &mut Engine<MemoryDisk>, from: u32, rows: List<DigestRow>) -> Option<()>
    requires ready { engine.old.ready ≡ true }
    requires some { 1 ≤ length rows }
    requires few { length rows ≤ 1000 }
    requires valid { AreValidRows rows }
    ensures { OnSome result (Grows 1 engine.old engine.new) }
{
    let all = Turned::Rows(rows.len() as u32);
    let work = Work::Continue {
        job: 1,
        feed: 1,
        from: u64::from(from),
    };
    let Ok(turned) = engine.commit_rows(&mut FixedClock::new(0), work, rows) else {
        return None;
    };
    if turned == all { Some(()) } else { None }
}

// The number behind a batch that begins with this one.
fn end_of(from: u32, rows: u32) -> u32
    requires { from < rows }
    ensures some { from < result }
    ensures few { result ≤ from + 1000 }
    ensures within { result ≤ rows }
{
    if rows - from > BATCH {
        from + BATCH
    } else {
        rows
    }
}

// The engine takes the batch that begins with this row.
fn take_batch(alloc: Global, engine: &mut Engine<MemoryDisk>, from: u32, rows: u32) -> Option<()>
    requires ready { engine.old.ready ≡ true }
    requires within { from < rows }
    requires all { 2 ≤ rows }
    ensures { OnSome result (Grows 1 engine.old engine.new) }
{
    let to = end_of(from, rows);
    let batch = batch(alloc, from, to, rows)?;
    take(engine, from, batch)
}

// The engine takes so many rows, batch by batch.
fn take_all(alloc: Global, engine: &mut Engine<MemoryDisk>, rows: u32) -> Option<()>
    requires ready { engine.old.ready ≡ true }
    requires all { 2 ≤ rows }
    ensures { OnSome result (Grows (div_ceil rows 1000) engine.old engine.new) }
{
    for number in 0..rows.div_ceil(BATCH) {
        take_batch(alloc, engine, number * BATCH, rows)?;
    }
    Some(())
}

fn end(engine: &mut Engine<MemoryDisk>, rows: u32) -> Option<()>
    requires { engine.old.ready ≡ true }
    ensures { OnSome result (Grows 1 engine.old engine.new) }
{
    let work = Work::Continue {
        job: 1,
        feed: 1,
        from: u64::from(rows),
    };
    let Ok(_) = engine.commit_end(&mut FixedClock::new(0), work, FeedEnd::Completed) else {
        return None;
    };
    Some(())
}

/// A load of so many rows, from its request to its end.
pub fn load(alloc: Global, engine: &mut Engine<MemoryDisk>, rows: u32) -> Option<()>
    requires ready { engine.old.ready ≡ true }
    requires all { 2 ≤ rows }
    ensures { OnSome result (Grows (entries_of rows) engine.old engine.new) }
{
    submit(alloc, engine)?;
    plan(alloc, engine)?;
    take_all(alloc, engine, rows)?;
    end(engine, rows)
}
