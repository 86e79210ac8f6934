// One batch of rows: each is admitted into the graph so far, and its changes are applied.
ghost use Rattle.std.specs.Prelude.{◌≡◌, ◌<◌, ◌^◌, ◌-◌, ◌++◌, true, length, IfOk, OnOk, OnErr};
ghost use Rattle.std.specs.List.{All};
ghost use Rattle.bl_value.specs.Valid.{IsChange};
ghost use Rattle.bl_graph.specs.Admission.{admit};
ghost use Rattle.bl_graph.specs.Replay.{IsAfterFront, after, fit};
ghost use Rattle.bl_graph.specs.ValidChanges.{HasValidValues};
ghost use Rattle.bl_graph.specs.ValidGraph.{IsValidGraph};
ghost use Rattle.bl_job.specs.Batches.{batch, so_far, verdict_changes, with_row};
ghost use Rattle.bl_job.specs.Batched.{AreProperRows, AreValidRows, CountsRows, NumbersLogs};

use crate::BatchResult;
use bl_files::LoadRequest;
use bl_graph::{Graph, Verdict};
use bl_outside::{List, NoMemory};
use bl_value::{Change, DigestRow, Row};
use std::alloc::Global;

// Applies changes, and then moves them behind the others.
fn take_changes(
    graph: &mut Graph,
    all: &mut List<Change>,
    changes: List<Change>,
) -> Result<(), NoMemory>
    ensures graph { OnOk result (graph.new ≡ after graph.old changes) }
    ensures changes { OnOk result (all.new ≡ all.old ++ changes) }
    ensures front { OnErr result (IsAfterFront graph.old changes graph.new) }
{
    graph.apply_all(&changes)?;
    all.append(changes)
}

// Takes one row. After want of memory the graph has taken a front of its changes.
fn take_row(
    graph: &mut Graph,
    request: &LoadRequest,
    made: &mut BatchResult,
    row: &Row,
) -> Result<(), NoMemory>
    requires rows { made.old.rows < 2 ^ 32 - 1 }
    requires duplicates { made.old.duplicates < 2 ^ 32 - 1 }
    ensures row { OnOk result
        (so_far graph.new made.new ≡ with_row request.now (so_far graph.old made.old) row.now) }
    ensures front { OnErr result
        (IsAfterFront graph.old
        (verdict_changes (admit graph.old request.now.update_single row.now)) graph.new) }
{
    match graph.admit(request.update_single, row)? {
        Verdict::Changes(changes) => {
            take_changes(graph, &mut made.changes, changes)?;
            made.rows += 1;
            Ok(())
        }
        Verdict::Duplicate => {
            made.rows += 1;
            made.duplicates += 1;
            Ok(())
        }
        Verdict::Refused(code, column) => made.refuse(request.fail_on_error, code, column),
    }
}

// Takes the rows, up to the one that stops the batch.
fn take_rows(
    alloc: Global,
    graph: &mut Graph,
    request: &LoadRequest,
    rows: &List<DigestRow>,
) -> Result<BatchResult, NoMemory>
    requires { length rows.now < 2 ^ 32 }
    ensures batch { IfOk result (λ made.
        so_far graph.new made ≡ batch request.now graph.old rows.now) }
    ensures front { OnErr result
        (IsAfterFront graph.old (batch request.now graph.old rows.now).result.changes graph.new) }
{
    let mut made = BatchResult::nothing_yet(alloc);
    for row in rows.as_slice() {
        take_row(graph, request, &mut made, &row.row)?;
        if made.stop.is_some() {
            return Ok(made);
        }
    }
    Ok(made)
}

/// Takes the rows one after another: each is admitted into the graph so far, and its changes are
/// applied. A refused row is counted and logged, or with `fail_on_error` the batch stops before it.
/// The changes of proper rows fit, each in turn, so a valid graph stays valid. The changes of valid
/// rows are valid where the values of the graph are, and those stay so. After want of memory the
/// graph has taken a front of the changes.
pub fn batch(
    alloc: Global,
    graph: &mut Graph,
    request: &LoadRequest,
    rows: &List<DigestRow>,
) -> Result<BatchResult, NoMemory>
    requires { length rows.now < 2 ^ 32 }
    ensures batch { IfOk result (λ made.
        so_far graph.new made ≡ batch request.now graph.old rows.now) }
    ensures front { OnErr result
        (IsAfterFront graph.old (batch request.now graph.old rows.now).result.changes graph.new) }
    ensures replays { IfOk result (λ made. after graph.old made.changes ≡ graph.new) }
    ensures counts { IfOk result (CountsRows rows.now) }
    ensures logs { IfOk result (NumbersLogs request.now.fail_on_error) }
    ensures fit { IfOk result (λ made. AreProperRows rows.now → fit graph.old made.changes ≡ true) }
    ensures valid { AreProperRows rows.now → IsValidGraph graph.old → IsValidGraph graph.new }
    ensures valid_changes { IfOk result (λ made.
        AreValidRows rows.now → HasValidValues graph.old → All IsChange made.changes) }
    ensures values { AreValidRows rows.now → HasValidValues graph.old → HasValidValues graph.new }
{
    take_rows(alloc, graph, request, rows)
}
