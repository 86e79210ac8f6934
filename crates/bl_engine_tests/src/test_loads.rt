// What is handed in to an engine.
ghost use Rattle.std.specs.Prelude.{◌≡◌, ◌≢◌, ◌+◌, All, true, length, IfSome};
ghost use Rattle.bl_entry.specs.Valid.{IsFound, IsPlan, IsRequest};
ghost use Rattle.bl_job.specs.Batched.{AreValidRows};
ghost use Rattle.bl_value.specs.Valid.{IsId};
ghost use Rattle.bl_value.specs.ValidRows.{AreLabels, AreProperties, IsRow};

use bl_files::{FeedKind, Found, LoadRequest, Mode, PlanResult, kept_source};
use bl_outside::{Digest, List, Text};
use bl_value::{DigestRow, LogCode, Property, Row};
use std::alloc::Global;

/// A load, which may wait behind another one or not.
pub fn request(alloc: Global, queue: bool) -> Option<LoadRequest>
    ensures { IfSome result IsRequest }
{
    let Ok(Some(source)) = kept_source(alloc, b"s3://b/people.csv") else {
        return None;
    };
    Some(LoadRequest {
        source,
        format: 0,
        mode: Mode::New,
        fail_on_error: false,
        update_single: false,
        parallelism: 3,
        queue,
        dependencies: List::new(alloc),
    })
}

fn file(alloc: Global, name: &str, kind: FeedKind) -> Option<Found>
    ensures { IfSome result IsFound }
{
    if name.len() > 100 {
        return None;
    }
    Some(Found {
        name: Text::of_str(alloc, name).ok()?,
        kind,
        digest: Digest { bytes: [0; 32] },
    })
}

// Files, and one more.
fn and_file(mut found: List<Found>, file: Found) -> Option<List<Found>>
    requires found { All IsFound found }
    requires file { IsFound file }
    ensures found { IfSome result (All IsFound) }
    ensures more { IfSome result (λ more. length more ≡ length found + 1) }
{
    found.push(file).ok()?;
    Some(found)
}

fn no_files(alloc: Global) -> List<Found>
    ensures found { All IsFound result }
    ensures none { length result ≡ 0 }
{
    List::new(alloc)
}

/// One vertex file.
pub fn one_file(alloc: Global) -> Option<PlanResult>
    ensures valid { IfSome result IsPlan }
    ensures files { IfSome result (λ plan. plan ≢ PlanResult.NoPrevious) }
{
    let file = file(alloc, "people.csv", FeedKind::Vertex)?;
    let found = and_file(no_files(alloc), file)?;
    Some(PlanResult::Feeds(found))
}

/// An edge file and a vertex file.
pub fn two_files(alloc: Global) -> Option<PlanResult>
    ensures valid { IfSome result IsPlan }
    ensures files { IfSome result (λ plan. plan ≢ PlanResult.NoPrevious) }
{
    let edges = file(alloc, "edges.csv", FeedKind::Edge)?;
    let vertices = file(alloc, "vertices.csv", FeedKind::Vertex)?;
    let found = and_file(no_files(alloc), edges)?;
    let found = and_file(found, vertices)?;
    Some(PlanResult::Feeds(found))
}

fn no_rows(alloc: Global) -> List<DigestRow>
    ensures rows { AreValidRows result }
    ensures none { length result ≡ 0 }
{
    List::new(alloc)
}

// Rows, and one more.
fn and(mut rows: List<DigestRow>, row: Row) -> Option<List<DigestRow>>
    requires rows { AreValidRows rows }
    requires row { IsRow row }
    ensures rows { IfSome result AreValidRows }
    ensures more { IfSome result (λ more. length more ≡ length rows + 1) }
{
    let digest = Digest { bytes: [1; 32] };
    rows.push(DigestRow { row, digest }).ok()?;
    Some(rows)
}

/// A row whose second cell is no number.
pub fn one_row(alloc: Global) -> Option<List<DigestRow>>
    ensures rows { IfSome result AreValidRows }
    ensures one { IfSome result (λ rows. length rows ≡ 1) }
{
    let row = Row::Bad {
        code: LogCode::NotOfType,
        column: 2,
    };
    and(no_rows(alloc), row)
}

// An id or a label.
fn word(alloc: Global, text: &str) -> Option<Text>
    ensures { IfSome result IsId }
{
    if text.is_empty() || text.len() > 100 {
        return None;
    }
    Text::of_str(alloc, text).ok()
}

// The label of a person.
fn labels(alloc: Global) -> Option<List<Text>>
    ensures { IfSome result AreLabels }
{
    let mut labels = List::new(alloc);
    let label = word(alloc, "person")?;
    let Ok(()) = labels.push(label) else {
        return None;
    };
    Some(labels)
}

fn no_properties(alloc: Global) -> List<Property>
    ensures valid { AreProperties result }
    ensures single { All (λ property. property.single ≡ true) result }
{
    List::new(alloc)
}

fn person(alloc: Global, id: &str) -> Option<Row>
    ensures { IfSome result IsRow }
{
    let id = word(alloc, id)?;
    let labels = labels(alloc)?;
    let properties = no_properties(alloc);
    Some(Row::Vertex {
        id,
        labels,
        properties,
    })
}

fn acquaintance(alloc: Global) -> Option<Row>
    ensures { IfSome result IsRow }
{
    let id = word(alloc, "e1")?;
    let label = word(alloc, "knows")?;
    let from = word(alloc, "v1")?;
    let to = word(alloc, "v2")?;
    let properties = no_properties(alloc);
    Some(Row::Edge {
        id,
        label,
        from,
        to,
        properties,
    })
}

pub fn two_vertices(alloc: Global) -> Option<List<DigestRow>>
    ensures rows { IfSome result AreValidRows }
    ensures two { IfSome result (λ rows. length rows ≡ 2) }
{
    let first = person(alloc, "v1")?;
    let second = person(alloc, "v2")?;
    let rows = and(no_rows(alloc), first)?;
    and(rows, second)
}

/// An edge between the two vertices.
pub fn one_edge(alloc: Global) -> Option<List<DigestRow>>
    ensures rows { IfSome result AreValidRows }
    ensures one { IfSome result (λ rows. length rows ≡ 1) }
{
    let edge = acquaintance(alloc)?;
    and(no_rows(alloc), edge)
}
