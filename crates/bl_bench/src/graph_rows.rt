// Rows of vertices and edges, as a load of two files has them.
ghost use Rattle.std.specs.Prelude.{◌≡◌, ◌≤◌, ◌<◌, All, true, IfSome, length};
ghost use Rattle.std.specs.List.{IsDistinct};
ghost use Rattle.std.specs.Ordering.{eq_by_cmp};
ghost use Rattle.bl_value.specs.Order.{value_cmp};
ghost use Rattle.bl_value.specs.Valid.{IsId, IsKey, IsValue};
ghost use Rattle.bl_value.specs.ValidRows.{AreLabels, AreProperties, IsProperty, IsRow};

use bl_outside::{List, Text};
use bl_value::{Property, Row, Value};
use std::alloc::Global;

/// The numbers of a row differ from those of the row before by this.
const STEP: u32 = 7;

/// The first of January 2020, in seconds from 1970.
const NEW_YEAR: i64 = 1_577_836_800;

const DAY: i64 = 86_400;

// An id, a label or a key.
fn word(alloc: Global, text: &str) -> Option<Text>
    ensures id { IfSome result IsId }
    ensures key { IfSome result IsKey }
{
    if text.is_empty() || text.len() > 100 {
        return None;
    }
    Text::of_str(alloc, text).ok()
}

// A letter and a number.
fn id(alloc: Global, letter: &str, number: u32) -> Option<Text>
    ensures { IfSome result IsId }
{
    let text = format!(in alloc; "{letter}{number}").ok()?;
    word(alloc, text.as_str())
}

fn one_value(alloc: Global, value: Value) -> Option<List<Value>>
    requires { IsValue value }
    ensures valid { IfSome result (All IsValue) }
    ensures one { IfSome result (λ values. length values ≡ 1) }
    ensures differ { IfSome result (IsDistinct (eq_by_cmp value_cmp)) }
{
    let mut values = List::new(alloc);
    let Ok(()) = values.push(value) else {
        return None;
    };
    Some(values)
}

fn property(alloc: Global, key: &str, column: u32, single: bool, value: Value) -> Option<Property>
    requires { IsValue value }
    ensures valid { IfSome result IsProperty }
    ensures single { IfSome result (λ property. property.single ≡ single) }
{
    let key = word(alloc, key)?;
    let values = one_value(alloc, value)?;
    Some(Property {
        key,
        column,
        single,
        values,
    })
}

fn one_property(alloc: Global, property: Property) -> Option<List<Property>>
    requires { IsProperty property }
    ensures valid { IfSome result AreProperties }
    ensures single { property.single ≡ true
        → IfSome result (All (λ property. property.single ≡ true)) }
{
    let mut properties = List::new(alloc);
    let Ok(()) = properties.push(property) else {
        return None;
    };
    Some(properties)
}

// None also where both have one key.
fn two_properties(alloc: Global, first: Property, second: Property) -> Option<List<Property>>
    requires first { IsProperty first }
    requires second { IsProperty second }
    ensures { IfSome result AreProperties }
{
    if first.key == second.key {
        return None;
    }
    let mut properties = List::new(alloc);
    let Ok(()) = properties.push(first) else {
        return None;
    };
    let Ok(()) = properties.push(second) else {
        return None;
    };
    Some(properties)
}

fn one_label(alloc: Global, label: &str) -> Option<List<Text>>
    ensures { IfSome result AreLabels }
{
    let label = word(alloc, label)?;
    let mut labels = List::new(alloc);
    let Ok(()) = labels.push(label) else {
        return None;
    };
    Some(labels)
}

// One rank and one tag.
fn vertex_properties(alloc: Global, number: u32) -> Option<List<Property>>
    ensures { IfSome result AreProperties }
{
    let rank = Value::Int((number % 1000 * STEP % 1000) as i32);
    let tag = Value::Str(id(alloc, "t", number % 7)?);
    let rank = property(alloc, "rank", 3, true, rank)?;
    let tag = property(alloc, "tags", 4, false, tag)?;
    two_properties(alloc, rank, tag)
}

fn vertex_row(alloc: Global, number: u32) -> Option<Row>
    ensures { IfSome result IsRow }
{
    let id = id(alloc, "v", number)?;
    let labels = one_label(alloc, if number % 2 == 1 { "person" } else { "place" })?;
    let properties = vertex_properties(alloc, number)?;
    Some(Row::Vertex {
        id,
        labels,
        properties,
    })
}

// Where the edge of this number goes: the last of each hundred to a vertex that isn't there.
fn end_of(alloc: Global, number: u32, vertices: u32) -> Option<Text>
    requires { 1 ≤ vertices }
    ensures { IfSome result IsId }
{
    if number % 100 == 99 {
        return id(alloc, "x", number);
    }
    let place = u64::from(number) * u64::from(STEP) % u64::from(vertices);
    id(alloc, "v", place as u32)
}

// A date.
fn edge_properties(alloc: Global, number: u32) -> Option<List<Property>>
    ensures valid { IfSome result AreProperties }
    ensures single { IfSome result (All (λ property. property.single ≡ true)) }
{
    let since = Value::Date(NEW_YEAR + DAY * i64::from(number % 28));
    let since = property(alloc, "since", 5, true, since)?;
    one_property(alloc, since)
}

fn edge_row(alloc: Global, number: u32, vertices: u32) -> Option<Row>
    requires { 1 ≤ vertices }
    ensures { IfSome result IsRow }
{
    let edge = id(alloc, "e", number)?;
    let label = word(alloc, "knows")?;
    let from = id(alloc, "v", number % vertices)?;
    let to = end_of(alloc, number, vertices)?;
    let properties = edge_properties(alloc, number)?;
    Some(Row::Edge {
        id: edge,
        label,
        from,
        to,
        properties,
    })
}

/// The row of this number of so many. The first half are vertices, the others edges, and of each
/// hundred edges the last but one is the one before it again.
pub fn graph_row(alloc: Global, number: u32, rows: u32) -> Option<Row>
    requires some { 2 ≤ rows }
    requires within { number < rows }
    ensures { IfSome result IsRow }
{
    let vertices = rows / 2;
    if number < vertices {
        return vertex_row(alloc, number);
    }
    let edge = number - vertices;
    edge_row(
        alloc,
        if edge % 100 == 98 { edge - 1 } else { edge },
        vertices,
    )
}
