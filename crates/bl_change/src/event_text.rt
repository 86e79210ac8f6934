// The text of an event: compact JSON, one function for each object of it.
ghost use Rattle.std.specs.Prelude.{◌≡◌, codes, IfOk, OnOk};
ghost use Rattle.std.specs.Str.{IsUtf8};
ghost use Rattle.serde_json.specs.Data.{string, put as with_member};
ghost use Rattle.serde_json.specs.View.{view, members_view};
ghost use Rattle.bl_value.specs.declared.value.Value.TheVariants.{Str};
ghost use Rattle.bl_value.specs.Valid.{IsPrintable, IsPrintableValue};
ghost use Rattle.bl_change.specs.EventText.{
  data_type,
  typed_data,
  property_type,
  element_data,
  edge_data,
  change_data,
  op_name,
  place_data,
  record_data,
  event_data,
  event_text,
};

use crate::Event;
use bl_outside::{NoMemory, Text};
use bl_value::{Change, Side, Value, json_of};
use serde_json::{Map, Value as Json, json, put};
use std::alloc::Global;

/// The text of an event, without a line end.
pub fn print_event(alloc: Global, event: &Event) -> Result<Text, NoMemory>
    requires printable { IsPrintable event.now.change }
    ensures { IfOk result (λ text. text ≡ event_text event.now) }
{
    let json = event_json(alloc, event)?;
    Ok(Text::from_vec(json.to_vec(alloc)?))
}

fn event_json(alloc: Global, event: &Event) -> Result<Json, NoMemory>
    requires printable { IsPrintable event.now.change }
    ensures { IfOk result (λ json. view json ≡ event_data event.now) }
{
    let data = change_json(alloc, &event.change)?;
    let place = place_json(alloc, event.commit, event.op)?;
    let op = operation(&event.change);
    record_json(alloc, event.moment, data, place, event.last, op)
}

fn record_json(
    alloc: Global,
    moment: u64,
    change: Json,
    place: Json,
    last: bool,
    op: &str,
) -> Result<Json, NoMemory>
    ensures { IfOk result (λ json. view json
        ≡ record_data moment (view change) (view place) last op.now) }
{
    let mut members = Map::new(alloc);
    put(&mut members, alloc, "commitTimestamp", Json::from(moment))?;
    put(&mut members, alloc, "data", change)?;
    put(&mut members, alloc, "eventId", place)?;
    if last {
        put(&mut members, alloc, "isLastOp", Json::Bool(true))?;
    }
    put_text(alloc, &mut members, "op", op)?;
    Ok(Json::Object(members))
}

// Where an event stands in the stream.
fn place_json(alloc: Global, commit: u64, op: u64) -> Result<Json, NoMemory>
    ensures { IfOk result (λ json. view json ≡ place_data commit op) }
{
    Ok(json!(in alloc; {"commitNum": commit, "opNum": op})?)
}

fn operation(change: &Change) -> &str
    ensures { result.now ≡ op_name change.now }
{
    match change {
        Change::AddLabel { .. } | Change::AddEdge { .. } | Change::AddValue { .. } => "ADD",
        Change::RemoveValue { .. } => "REMOVE",
    }
}

fn change_json(alloc: Global, change: &Change) -> Result<Json, NoMemory>
    requires printable { IsPrintable change.now }
    ensures { IfOk result (λ json. view json ≡ change_data change.now) }
{
    match change {
        Change::AddLabel { id, label } => {
            let label = label_json(alloc, label.as_str())?;
            element_json(alloc, "vl", id.as_str(), "label", label)
        }
        Change::AddEdge {
            id,
            label,
            from,
            to,
        } => {
            let label = label_json(alloc, label.as_str())?;
            edge_json(alloc, id.as_str(), from.as_str(), to.as_str(), label)
        }
        Change::AddValue {
            side,
            id,
            key,
            value,
        } => property_json(alloc, *side, id, key, value),
        Change::RemoveValue {
            side,
            id,
            key,
            value,
        } => property_json(alloc, *side, id, key, value),
    }
}

fn property_json(
    alloc: Global,
    side: Side,
    id: &Text,
    key: &Text,
    value: &Value,
) -> Result<Json, NoMemory>
    requires id { IsUtf8 id.now }
    requires key { IsUtf8 key.now }
    requires printable { IsPrintableValue value.now }
    ensures { IfOk result (λ json. view json
        ≡ element_data (property_type side) id.now key.now (typed_data value.now)) }
{
    let kind = match side {
        Side::Vertex => "vp",
        Side::Edge => "ep",
    };
    element_json(
        alloc,
        kind,
        id.as_str(),
        key.as_str(),
        value_json(alloc, value)?,
    )
}

fn element_json(
    alloc: Global,
    kind: &str,
    id: &str,
    key: &str,
    value: Json,
) -> Result<Json, NoMemory>
    ensures { IfOk result (λ json. view json ≡ element_data kind.now id.now key.now (view value)) }
{
    Ok(json!(in alloc; {"id": id, "key": key, "type": kind, "value": value})?)
}

fn edge_json(alloc: Global, id: &str, from: &str, to: &str, label: Json) -> Result<Json, NoMemory>
    ensures { IfOk result (λ json. view json ≡ edge_data id.now from.now to.now (view label)) }
{
    let mut members = Map::new(alloc);
    put_text(alloc, &mut members, "from", from)?;
    put_text(alloc, &mut members, "id", id)?;
    put_text(alloc, &mut members, "key", "label")?;
    put_text(alloc, &mut members, "to", to)?;
    put_text(alloc, &mut members, "type", "e")?;
    put(&mut members, alloc, "value", label)?;
    Ok(Json::Object(members))
}

// Adds a text to an object.
fn put_text(
    alloc: Global,
    members: &mut Map<String, Json>,
    name: &str,
    text: &str,
) -> Result<(), NoMemory>
    ensures { OnOk result (members_view members.new.entries
        ≡ with_member name.now (string text.now) (members_view members.old.entries)) }
{
    Ok(put(members, alloc, name, Json::try_from_str(alloc, text)?)?)
}

// A label, as a value with its type.
fn label_json(alloc: Global, label: &str) -> Result<Json, NoMemory>
    ensures { IfOk result (λ json. view json ≡ typed_data (Str label.now)) }
{
    Ok(json!(in alloc; {"dataType": "String", "value": label})?)
}

fn value_json(alloc: Global, value: &Value) -> Result<Json, NoMemory>
    requires printable { IsPrintableValue value.now }
    ensures { IfOk result (λ json. view json ≡ typed_data value.now) }
{
    let data = json_of(alloc, value)?;
    let kind = type_name(value);
    Ok(json!(in alloc; {"dataType": kind, "value": data})?)
}

fn type_name(value: &Value) -> &str
    ensures { result.now ≡ data_type value.now }
{
    match value {
        Value::Bool(_) => "Boolean",
        Value::Byte(_) => "Byte",
        Value::Short(_) => "Short",
        Value::Int(_) => "Int",
        Value::Long(_) => "Long",
        Value::Str(_) => "String",
        Value::Date(_) => "Date",
    }
}
