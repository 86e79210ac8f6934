// A change, read back from its record.
ghost use Rattle.std.specs.Prelude.{◌≡◌, IfOk};
ghost use Rattle.serde_json.specs.View.{view};
ghost use Rattle.bl_value.specs.Valid.{IsChange};
ghost use Rattle.bl_change.specs.EventText.{change_data, op_name};
ghost use Rattle.bl_change.specs.Found.{Finds, IsChangeIn};
ghost use Rattle.bl_change.specs.declared.operation.Operation.TheVariants as operation;

use crate::EventRefusal;
use crate::members::{id_at, key_at, member_at, text_at};
use crate::operation::{Operation, operation_named};
use crate::value_in::value_in;
use bl_value::{Change, Side};
use serde_json::Value as Json;
use std::alloc::Global;

/// The change that may have this record, with its `op`: no other one has it.
pub fn change_in(alloc: Global, json: &Json, op: &str) -> Result<Change, EventRefusal>
    ensures valid { IfOk result IsChange }
    ensures found { Finds
        (λ change. IsChange change × (op.now ≡ op_name change)
        × (view json.now ≡ change_data change)) result }
{
    let operation = operation_named(text_at(json, "type")?, op)?;
    change_of(alloc, operation, json)
}

// The change, by what it does.
fn change_of(alloc: Global, does: Operation, json: &Json) -> Result<Change, EventRefusal>
    ensures valid { IfOk result IsChange }
    ensures found { Finds (IsChangeIn does (view json.now)) result }
{
    match does {
        Operation::AddLabel => label_in(alloc, json),
        Operation::AddEdge => edge_in(alloc, json),
        Operation::AddValue(side) => added_in(alloc, side, json),
        Operation::RemoveValue(side) => removed_in(alloc, side, json),
    }
}

// A new label of a vertex.
fn label_in(alloc: Global, json: &Json) -> Result<Change, EventRefusal>
    ensures valid { IfOk result IsChange }
    ensures found { Finds (IsChangeIn operation.AddLabel (view json.now)) result }
{
    let id = id_at(alloc, json, "id")?;
    let label = id_at(alloc, member_at(json, "value")?, "value")?;
    Ok(Change::AddLabel { id, label })
}

// A new edge.
fn edge_in(alloc: Global, json: &Json) -> Result<Change, EventRefusal>
    ensures valid { IfOk result IsChange }
    ensures found { Finds (IsChangeIn operation.AddEdge (view json.now)) result }
{
    let id = id_at(alloc, json, "id")?;
    let label = id_at(alloc, member_at(json, "value")?, "value")?;
    let from = id_at(alloc, json, "from")?;
    let to = id_at(alloc, json, "to")?;
    Ok(Change::AddEdge {
        id,
        label,
        from,
        to,
    })
}

// A new value.
fn added_in(alloc: Global, side: Side, json: &Json) -> Result<Change, EventRefusal>
    ensures valid { IfOk result IsChange }
    ensures found { Finds (IsChangeIn (operation.AddValue side) (view json.now)) result }
{
    let id = id_at(alloc, json, "id")?;
    let key = key_at(alloc, json, "key")?;
    let value = value_in(alloc, member_at(json, "value")?)?;
    Ok(Change::AddValue {
        side,
        id,
        key,
        value,
    })
}

// A value that is no longer there.
fn removed_in(alloc: Global, side: Side, json: &Json) -> Result<Change, EventRefusal>
    ensures valid { IfOk result IsChange }
    ensures found { Finds (IsChangeIn (operation.RemoveValue side) (view json.now)) result }
{
    let id = id_at(alloc, json, "id")?;
    let key = key_at(alloc, json, "key")?;
    let value = value_in(alloc, member_at(json, "value")?)?;
    Ok(Change::RemoveValue {
        side,
        id,
        key,
        value,
    })
}
