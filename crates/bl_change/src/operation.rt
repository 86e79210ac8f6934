// What a change does, as a record says it by two names.
ghost use Rattle.std.specs.Prelude.{◌≡◌};
ghost use Rattle.bl_value.specs.declared.change.Change.{Change};
ghost use Rattle.bl_change.specs.EventText.{op_name};
ghost use Rattle.bl_change.specs.Found.{Finds, operation_of, record_type};

use crate::EventRefusal;
use bl_value::Side;

/// What a change does, and to what.
#[derive(Clone, Copy, Debug)]
pub enum Operation {
    AddLabel,
    AddEdge,
    AddValue(Side),
    RemoveValue(Side),
}

/// The operation that a record's type and `op` name.
pub fn operation_named(kind: &str, op: &str) -> Result<Operation, EventRefusal>
    ensures { Finds (λ operation. (change : Change) × (operation ≡ operation_of change)
        × (kind.now ≡ record_type change) × (op.now ≡ op_name change)) result }
{
    match (kind, op) {
        ("vl", "ADD") => Ok(Operation::AddLabel),
        ("e", "ADD") => Ok(Operation::AddEdge),
        ("vp", "ADD") => Ok(Operation::AddValue(Side::Vertex)),
        ("ep", "ADD") => Ok(Operation::AddValue(Side::Edge)),
        ("vp", "REMOVE") => Ok(Operation::RemoveValue(Side::Vertex)),
        ("ep", "REMOVE") => Ok(Operation::RemoveValue(Side::Edge)),
        _ => Err(EventRefusal::NotAnEvent),
    }
}
