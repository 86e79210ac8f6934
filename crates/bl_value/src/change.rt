// Changes of the graph.
ghost use Rattle.std.specs.Prelude.{◌≡◌, IfOk};

use crate::{Side, Value};
use bl_outside::{List, NoMemory, Text};
use std::alloc::Global;

/// One change of the graph. A list of changes, applied from left to right, is what a load writes.
#[derive(Debug, PartialEq, Eq, Drop)]
pub enum Change {
    /// A label of a vertex, which is new where it had none.
    AddLabel {
        id: Text,
        label: Text,
    },
    /// A new edge between two vertices.
    AddEdge {
        id: Text,
        label: Text,
        from: Text,
        to: Text,
    },
    /// A value at a key of a vertex or an edge.
    AddValue {
        side: Side,
        id: Text,
        key: Text,
        value: Value,
    },
    /// A value that is no longer there.
    RemoveValue {
        side: Side,
        id: Text,
        key: Text,
        value: Value,
    },
}

// Copies of two texts.
fn copied_texts(alloc: Global, one: &Text, other: &Text) -> Result<(Text, Text), NoMemory>
    ensures { IfOk result (λ copies. (copies.0 ≡ one.now) × (copies.1 ≡ other.now)) }
{
    let one = one.copy(alloc)?;
    let other = other.copy(alloc)?;
    Ok((one, other))
}

// Copies of the id of an owner, a key and a value.
fn copied_value(
    alloc: Global,
    id: &Text,
    key: &Text,
    value: &Value,
) -> Result<(Text, Text, Value), NoMemory>
    ensures { IfOk result (λ copies. (copies.0 ≡ id.now) × ((copies.1 ≡ key.now)
        × (copies.2 ≡ value.now))) }
{
    let (id, key) = copied_texts(alloc, id, key)?;
    let value = value.copy(alloc)?;
    Ok((id, key, value))
}

impl Change {
    /// A copy with memory of its own.
    pub fn copy(&self, alloc: Global) -> Result<Change, NoMemory>
        ensures { IfOk result (λ copy. copy ≡ self.now) }
    {
        match self {
            Change::AddLabel { id, label } => {
                let (id, label) = copied_texts(alloc, id, label)?;
                Ok(Change::AddLabel { id, label })
            }
            Change::AddEdge {
                id,
                label,
                from,
                to,
            } => {
                let (id, label) = copied_texts(alloc, id, label)?;
                let (from, to) = copied_texts(alloc, from, to)?;
                Ok(Change::AddEdge {
                    id,
                    label,
                    from,
                    to,
                })
            }
            Change::AddValue {
                side,
                id,
                key,
                value,
            } => {
                let (id, key, value) = copied_value(alloc, id, key, value)?;
                Ok(Change::AddValue {
                    side: *side,
                    id,
                    key,
                    value,
                })
            }
            Change::RemoveValue {
                side,
                id,
                key,
                value,
            } => {
                let (id, key, value) = copied_value(alloc, id, key, value)?;
                Ok(Change::RemoveValue {
                    side: *side,
                    id,
                    key,
                    value,
                })
            }
        }
    }
}

/// A copy of a list of changes.
pub fn copy_changes(alloc: Global, changes: &List<Change>) -> Result<List<Change>, NoMemory>
    ensures { IfOk result (λ copy. copy ≡ changes.now) }
{
    let mut copy = List::new(alloc);
    for change in changes.as_slice() {
        copy.push(change.copy(alloc)?)?;
    }
    Ok(copy)
}
