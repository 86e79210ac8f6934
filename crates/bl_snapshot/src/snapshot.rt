// A snapshot, and the bytes that it is in a slot.
ghost use Rattle.std.specs.Prelude.{◌≡◌, ◌+◌, ◌<◌, ◌^◌, length, IfOk, OnOk};
ghost use Rattle.bl_snapshot.specs.SlotFiles.{behind_gate};

use bl_outside::{NoMemory, Text};
use std::alloc::Global;

/// What a store came to after its first entries.
#[derive(Debug, Drop)]
pub struct Snapshot {
    /// How many entries it counts.
    pub entries: u64,
    /// The place of the gate behind the last of these in the journal.
    pub place: u64,
    pub body: Text,
}

/// What stands behind the gate: the length, the two numbers and the body.
pub fn bytes_behind_gate(alloc: Global, snapshot: &Snapshot) -> Result<Vec<u8>, NoMemory>
    requires { length snapshot.now.body + 16 < 2 ^ 32 }
    ensures bytes { IfOk result (λ bytes. bytes.items ≡ behind_gate snapshot.now) }
    ensures numbers { OnOk result (
        (snapshot.now.entries < 2 ^ 64) × (snapshot.now.place < 2 ^ 64)) }
{
    let body = snapshot.body.as_slice();
    let length = 16 + body.len() as u32;
    let mut bytes = Vec::with_capacity(alloc, body.len() + 20)?;
    bytes.extend_from_slice(&length.to_be_bytes())?;
    bytes.extend_from_slice(&snapshot.entries.to_be_bytes())?;
    bytes.extend_from_slice(&snapshot.place.to_be_bytes())?;
    bytes.extend_from_slice(body)?;
    Ok(bytes)
}
