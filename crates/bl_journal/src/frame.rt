// One frame of a journal: a gate, four bytes of length, a body.
ghost use Rattle.std.specs.Prelude.{
  ◌≡◌,
  ◌↔◌,
  ◌+◌,
  ◌<◌,
  ◌≤◌,
  ◌^◌,
  length,
  IsTrue,
  IfOk,
  IsErrOf,
  IfSome,
};
ghost use Rattle.bl_outside.specs.Counts.{Rose};
ghost use Rattle.bl_journal.specs.Frames.{behind_gate, length_behind};
ghost use Rattle.bl_journal.specs.Journals.{HasRoom};

use bl_outside::NoMemory;
use std::alloc::Global;

/// The length of the longest body, in bytes: 2^32 - 1.
pub const LONGEST_BODY: u64 = 4294967295;

/// Every gate stands below this place of a journal: 2^40 bytes.
pub const JOURNAL_LIMIT: u64 = 1 << 40;

/// A frame with a body of this length fits behind the gate.
pub fn has_room(gate: u64, length: usize) -> bool
    ensures { IsTrue result ↔ HasRoom gate length }
{
    let length = length as u64;
    length <= LONGEST_BODY && gate < JOURNAL_LIMIT && gate + 5 + length < JOURNAL_LIMIT
}

/// Behind the gate there is place for a body of this length, which isn't 0, and for a next gate.
pub fn is_whole(size: u64, gate: u64, length: u32) -> bool
    ensures { IsTrue result ↔ (0 < length) × (gate + 5 + length < size) }
{
    length > 0 && size.saturating_sub(gate) > 5 + length as u64
}

/// What stands behind the gate: the length, the body and the next gate, closed.
pub fn bytes_behind_gate(alloc: Global, body: &[u8]) -> Result<Vec<u8>, NoMemory>
    ensures { length body.now < 2 ^ 32 → IfOk result (λ bytes. bytes.items ≡ behind_gate body.now) }
{
    let length = (body.len() as u64 % (1 << 32)) as u32;
    let mut bytes = Vec::with_capacity(alloc, body.len() + 5)?;
    bytes.extend_from_slice(&length.to_be_bytes())?;
    bytes.extend_from_slice(body)?;
    bytes.push(0)?;
    Ok(bytes)
}

/// The length of the body behind an open gate. It is 0 where fewer than four bytes are there.
pub fn length_in(front: &[u8]) -> Option<u32>
    ensures { result ≡ length_behind front.now }
{
    match front {
        [1, a, b, c, d, ..] => Some(u32::from_be_bytes([*a, *b, *c, *d])),
        [1, ..] => Some(0),
        _ => None,
    }
}
