// Requests read from memory.
ghost use Rattle.std.specs.Prelude.{◌≡◌, IfSome};

use crate::counts::Counts;
use bl_http::{Asked, Buffer, read_request};
use bl_outside::{Faults, MemorySource, NoMemory, Text};
use std::alloc::Global;

/// The most bytes of a piece: those of a packet or two.
const PIECE: usize = 4096;

const REQUEST: &[u8] =
    b"GET /loader?limit=10&includeQueuedLoads=FALSE HTTP/1.1\r\nhost: localhost:8182\r\naccept: */*\r\n\r\n";

// So many requests, one behind the other.
fn input(alloc: Global, count: u64) -> Result<MemorySource, NoMemory> {
    let mut bytes = Text::new(alloc);
    for _ in 0..count {
        bytes.extend(REQUEST)?;
    }
    Ok(MemorySource::new(bytes, PIECE, Faults::none(alloc)))
}

// The bytes of the path of the next request. None where there is none.
fn next_path(alloc: Global, source: &mut MemorySource, buffer: &mut Buffer) -> Option<u64> {
    match read_request(alloc, source, buffer).ok()? {
        Asked::Got(request) => Some(request.path.len() as u64),
        _ => None,
    }
}

/// Reads so many small requests, one after another, and counts the bytes of their paths.
pub fn requests(alloc: Global, count: u64) -> Option<Counts>
    ensures { IfSome result (λ counts. counts.items ≡ count) }
{
    let mut source = input(alloc, count).ok()?;
    let mut buffer = Buffer::new(alloc);
    let mut counts = Counts { items: 0, bytes: 0 };
    for _ in 0..count {
        counts.bytes = counts
            .bytes
            .checked_add(next_path(alloc, &mut source, &mut buffer)?)?;
        counts.items = counts.items.checked_add(1)?;
    }
    Some(counts)
}
