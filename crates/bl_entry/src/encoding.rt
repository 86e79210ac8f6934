// Entries as bytes.
ghost use Rattle.std.specs.Prelude.{◌≡◌, ◌++◌, IfOk, OnOk};
ghost use Rattle.bl_entry.specs.Encoding.{entry_bytes};
ghost use Rattle.bl_entry.specs.Valid.{IsEntry};

use crate::Entry;
use crate::buffer::Buffer;
use crate::part::write_list;
use crate::write_parts::{write_end, write_plan, write_request, write_u32, write_u64, write_u128};
use bl_outside::{NoMemory, Text};
use std::alloc::Global;

// The room for a batch at first, in bytes: 1,000 rows of a few short values.
const BATCH_ROOM: usize = 128 * 1024;

// The room for each other entry at first, in bytes.
const SMALL_ROOM: usize = 256;

/// The bytes of an entry.
pub fn encode(alloc: Global, entry: &Entry) -> Result<Text, NoMemory>
    requires { IsEntry entry.now }
    ensures { IfOk result (λ bytes. bytes ≡ entry_bytes entry.now) }
{
    let mut out = Buffer::with_capacity(alloc, room_for(entry))?;
    write_entry(&mut out, entry)?;
    Ok(out.into_text())
}

// So many bytes are taken at first. An entry that needs more has its room grow.
fn room_for(entry: &Entry) -> usize {
    match entry {
        Entry::Batch { .. } => BATCH_ROOM,
        _ => SMALL_ROOM,
    }
}

#[tactic(auto, using(crate::proofs::Appends::joined))]
fn write_entry(out: &mut Buffer, entry: &Entry) -> Result<(), NoMemory>
    requires { IsEntry entry.now }
    ensures { OnOk result (out.new ≡ out.old ++ entry_bytes entry.now) }
{
    match entry {
        Entry::Submit {
            moment,
            job,
            id,
            request,
        } => {
            out.push(1)?;
            write_u64(out, *moment)?;
            write_u32(out, *job)?;
            write_u128(out, *id)?;
            write_request(out, request)
        }
        Entry::Cancel { moment, job } => {
            out.push(2)?;
            write_u64(out, *moment)?;
            write_u32(out, *job)
        }
        Entry::Start { moment, job, plan } => {
            out.push(3)?;
            write_u64(out, *moment)?;
            write_u32(out, *job)?;
            write_plan(out, plan)
        }
        Entry::Batch {
            moment,
            job,
            feed,
            from,
            rows,
            digest,
            duplicates,
            logs,
            changes,
        } => {
            out.push(4)?;
            write_u64(out, *moment)?;
            write_u32(out, *job)?;
            write_u32(out, *feed)?;
            write_u64(out, *from)?;
            write_u32(out, *rows)?;
            out.extend(&digest.bytes)?;
            write_u32(out, *duplicates)?;
            write_list(out, logs)?;
            write_list(out, changes)
        }
        Entry::FeedEnd {
            moment,
            job,
            feed,
            end,
        } => {
            out.push(5)?;
            write_u64(out, *moment)?;
            write_u32(out, *job)?;
            write_u32(out, *feed)?;
            write_end(out, *end)
        }
    }
}
