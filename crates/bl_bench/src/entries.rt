// Entries of the journal, decoded and encoded.
ghost use Rattle.std.specs.Prelude.{◌≡◌, ◌<◌, ◌*◌, length, IfSome};

use crate::counts::Counts;
use bl_entry::{decode, encode};
use bl_outside::{NoMemory, Steps, Text};
use std::alloc::Global;
use std::marker::Brand;
use std::sync::ledger::{Blank, Ledger};

const ROWS: u32 = 1_000;

/// Each row has so many changes.
const CHANGES: u32 = 3;

fn push_u32(bytes: &mut Text, number: u32) -> Result<(), NoMemory> {
    bytes.extend(&number.to_be_bytes())
}

fn push_text(bytes: &mut Text, text: &[u8]) -> Result<(), NoMemory> {
    let Ok(length) = u32::try_from(text.len()) else {
        return Err(NoMemory);
    };
    push_u32(bytes, length)?;
    bytes.extend(text)
}

// A value at a key of the vertex with this number: an Int.
fn push_change(alloc: Global, bytes: &mut Text, row: u32, key: u32) -> Result<(), NoMemory> {
    bytes.extend(&[3, 0])?;
    push_text(bytes, format!(in alloc; "v{row}")?.as_bytes())?;
    push_text(bytes, format!(in alloc; "key{key}")?.as_bytes())?;
    bytes.push(4)?;
    push_u32(bytes, row)
}

fn push_changes(alloc: Global, bytes: &mut Text) -> Result<(), NoMemory> {
    push_u32(bytes, ROWS * CHANGES)?;
    for row in 0..ROWS {
        for key in 0..CHANGES {
            push_change(alloc, bytes, row, key)?;
        }
    }
    Ok(())
}

// The bytes of a batch of 1,000 rows with three values each, and no log.
fn batch_bytes(alloc: Global) -> Result<Text, NoMemory> {
    let mut bytes = Text::new(alloc);
    bytes.push(4)?;
    bytes.extend(&[0; 8])?;
    push_u32(&mut bytes, 1)?;
    push_u32(&mut bytes, 1)?;
    bytes.extend(&[0; 8])?;
    push_u32(&mut bytes, ROWS)?;
    bytes.extend(&[9; 32])?;
    push_u32(&mut bytes, 0)?;
    push_u32(&mut bytes, 0)?;
    push_changes(alloc, &mut bytes)?;
    Ok(bytes)
}

// Decodes the bytes of an entry, and encodes it again. None where they are none.
fn again<L: Ledger>(alloc: Global, bytes: &[u8], steps: &mut Steps<L>) -> Option<Text>
    ensures { IfSome result (λ text. text ≡ bytes.now) }
{
    let Ok(entry) = decode(alloc, bytes, steps) else {
        return None;
    };
    let Ok(text) = encode(alloc, &entry) else {
        return None;
    };
    Some(text)
}

// The same so many times, and the bytes that were written.
fn times<L: Ledger>(alloc: Global, bytes: &[u8], count: u64, blank: Blank) -> Option<u64>
    requires name { blank.name ≡ L.name }
    requires parts { blank.parts ≡ L.parts }
    requires some { 0 < blank.parts }
    ensures { IfSome result (λ written. written ≡ count * length bytes.now) }
{
    let mut steps = Steps::<L>::new(blank);
    let mut written: u64 = 0;
    for _ in 0..count {
        let text = again(alloc, bytes, &mut steps)?;
        written = written.checked_add(text.len() as u64)?;
    }
    Some(written)
}

// The same, with a counter of its own.
fn times_counted(alloc: Global, bytes: &[u8], count: u64) -> Option<u64>
    ensures { IfSome result (λ written. written ≡ count * length bytes.now) }
{
    times::<Brand>(alloc, bytes, count, Blank::new(1))
}

/// Decodes and encodes a batch of 1,000 rows and 3,000 changes so many times, and counts the bytes
/// that were written.
pub fn entries(alloc: Global, count: u64) -> Option<Counts>
    ensures { IfSome result (λ counts. counts.items ≡ count) }
{
    let Ok(bytes) = batch_bytes(alloc) else {
        return None;
    };
    let written = times_counted(alloc, bytes.as_slice(), count)?;
    Some(Counts {
        items: count,
        bytes: written,
    })
}
