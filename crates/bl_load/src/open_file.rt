// A file that is read.
ghost use Rattle.std.specs.Prelude.{◌≡◌, ◌≢◌, ◌≤◌, ◌+◌, ◌<◌, ◌^◌, [], List as Items, length, sum, IfOk, OnOk};
ghost use Rattle.bl_rows.specs.Contents.{Fields};
ghost use Rattle.bl_value.specs.declared.row.DigestRow.{DigestRow as RowValue};
ghost use Rattle.bl_world.specs.Makings.{digest_behind};
ghost use Rattle.bl_load.specs.Gathering.{digest_rows};

use crate::batch_rows::batch_rows;
use crate::gathering::{Gathered, gather};
use bl_outside::{Digest, List, NoMemory, Text};
use bl_rows::RowReader;
use bl_value::{Columns, DigestRow, Row};
use bl_workers::{Gate, convert_all};
use std::alloc::Global;
use std::mem;
use std::thread::Threads;

/// A file that is read, and how far. It is some 16 KiB large.
#[derive(Drop)]
pub struct OpenFile {
    /// The path of the source, and the file's name there.
    pub source: Text,
    pub name: Text,
    pub columns: Columns,
    pub reader: RowReader,
    /// How many of its records were handed out, and the digest behind them.
    pub taken: u64,
    pub digest: Digest,
    /// The rows that come next, and the bytes of the fields of each.
    pub rows: List<DigestRow>,
    pub sizes: List<u64>,
}

// Each row with its digest.
fn digest_rows(
    alloc: Global,
    rows: List<Row>,
    digests: &List<Digest>,
) -> Result<List<DigestRow>, NoMemory>
    requires { length digests.now ≡ length rows }
    ensures { IfOk result (λ them. them ≡ digest_rows rows digests.now) }
{
    let digests = digests.as_slice();
    let mut them = List::with_capacity(alloc, digests.len())?;
    let mut left = rows.into_vec().into_iter();
    while let Some(row) = left.next() {
        let digest = digests[them.len()];
        them.push(DigestRow { row, digest })?;
    }
    Ok(them)
}

// The bytes of the rows that wait, or less where they are too many to count.
fn bytes_of(sizes: &[u64]) -> u64
    ensures { result ≤ sum sizes.now }
{
    let mut bytes: u64 = 0;
    for size in sizes {
        bytes = bytes.saturating_add(*size);
    }
    bytes
}

// The digest behind rows, where it was this one before them.
fn last_digest(before: Digest, rows: &[DigestRow]) -> Digest
    ensures { result ≡ digest_behind before rows.now }
{
    match rows.last() {
        Some(row) => row.digest,
        None => before,
    }
}

impl OpenFile {
    ghost use Rattle.bl_load.specs.OpenFiles.{IsOpen, IsSomeOpen};
    ghost use Rattle.bl_load.specs.Batching.{HandsOut, IsRefilled, TakesNext};
    ghost use Rattle.bl_job.specs.Batched.{AreValidRows};

    // Reads as many records as make a batch together with the rows that wait, and converts them. A
    // file that ran out of memory isn't used again.
    fn refill<R: Threads + Sync, G: Gate>(
        &mut self,
        rt: &R,
        alloc: Global,
        gate: &G,
    ) -> Result<(), NoMemory>
        requires { IsSomeOpen self.old }
        ensures { (header : Fields) (records : Items Fields)
            → IsOpen header records self.old
            → OnOk result (IsRefilled header records self.old self.new) }
    {
        let rows = self.rows.len() as u64;
        let got = gather(
            alloc,
            &mut self.reader,
            rows,
            bytes_of(self.sizes.as_slice()),
        )?;
        let Gathered {
            records,
            digests,
            sizes,
        } = got;
        let rows = convert_all(rt, alloc, gate, &self.columns, &records)?;
        self.rows.append(digest_rows(alloc, rows, &digests)?)?;
        self.sizes.append(sizes)?;
        Ok(())
    }

    // Hands out the first so many rows that wait.
    fn hand_out(&mut self, alloc: Global, count: usize) -> Result<List<DigestRow>, NoMemory>
        requires some { IsSomeOpen self.old }
        requires count { count ≤ length self.old.rows }
        ensures { (header : Fields) (records : Items Fields)
            → IsOpen header records self.old
            → IfOk result (HandsOut header records self.old count self.new) }
    {
        let mut front = mem::replace(&mut self.rows, List::new(alloc)).into_vec();
        self.rows = List::from_vec(front.split_off(count)?);
        self.sizes.drop_front(count);
        self.taken += count as u64;
        self.digest = last_digest(self.digest, front.as_slice());
        Ok(List::from_vec(front))
    }

    /// The next rows, up to the one with which their batch is full; none where all were handed out.
    /// A file that ran out of memory isn't used again.
    pub fn next_rows<R: Threads + Sync, G: Gate>(
        &mut self,
        rt: &R,
        alloc: Global,
        gate: &G,
    ) -> Result<List<DigestRow>, NoMemory>
        requires { IsSomeOpen self.old }
        ensures rows { (header : Fields) (records : Items Fields)
            → IsOpen header records self.old
            → IfOk result (TakesNext header records self.old self.new) }
        ensures valid { IfOk result (λ rows. AreValidRows rows) }
        ensures few { IfOk result (λ rows. length rows ≤ 1000) }
        ensures from { IfOk result (λ rows. self.old.taken + length rows < 2 ^ 40) }
    {
        self.refill(rt, alloc, gate)?;
        let count = batch_rows(self.rows.as_slice(), self.sizes.as_slice());
        self.hand_out(alloc, count)
    }
}
