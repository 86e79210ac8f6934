// The rows of a file behind its header, with the digest of those that were taken.
ghost use Rattle.std.specs.Prelude.{◌≡◌, List as Items, ℕ, IfOk};
ghost use Rattle.bl_rows.specs.Contents.{
  Fields,
  IsShort,
  contents,
  has_no_record,
  header_of,
  rows_of,
};
ghost use Rattle.bl_rows.specs.Digests.{digest_after};
ghost use Rattle.bl_rows.specs.File.{IsSmall};
ghost use Rattle.bl_rows.specs.RowReaders.{GivesRow, Stands};

use crate::file::FileBytes;
use crate::record_digest::{digest_behind, digest_of_header, digest_of_none};
use crate::records::RecordReader;
use bl_outside::{Digest, List, NoMemory, Text};
use std::alloc::Global;
use std::marker::Model;

/// A reader of a file's records, whose bytes it owns. The header was read, and the records behind
/// it are given one after another. Contracts see it as a `Reading` (`specs/Readings`). It is some
/// 16 KiB large, so keep it in one place.
#[derive(Drop)]
pub struct RowReader {
    records: RecordReader,
    header: List<Text>,
    empty: bool,
    taken: u64,
    digest: Digest,
    // Where the text of a record is put together for the digest.
    room: Vec<u8>,
}

impl Model for RowReader {
    ghost use Rattle.bl_rows.specs.Readings.{Reading};

    ghost Value = { Reading };

    ghost view = { λ it. record {
      header = it.header;
      is_empty = it.empty;
      taken = it.taken;
      digest = it.digest.bytes;
      left = it.records;
    } };
}

/// A reader behind the header of the file.
pub fn start(alloc: Global, file: FileBytes) -> Result<RowReader, NoMemory>
    requires { IsSmall file.bytes }
    ensures { IfOk result
        (λ reader. Stands reader (contents file.bytes) 0 (rows_of (contents file.bytes))) }
{
    let mut records = RecordReader::start(alloc, file.bytes)?;
    let mut room = Vec::new(alloc);
    let Some(header) = records.next()? else {
        return Ok(RowReader {
            records,
            header: List::new(alloc),
            empty: true,
            taken: 0,
            digest: digest_of_none(),
            room,
        });
    };
    let digest = digest_of_header(&mut room, &header)?;
    Ok(RowReader {
        records,
        header,
        empty: false,
        taken: 0,
        digest,
        room,
    })
}

impl RowReader {
    /// The first record, and no field where the file has no record.
    pub fn header(&self) -> &List<Text>
        ensures first { (all : Items Fields) (taken : ℕ) (left : Items Fields)
            → Stands self.now all taken left → result.now ≡ header_of all }
        ensures short { (all : Items Fields) (taken : ℕ) (left : Items Fields)
            → Stands self.now all taken left → IsShort result.now }
    {
        &self.header
    }

    /// The file has no record at all.
    pub fn is_empty(&self) -> bool
        ensures { (all : Items Fields) (taken : ℕ) (left : Items Fields)
            → Stands self.now all taken left → result ≡ has_no_record all }
    {
        self.empty
    }

    /// The next record behind the header, and None where none is left. A reader that ran out of
    /// memory may have lost one, and isn't used again.
    pub fn next(&mut self) -> Result<Option<List<Text>>, NoMemory>
        ensures { (all : Items Fields) (taken : ℕ) (left : Items Fields)
            → Stands self.old all taken left → IfOk result (GivesRow all taken left self.new) }
    {
        let Some(fields) = self.records.next()? else {
            return Ok(None);
        };
        self.digest = digest_behind(&mut self.room, &self.digest, &fields)?;
        self.taken = self.taken.saturating_add(1);
        Ok(Some(fields))
    }

    /// The digest of the header and of the records that were taken.
    pub fn digest(&self) -> Digest
        ensures { (all : Items Fields) (taken : ℕ) (left : Items Fields)
            → Stands self.now all taken left → result.bytes ≡ digest_after all taken }
    {
        self.digest
    }

    /// How many records behind the header were taken.
    pub fn taken(&self) -> u64
        ensures { (all : Items Fields) (taken : ℕ) (left : Items Fields)
            → Stands self.now all taken left → result ≡ taken }
    {
        self.taken
    }
}
