// The records of a CSV file, one after another.
ghost use Rattle.std.specs.Prelude.{◌≡◌, List as Items, IfOk};
ghost use Rattle.csv.specs.Records.{fields_of};
ghost use Rattle.bl_rows.specs.Contents.{Fields, contents};
ghost use Rattle.bl_rows.specs.File.{IsSmall};
ghost use Rattle.bl_rows.specs.RecordReaders.{GivesNext, HasLeft, TakesNext};

use bl_outside::{List, NoMemory, Text};
use csv::{ByteRecord, Reader, ReaderBuilder};
use std::alloc::Global;
use std::io::Cursor;
use std::marker::Model;

/// A reader of the records of a file, whose bytes it owns. Contracts see it as the records that
/// are left, and as nothing once memory ran out. It is some 16 KiB large, so keep it in one place.
#[derive(Drop)]
pub struct RecordReader {
    alloc: Global,
    reader: Reader<Cursor<Vec<u8>>>,
    row: ByteRecord,
    ended: bool,
    // Memory ran out, so a record may be lost.
    lost: bool,
}

impl Model for RecordReader {
    ghost use Rattle.std.specs.Prelude.{List as Items};
    ghost use Rattle.std.specs.declared.option.Option.{Option};
    ghost use Rattle.bl_rows.specs.Contents.{Fields};

    ghost Value = { Option (Items Fields) };

    ghost use Rattle.bl_rows.specs.RecordReaders.{IsSound, records_left};

    ghost view = { records_left };

    ghost invariant = { IsSound };
}

// The next record into the row, and whether there was one. Bytes in memory are always read, so an
// error is want of memory.
fn take_record(reader: &mut Reader<Cursor<Vec<u8>>>, row: &mut ByteRecord) -> Result<bool, NoMemory>
    ensures { IfOk result (λ found. TakesNext reader.old found (fields_of row.new) reader.new) }
{
    reader.read_byte_record(row).map_err(|_| NoMemory)
}

// The fields of a record.
fn fields_of_row(alloc: Global, row: &ByteRecord) -> Result<List<Text>, NoMemory>
    ensures { IfOk result (λ fields. fields ≡ fields_of row.now) }
{
    let mut fields = Vec::with_capacity(alloc, row.len())?;
    for index in 0..row.len() {
        if let Some(field) = row.get(index) {
            fields.push(Text::copy_of(alloc, field)?)?;
        }
    }
    Ok(List::from_vec(fields))
}

impl RecordReader {
    /// A reader before the first record.
    pub fn start(alloc: Global, bytes: Text) -> Result<RecordReader, NoMemory>
        requires { IsSmall bytes }
        ensures { IfOk result (λ reader. HasLeft reader (contents bytes)) }
    {
        let bytes = bytes.into_vec()?;
        let reader = ReaderBuilder::new()
            .has_headers(false)
            .flexible(true)
            .from_reader(alloc, Cursor::new(bytes));
        Ok(RecordReader {
            alloc,
            reader,
            row: ByteRecord::new(alloc),
            ended: false,
            lost: false,
        })
    }

    /// The next record. A reader that ran out of memory may have lost one, and gives no other.
    pub fn next(&mut self) -> Result<Option<List<Text>>, NoMemory>
        ensures { (rows : Items Fields) → HasLeft self.old rows
            → IfOk result (GivesNext rows self.new) }
    {
        if self.lost {
            return Err(NoMemory);
        }
        if self.ended {
            return Ok(None);
        }
        self.lost = true;
        self.ended = !take_record(&mut self.reader, &mut self.row)?;
        if self.ended {
            self.lost = false;
            return Ok(None);
        }
        let fields = fields_of_row(self.alloc, &self.row)?;
        self.lost = false;
        Ok(Some(fields))
    }
}
