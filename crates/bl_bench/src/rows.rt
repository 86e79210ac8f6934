// The rows of a file in memory: read by `csv` alone, and read, digested and converted.
ghost use Rattle.std.specs.Prelude.{◌≡◌, ◌≤◌, ◌<◌, ◌^◌, List as Items, ℕ, length, sum_by, IfSome};
ghost use Rattle.bl_value.specs.ValidColumns.{IsColumns};
ghost use Rattle.bl_rows.specs.Contents.{Fields, contents, rows_of};
ghost use Rattle.bl_rows.specs.RowReaders.{Stands};
ghost use Rattle.bl_bench.specs.Counting.{CountsRows};

use crate::counts::Counts;
use bl_header::read_header;
use bl_outside::{List, NoMemory, Text};
use bl_rows::{FILE_LIMIT, FileBytes, RowReader, convert, start};
use bl_value::{Columns, Row};
use csv::{ByteRecord, ReaderBuilder};
use std::alloc::Global;
use std::io::Cursor;

const HEADER: &[u8] =
    b"~id,~label,ok:Bool,small:Byte,short:Short,number:Int,long:Long,name,since:Date,tags:String[]\n";

// Adds a row of ten cells.
fn push_row(alloc: Global, file: &mut Text, number: u64) -> Result<(), NoMemory> {
    let row = format!(in alloc;
        "v{number},person,true,-7,1200,{number},5000000000,a name of some length,2020-02-29T23:59:59Z,red;green;blue\n"
    )?;
    file.extend(row.as_bytes())
}

// A file of so many rows.
fn file_of(alloc: Global, records: u64) -> Result<Text, NoMemory> {
    let mut file = Text::copy_of(alloc, HEADER)?;
    for number in 0..records {
        push_row(alloc, &mut file, number)?;
    }
    Ok(file)
}

// The bytes of fields, together. None where the count is at its end.
fn field_bytes(fields: &List<Text>) -> Option<u64>
    ensures { IfSome result (λ bytes. bytes ≡ sum_by length fields.now) }
{
    let mut bytes: u64 = 0;
    for field in fields.as_slice() {
        bytes = bytes.checked_add(field.len() as u64)?;
    }
    Some(bytes)
}

/// Reads the rows by `csv` alone, and counts them and the bytes of their fields.
pub fn records(alloc: Global, records: u64) -> Option<Counts> {
    let file = file_of(alloc, records).ok()?;
    let mut reader = ReaderBuilder::new()
        .has_headers(false)
        .from_reader(alloc, Cursor::new(file.into_vec().ok()?));
    let mut row = ByteRecord::new(alloc);
    let mut bytes: u64 = 0;
    reader.read_byte_record(&mut row).ok()?;
    for items in 0..u64::MAX {
        if !reader.read_byte_record(&mut row).ok()? {
            return Some(Counts { items, bytes });
        }
        bytes = bytes.checked_add(row.as_slice().len() as u64)?;
    }
    None
}

// The columns of the header that was read.
fn columns_of(alloc: Global, reader: &RowReader) -> Option<Columns>
    requires { (all : Items Fields) × (taken : ℕ) × (left : Items Fields)
        × Stands reader.now all taken left }
    ensures { IfSome result IsColumns }
{
    let Ok(columns) = read_header(alloc, reader.header()) else {
        return None;
    };
    Some(columns)
}

// Converts a record, and gives the bytes of its fields. None where it is a bad one.
fn convert_one(alloc: Global, columns: &Columns, fields: &List<Text>) -> Option<u64>
    requires { IsColumns columns.now }
    ensures { IfSome result (λ bytes. bytes ≡ sum_by length fields.now) }
{
    let Ok(row) = convert(alloc, columns, fields) else {
        return None;
    };
    if let Row::Bad { .. } = row {
        return None;
    }
    field_bytes(fields)
}

// Takes, digests and converts all records that are left.
fn convert_left(alloc: Global, columns: &Columns, reader: &mut RowReader) -> Option<Counts>
    requires { IsColumns columns.now }
    ensures { (all : Items Fields) (taken : ℕ) (left : Items Fields) →
        Stands reader.old all taken left → IfSome result (CountsRows left) }
{
    let mut bytes: u64 = 0;
    for items in 0..u64::MAX {
        let Ok(found) = reader.next() else {
            return None;
        };
        let Some(fields) = found else {
            return Some(Counts { items, bytes });
        };
        bytes = bytes.checked_add(convert_one(alloc, columns, &fields)?)?;
    }
    None
}

/// Reads, digests and converts the same rows, and counts them and the bytes of their fields.
pub fn converted(alloc: Global, records: u64) -> Option<Counts> {
    let Ok(bytes) = file_of(alloc, records) else {
        return None;
    };
    if bytes.len() > FILE_LIMIT {
        return None;
    }
    convert_file(alloc, FileBytes { bytes })
}

// The records of a file, all converted.
fn convert_file(alloc: Global, file: FileBytes) -> Option<Counts>
    requires { length file.bytes ≤ 268435456 }
    ensures { IfSome result (CountsRows (rows_of (contents file.bytes))) }
{
    let Ok(mut reader) = start(alloc, file) else {
        return None;
    };
    let columns = columns_of(alloc, &reader)?;
    convert_left(alloc, &columns, &mut reader)
}
