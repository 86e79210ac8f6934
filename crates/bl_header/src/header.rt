// The header of a file.
ghost use Rattle.std.specs.Prelude.{◌≡◌, ◌<◌, ◌^◌, length, IfOk};
ghost use Rattle.bl_header.specs.Faults.{has_field, side_of};
ghost use Rattle.bl_header.specs.Headers.{Reads};
ghost use Rattle.bl_value.specs.ValidColumns.{IsColumns};

use crate::HeaderRefusal;
use crate::column::read_columns;
use bl_outside::{List, Text};
use bl_value::{Columns, Side, without_spaces};
use std::alloc::Global;

/// The most columns that a file may have.
pub const COLUMN_LIMIT: usize = 1_024;

/// What the columns of a file are for, by the fields of its first record. More than 1,024 fields
/// are refused before all else, then the leftmost column with a fault, then a missing `~id`, then
/// an end of an edge without the other.
pub fn read_header(alloc: Global, fields: &List<Text>) -> Result<Columns, HeaderRefusal>
    requires { length fields.now < 2 ^ 32 }
    ensures value { Reads fields.now result }
    ensures valid { IfOk result IsColumns }
{
    if fields.len() > COLUMN_LIMIT {
        return Err(HeaderRefusal::TooManyColumns(fields.len() as u32));
    }
    let fields = fields.as_slice();
    let side = side_of(fields);
    let uses = read_columns(alloc, side, fields)?;
    if !has_field(fields, b"~id") {
        return Err(HeaderRefusal::NoId);
    }
    if has_field(fields, b"~from") != has_field(fields, b"~to") {
        return Err(HeaderRefusal::HalfEdge);
    }
    Ok(Columns { side, uses })
}

// A file with `~from` or `~to` is about edges.
fn side_of(fields: &[Text]) -> Side
    ensures { result ≡ side_of fields.now }
{
    if has_field(fields, b"~from") || has_field(fields, b"~to") {
        Side::Edge
    } else {
        Side::Vertex
    }
}

// Some field is this one, but for the spaces at its ends.
fn has_field(fields: &[Text], word: &[u8]) -> bool
    ensures { result ≡ has_field word.now fields.now }
{
    fields
        .iter()
        .any(|field| without_spaces(field.as_slice()) == word)
}
