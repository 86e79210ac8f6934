// Records as rows.
ghost use Rattle.std.specs.Prelude.{◌≡◌, ◌<◌, ◌^◌, ◌+◌, None, length, IfOk, IfErr, IfSome, OnOk};
ghost use Rattle.std.specs.List.{All};
ghost use Rattle.std.specs.Option.{IfNone};
ghost use Rattle.bl_rows.specs.FirstFaults.{
  Tells,
  first_of,
  many_told,
  record_row,
  row_by,
  told,
  told_or,
  values_in_all,
  whole_code,
};
ghost use Rattle.bl_rows.specs.Rows.{IsRowOf, edge_label, label_count, labels_in, properties_of};
ghost use Rattle.bl_rows.specs.SystemCells.{
  AreCellsOf,
  gathered,
  row_of_cells,
  system_told,
  told_at,
};
ghost use Rattle.bl_value.specs.declared.log_code.LogCode.TheVariants.{IdTooLong, MissingId};
ghost use Rattle.bl_value.specs.ValidColumns.{IsColumns};
ghost use Rattle.bl_value.specs.ValidRows.{HasValues, IsRow};

use crate::labels::labels_in;
use crate::properties::{are_few, read_properties};
use crate::refused::Refused;
use crate::system_cells::{SystemCells, system_cells};
use crate::whole_record::whole_fault;
use bl_outside::{List, NoMemory, Text};
use bl_value::{Columns, LogCode, Property, Row, Side};
use std::alloc::Global;

// What is told of the system cells by the leftmost columns at fault.
fn system_fault(missing: Option<u32>, long: Option<u32>) -> Option<Refused>
    ensures none { IfNone result
        (first_of (told_at MissingId missing) (told_at IdTooLong long) ≡ None) }
    ensures fault { IfSome result
        (Tells (first_of (told_at MissingId missing) (told_at IdTooLong long))) }
{
    match (missing, long) {
        (Some(column), _) => Some(Refused::Fault {
            code: LogCode::MissingId,
            column,
        }),
        (None, Some(column)) => Some(Refused::Fault {
            code: LogCode::IdTooLong,
            column,
        }),
        (None, None) => None,
    }
}

// The system cells of a record that as a whole and in these cells breaks no rule.
fn checked_cells<'a>(
    alloc: Global,
    columns: &Columns,
    fields: &'a [Text],
) -> Result<SystemCells<'a>, Refused>
    requires { length columns.now.uses < 2 ^ 32 }
    ensures cells { IfOk result (λ cells. AreCellsOf columns.now fields.now (gathered cells)) }
    ensures whole { OnOk result (whole_code columns.now fields.now ≡ None) }
    ensures none { OnOk result (system_told columns.now fields.now ≡ None) }
    ensures fault { IfErr result (Tells (told_or (whole_code columns.now fields.now) 0
        (system_told columns.now fields.now))) }
{
    if let Some(code) = whole_fault(columns, fields) {
        return Err(Refused::Fault { code, column: 0 });
    }
    let cells = system_cells(alloc, columns.side, columns.uses.as_slice(), fields)?;
    if let Some(refused) = system_fault(cells.missing, cells.long) {
        return Err(refused);
    }
    Ok(cells)
}

// Refuses a record with too many labels and values.
fn check_count(labels: usize, properties: &[Property]) -> Result<(), Refused>
    ensures none { OnOk result (many_told (labels + values_in_all properties.now) ≡ None) }
    ensures fault { IfErr result (Tells (many_told (labels + values_in_all properties.now))) }
{
    if are_few(labels, properties) {
        return Ok(());
    }
    Err(Refused::Fault {
        code: LogCode::TooManyValues,
        column: 0,
    })
}

// The row of a vertex with these cells.
fn vertex_row(alloc: Global, cells: SystemCells, properties: List<Property>) -> Result<Row, Refused>
    ensures row { IfOk result
        (λ row. row ≡ Row.Vertex cells.entry.id.now (labels_in cells.entry.label.now) properties) }
    ensures none { OnOk result
        (many_told (length (labels_in cells.entry.label.now) + values_in_all properties) ≡ None) }
    ensures fault { IfErr result
        (Tells (many_told (length (labels_in cells.entry.label.now) + values_in_all properties))) }
{
    let labels = labels_in(alloc, cells.label)?;
    check_count(labels.len(), properties.as_slice())?;
    Ok(Row::Vertex {
        id: Text::copy_of(alloc, cells.id)?,
        labels,
        properties,
    })
}

// The label of an edge: the whole cell, or `edge`.
fn edge_label(label_cell: &[u8]) -> &[u8]
    ensures { result.now ≡ edge_label label_cell.now }
{
    if label_cell.is_empty() {
        return b"edge";
    }
    label_cell
}

// The row of an edge with these cells.
fn edge_row(alloc: Global, cells: SystemCells, properties: List<Property>) -> Result<Row, Refused>
    ensures row { IfOk result
        (λ row. row ≡ Row.Edge cells.entry.id.now (edge_label cells.entry.label.now)
        cells.entry.from.now cells.entry.to.now properties) }
    ensures none { OnOk result (many_told (1 + values_in_all properties) ≡ None) }
    ensures fault { IfErr result (Tells (many_told (1 + values_in_all properties))) }
{
    check_count(1, properties.as_slice())?;
    Ok(Row::Edge {
        id: Text::copy_of(alloc, cells.id)?,
        label: Text::copy_of(alloc, edge_label(cells.label))?,
        from: Text::copy_of(alloc, cells.from)?,
        to: Text::copy_of(alloc, cells.to)?,
        properties,
    })
}

// The row of a record with these cells, which as a whole and in these cells breaks no rule.
fn row_with(
    alloc: Global,
    side: Side,
    cells: SystemCells,
    properties: List<Property>,
) -> Result<Row, Refused>
    ensures row { IfOk result (λ row. row ≡ row_of_cells side (gathered cells.entry) properties) }
    ensures none { OnOk result
        (many_told (label_count side cells.entry.label.now + values_in_all properties) ≡ None) }
    ensures fault { IfErr result
        (Tells (many_told (label_count side cells.entry.label.now + values_in_all properties))) }
{
    match side {
        Side::Vertex => vertex_row(alloc, cells, properties),
        Side::Edge => edge_row(alloc, cells, properties),
    }
}

/// The row of a record without a fault.
pub fn row_of(alloc: Global, columns: &Columns, fields: &[Text]) -> Result<Row, Refused>
    requires { length columns.now.uses < 2 ^ 32 }
    ensures row { IfOk result (λ row. row ≡ row_by columns.now.side columns.now.uses fields.now
        (properties_of columns.now fields.now)) }
    ensures none { OnOk result (told columns.now fields.now ≡ None) }
    ensures fault { IfErr result (Tells (told columns.now fields.now)) }
    ensures valid { OnOk result (All HasValues (properties_of columns.now fields.now)) }
{
    let cells = checked_cells(alloc, columns, fields)?;
    let properties = read_properties(alloc, columns.uses.as_slice(), fields)?;
    row_with(alloc, columns.side, cells, properties)
}

/// The row of a record under the columns of its file. A record with a fault is a bad row, with the
/// code and the column of its least fault.
pub fn convert(alloc: Global, columns: &Columns, fields: &List<Text>) -> Result<Row, NoMemory>
    requires { IsColumns columns.now }
    ensures row { IfOk result (IsRowOf columns.now fields.now) }
    ensures value { IfOk result (λ row. row ≡ record_row columns.now fields.now) }
    ensures valid { IfOk result IsRow }
{
    match row_of(alloc, columns, fields.as_slice()) {
        Ok(row) => Ok(row),
        Err(Refused::Fault { code, column }) => Ok(Row::Bad { code, column }),
        Err(Refused::NoMemory) => Err(NoMemory),
    }
}
