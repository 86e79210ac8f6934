// The cells of the columns whose names begin with `~`: ids and labels.
ghost use Rattle.std.specs.Prelude.{
  ◌≡◌,
  ◌<◌,
  ◌^◌,
  ℕ,
  List as Items,
  if◌then◌else◌,
  Some,
  length,
  IfOk,
};
ghost use Rattle.std.specs.List.{list_all};
ghost use Rattle.bl_value.specs.Cells.{without_spaces};
ghost use Rattle.bl_rows.specs.Rows.{
  is_from_use,
  is_id_use,
  is_key_use,
  is_label_use,
  is_long,
  is_long_label,
  is_short,
  is_to_use,
};
ghost use Rattle.bl_rows.specs.SystemCells.{gather, gathered, with_system};

use crate::labels::labels_in;
use bl_outside::{NoMemory, Text};
use bl_value::{ColumnUse, ID_LIMIT, Side, without_spaces};
use std::alloc::Global;

/// The cells of a record's system columns, without the spaces at their ends. A cell is empty where
/// there is no such column.
#[derive(Clone, Copy, Debug)]
pub struct SystemCells<'a> {
    pub id: &'a [u8],
    pub label: &'a [u8],
    pub from: &'a [u8],
    pub to: &'a [u8],
    /// The leftmost column whose id is missing, from 1.
    pub missing: Option<u32>,
    /// The leftmost column whose id or label is too long, from 1.
    pub long: Option<u32>,
}

fn is_short(text: &[u8]) -> bool
    ensures { result ≡ is_short text.now }
{
    text.len() <= ID_LIMIT
}

// The column holds an id of the record, which on an edge file has two more.
fn is_key_use(side: Side, role: &ColumnUse) -> bool
    ensures { result ≡ is_key_use side role.now }
{
    match role {
        ColumnUse::Id => true,
        ColumnUse::From | ColumnUse::To => match side {
            Side::Vertex => false,
            Side::Edge => true,
        },
        ColumnUse::Label | ColumnUse::Property(_) => false,
    }
}

fn are_short(labels: &[Text]) -> bool
    ensures { result ≡ list_all is_short labels.now }
{
    labels.iter().all(|label| is_short(label.as_slice()))
}

// A vertex has a label that is too long. No label is longer than its cell.
fn has_long_label(alloc: Global, label_cell: &[u8]) -> Result<bool, NoMemory>
    ensures { IfOk result (λ long. long ≡ is_long_label Side.Vertex label_cell.now) }
{
    if is_short(label_cell) {
        return Ok(false);
    }
    let labels = labels_in(alloc, label_cell)?;
    Ok(!are_short(labels.as_slice()))
}

fn is_long_label(alloc: Global, side: Side, label_cell: &[u8]) -> Result<bool, NoMemory>
    ensures { IfOk result (λ long. long ≡ is_long_label side label_cell.now) }
{
    match side {
        Side::Vertex => has_long_label(alloc, label_cell),
        Side::Edge => Ok(!is_short(label_cell)),
    }
}

// The cell is an id or a label that is too long.
fn is_long(alloc: Global, side: Side, role: &ColumnUse, cell: &[u8]) -> Result<bool, NoMemory>
    ensures { IfOk result
        (λ long. (field : Items ℕ) → cell.now ≡ without_spaces field
        → long ≡ is_long side role.now field) }
{
    if let ColumnUse::Label = role {
        return is_long_label(alloc, side, cell);
    }
    Ok(is_key_use(side, role) && !is_short(cell))
}

// The cells with one more, that of this column.
fn with_cell<'a>(later: SystemCells<'a>, role: &ColumnUse, cell: &'a [u8]) -> SystemCells<'a>
    ensures id { result.id.now ≡ (if is_id_use role.now then cell.now else later.entry.id.now) }
    ensures label { result.label.now
        ≡ (if is_label_use role.now then cell.now else later.entry.label.now) }
    ensures from { result.from.now
        ≡ (if is_from_use role.now then cell.now else later.entry.from.now) }
    ensures to { result.to.now ≡ (if is_to_use role.now then cell.now else later.entry.to.now) }
    ensures missing { result.missing ≡ later.entry.missing }
    ensures long { result.long ≡ later.entry.long }
{
    match role {
        ColumnUse::Id => SystemCells { id: cell, ..later },
        ColumnUse::Label => SystemCells {
            label: cell,
            ..later
        },
        ColumnUse::From => SystemCells {
            from: cell,
            ..later
        },
        ColumnUse::To => SystemCells { to: cell, ..later },
        ColumnUse::Property(_) => later,
    }
}

fn number_if(test: bool, number: u32, other: Option<u32>) -> Option<u32>
    ensures { result ≡ (if test then Some number else other) }
{
    if test { Some(number) } else { other }
}

// The same of the cells and of the faults.
fn with_column<'a>(
    alloc: Global,
    side: Side,
    number: u32,
    role: &ColumnUse,
    field: &'a [u8],
    later: SystemCells<'a>,
) -> Result<SystemCells<'a>, NoMemory>
    ensures { IfOk result
        (λ cells. gathered cells
        ≡ with_system side number role.now field.now (gathered later.entry)) }
{
    if let ColumnUse::Property(_) = role {
        return Ok(later);
    }
    let cell = without_spaces(field);
    let is_missing = is_key_use(side, role) && cell.is_empty();
    let is_long = is_long(alloc, side, role, cell)?;
    Ok(SystemCells {
        missing: number_if(is_missing, number, later.missing),
        long: number_if(is_long, number, later.long),
        ..with_cell(later, role, cell)
    })
}

/// The system cells of a record, gathered from the right, so that the leftmost fault is kept.
pub fn system_cells<'a>(
    alloc: Global,
    side: Side,
    uses: &[ColumnUse],
    fields: &'a [Text],
) -> Result<SystemCells<'a>, NoMemory>
    requires few { length uses.now < 2 ^ 32 }
    requires same { length fields.now ≡ length uses.now }
    ensures { IfOk result (λ cells. gathered cells ≡ gather side 1 uses.now fields.now) }
{
    let mut cells = SystemCells {
        id: &[],
        label: &[],
        from: &[],
        to: &[],
        missing: None,
        long: None,
    };
    for i in (0..uses.len()).rev() {
        let number = (i + 1) as u32;
        cells = with_column(alloc, side, number, &uses[i], fields[i].as_slice(), cells)?;
    }
    Ok(cells)
}
