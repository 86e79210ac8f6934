// The property cells of a record.
ghost use Rattle.std.specs.Prelude.{
  ◌≡◌,
  ◌≤◌,
  ◌<◌,
  ◌^◌,
  ◌++◌,
  ◌+◌,
  nat_le,
  None,
  length,
  IfOk,
  IfErr,
  OnOk,
};
ghost use Rattle.std.specs.List.{All};
ghost use Rattle.std.specs.Str.{IsUtf8};
ghost use Rattle.bl_value.specs.Valid.{IsValue};
ghost use Rattle.bl_rows.specs.FirstFaults.{
  Tells,
  TellsOf,
  first_told,
  refused_code,
  values_in_all,
};
ghost use Rattle.bl_rows.specs.Rows.{properties_from, property_in, value_limit, values_in};
ghost use Rattle.bl_value.specs.ValidRows.{HasValues};

use crate::refused::Refused;
use bl_outside::{List, Text};
use bl_value::{CellRefusal, Column, ColumnUse, LogCode, Property, Value, read_text_values};
use std::alloc::Global;

/// The most labels and values that a record may have together.
const VALUE_LIMIT: usize = 4_096;

// The values of a property cell.
fn values_in(
    alloc: Global,
    number: u32,
    column: &Column,
    cell: &[u8],
) -> Result<List<Value>, Refused>
    requires short { length cell.now < 2 ^ 32 }
    requires text { IsUtf8 cell.now }
    ensures values { IfOk result (λ values. values ≡ values_in column.now cell.now) }
    ensures none { OnOk result (refused_code (ColumnUse.Property column.now) cell.now ≡ None) }
    ensures fault { IfErr result
        (TellsOf (refused_code (ColumnUse.Property column.now) cell.now) number) }
    ensures valid { IfOk result (λ values. All IsValue values) }
{
    match read_text_values(alloc, column.kind, column.many, cell) {
        Ok(values) => Ok(values),
        Err(CellRefusal::NotOfType) => Err(Refused::Fault {
            code: LogCode::NotOfType,
            column: number,
        }),
        Err(CellRefusal::OutOfRange) => Err(Refused::Fault {
            code: LogCode::OutOfRange,
            column: number,
        }),
        Err(CellRefusal::NoMemory) => Err(Refused::NoMemory),
        Err(CellRefusal::NotUtf8) => unreachable!(),
    }
}

// Adds the property that a cell sets, if it sets one.
fn add_property(
    alloc: Global,
    number: u32,
    role: &ColumnUse,
    cell: &Text,
    properties: &mut List<Property>,
) -> Result<(), Refused>
    requires short { length cell.now < 2 ^ 32 }
    requires text { IsUtf8 cell.now }
    ensures added { OnOk result
        (properties.new ≡ properties.old ++ property_in number role.now cell.now) }
    ensures none { OnOk result (refused_code role.now cell.now ≡ None) }
    ensures fault { IfErr result (TellsOf (refused_code role.now cell.now) number) }
    ensures valid { All HasValues properties.old → OnOk result (All HasValues properties.new) }
{
    let ColumnUse::Property(column) = role else {
        return Ok(());
    };
    let values = values_in(alloc, number, column, cell.as_slice())?;
    if values.is_empty() {
        return Ok(());
    }
    properties.push(Property {
        key: column.name.copy(alloc)?,
        column: number,
        single: column.single,
        values,
    })?;
    Ok(())
}

/// The properties from left to right.
pub fn read_properties(
    alloc: Global,
    uses: &[ColumnUse],
    fields: &[Text],
) -> Result<List<Property>, Refused>
    requires few { length uses.now < 2 ^ 32 }
    requires texts { All IsUtf8 fields.now }
    requires short { All (λ field. length field < 2 ^ 32) fields.now }
    ensures properties { IfOk result
        (λ properties. properties ≡ properties_from 1 uses.now fields.now) }
    ensures none { OnOk result (first_told refused_code 1 uses.now fields.now ≡ None) }
    ensures fault { IfErr result (Tells (first_told refused_code 1 uses.now fields.now)) }
    ensures valid { IfOk result (λ properties. All HasValues properties) }
{
    let mut properties = List::with_capacity(alloc, uses.len())?;
    for (i, role) in uses.iter().enumerate() {
        let Some(field) = fields.get(i) else {
            break;
        };
        add_property(alloc, (i + 1) as u32, role, field, &mut properties)?;
    }
    Ok(properties)
}

/// The labels and the values are not too many together.
pub fn are_few(labels: usize, properties: &[Property]) -> bool
    ensures { result ≡ nat_le (labels + values_in_all properties.now) value_limit }
{
    let mut room: usize = VALUE_LIMIT;
    if labels > room {
        return false;
    }
    room -= labels;
    for property in properties {
        if property.values.len() > room {
            return false;
        }
        room -= property.values.len();
    }
    true
}
