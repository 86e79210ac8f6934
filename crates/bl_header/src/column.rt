// What one column is for, or its first fault.
ghost use Rattle.std.specs.Prelude.{
  ◌≡◌,
  ◌<◌,
  ◌≤◌,
  ◌+◌,
  [],
  false,
  map,
  take,
  length,
  slice_index_or,
  IfOk,
  IfErr,
};
ghost use Rattle.std.specs.List.{list_any};
ghost use Rattle.bl_header.specs.Fields.{
  column_use,
  is_name,
  is_single,
  is_system,
  name_of,
  property_column,
  system_column,
  type_of,
};
ghost use Rattle.bl_header.specs.FirstFaults.{
  fault_at,
  own_fault,
  Gives,
  IsCleanBefore,
  IsLeftmost,
  type_fault,
  use_in,
};
ghost use Rattle.bl_header.specs.Headers.{column_limit};
ghost use Rattle.bl_value.specs.ValidColumns.{is_same_use};

use crate::HeaderRefusal;
use crate::field::{is_name, is_system, name_of, system_column, type_of};
use crate::type_text::{Cardinality, TypeName, TypeText};
use bl_outside::{List, Text};
use bl_value::{Column, ColumnUse, Side, without_spaces};
use std::alloc::Global;

/// The uses of all columns, or the refusal of the leftmost that has a fault.
pub fn read_columns(
    alloc: Global,
    side: Side,
    fields: &[Text],
) -> Result<List<ColumnUse>, HeaderRefusal>
    requires { length fields.now ≤ column_limit }
    ensures ok { IfOk result (λ uses. map Some uses ≡ map (use_in side) fields.now) }
    ensures clean { IfOk result (λ uses. IsCleanBefore side fields.now (length fields.now)) }
    ensures err { IfErr result (IsLeftmost side fields.now) }
{
    let mut uses = List::new(alloc);
    for place in 0..fields.len() {
        let found = read_column(alloc, side, uses.as_slice(), fields, place)?;
        uses.push(found)?;
    }
    Ok(uses)
}

// The use of the column at this place, counted from 0, behind those to its left.
fn read_column(
    alloc: Global,
    side: Side,
    left: &[ColumnUse],
    fields: &[Text],
    place: usize,
) -> Result<ColumnUse, HeaderRefusal>
    requires few { length fields.now ≤ column_limit }
    requires within { place < length fields.now }
    requires left { map Some left.now ≡ map (use_in side) (take place fields.now) }
    ensures ok { IfOk result (λ it. use_in side (slice_index_or fields.now place []) ≡ Some it) }
    ensures sound { IfOk result (λ it. fault_at side fields.now place ≡ None) }
    ensures err { IfErr result (Gives (fault_at side fields.now place) (place + 1)) }
{
    let column = place as u32 + 1;
    let field = without_spaces(fields[place].as_slice());
    let found = own_use(alloc, side, column, field)?;
    if is_repeated(left, &found) {
        Err(HeaderRefusal::Repeated(column))
    } else {
        Ok(found)
    }
}

// The same column stands further left.
fn is_repeated(left: &[ColumnUse], found: &ColumnUse) -> bool
    ensures { result ≡ list_any (λ other. is_same_use other found.now) left.now }
{
    left.iter().any(|other| is_same_use(other, found))
}

fn is_same_use(a: &ColumnUse, b: &ColumnUse) -> bool
    ensures { result ≡ is_same_use a.now b.now }
{
    match (a, b) {
        (ColumnUse::Id, ColumnUse::Id) => true,
        (ColumnUse::Label, ColumnUse::Label) => true,
        (ColumnUse::From, ColumnUse::From) => true,
        (ColumnUse::To, ColumnUse::To) => true,
        (ColumnUse::Property(a), ColumnUse::Property(b)) => a.name.as_slice() == b.name.as_slice(),
        _ => false,
    }
}

// What a column is for, whatever stands to its left.
fn own_use(alloc: Global, side: Side, column: u32, field: &[u8]) -> Result<ColumnUse, HeaderRefusal>
    ensures ok { IfOk result (λ it. column_use side field.now ≡ Some it) }
    ensures sound { IfOk result (λ it. own_fault side field.now ≡ None) }
    ensures err { IfErr result (Gives (own_fault side field.now) column) }
{
    if is_system(field) {
        return system_column(field).ok_or(HeaderRefusal::UnknownSystem(column));
    }
    own_property(alloc, side, column, field)
}

// What a field that doesn't begin with `~` is for.
fn own_property(
    alloc: Global,
    side: Side,
    column: u32,
    field: &[u8],
) -> Result<ColumnUse, HeaderRefusal>
    requires { is_system field.now ≡ false }
    ensures ok { IfOk result (λ it. column_use side field.now ≡ Some it) }
    ensures sound { IfOk result (λ it. own_fault side field.now ≡ None) }
    ensures err { IfErr result (Gives (own_fault side field.now) column) }
{
    let name = name_of(alloc, field)?;
    if !is_name(name.as_slice()) {
        return Err(HeaderRefusal::BadName(column));
    }
    let Some(text) = type_of(alloc, field)? else {
        return Err(HeaderRefusal::UnknownType(column));
    };
    property(side, column, name, text)
}

// A property column of this name and type.
fn property(side: Side, column: u32, name: Text, text: TypeText) -> Result<ColumnUse, HeaderRefusal>
    ensures ok { IfOk result (λ it. property_column side name text ≡ Some it) }
    ensures sound { IfOk result (λ it. type_fault side text ≡ None) }
    ensures err { IfErr result (Gives (type_fault side text) column) }
{
    let TypeName::Kept(kind) = text.name else {
        return Err(HeaderRefusal::FloatColumn(column));
    };
    if text.cardinality == Some(Cardinality::Single) && text.many {
        return Err(HeaderRefusal::SingleArray(column));
    }
    if side == Side::Edge && (text.cardinality == Some(Cardinality::Set) || text.many) {
        return Err(HeaderRefusal::EdgeNotSingle(column));
    }
    Ok(ColumnUse::Property(Column {
        name,
        kind,
        single: is_single(side, text.cardinality),
        many: text.many,
    }))
}

// Without a cardinality a property of an edge is single, and that of a vertex a set.
fn is_single(side: Side, cardinality: Option<Cardinality>) -> bool
    ensures { result ≡ is_single side cardinality }
{
    match cardinality {
        Some(Cardinality::Single) => true,
        Some(Cardinality::Set) => false,
        None => side == Side::Edge,
    }
}
