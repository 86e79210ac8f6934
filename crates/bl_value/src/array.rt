// Cells that are arrays: items, divided by semicolons.
ghost use Rattle.std.specs.Prelude.{
  ◌≡◌,
  ◌+◌,
  ◌≤◌,
  ◌<◌,
  ◌^◌,
  ◌⊎◌,
  ◌∷◌,
  [],
  true,
  false,
  length,
  Ok,
  Err,
  IfOk,
  IfErr,
  IfSome,
  OnOk,
};
ghost use Rattle.std.specs.Bool.{OnTrue};
ghost use Rattle.std.specs.List.{All, IsDistinct};
ghost use Rattle.std.specs.Option.{option_copied};
ghost use Rattle.std.specs.Ordering.{eq_by_cmp};
ghost use Rattle.std.specs.Str.{IsUtf8};
ghost use Rattle.bl_value.specs.Cells as cells;
ghost use Rattle.bl_value.specs.Cells.{each_once, item_values, values_in, values_of};
ghost use Rattle.bl_value.specs.ItemsLeft.{bytes_left, items_left, with_values};
ghost use Rattle.bl_value.specs.Order.{value_cmp};
ghost use Rattle.bl_value.specs.Valid.{IsValue};
ghost use Rattle.bl_value.specs.declared.cell.CellRefusal.TheVariants.{NoMemory as out_of_memory};

use crate::cell::read_text;
use crate::once::EachOnce;
use crate::{CellRefusal, Value, ValueType, is_empty_cell, read_cell};
use bl_outside::{List, NoMemory, Text, is_utf8};
use std::alloc::Global;

/// The values of a property cell, each once: those of its items where it may have many, and else
/// that of the whole cell. What is empty has no value.
pub fn read_values(
    alloc: Global,
    kind: ValueType,
    many: bool,
    cell: &[u8],
) -> Result<List<Value>, CellRefusal>
    requires { length cell.now < 2 ^ 32 }
    ensures values { IfOk result (λ values. values_of kind many cell.now ≡ Ok values) }
    ensures refusal { IfErr result
        (λ refusal. (refusal ≡ out_of_memory) ⊎ (values_of kind many cell.now ≡ Err refusal)) }
    ensures differ { IfOk result (IsDistinct (eq_by_cmp value_cmp)) }
    ensures valid { IfOk result (All IsValue) }
{
    values_by(alloc, is_utf8(cell), kind, many, cell)
}

/// The same of a cell that is known to be UTF-8, and isn't tested again.
pub fn read_text_values(
    alloc: Global,
    kind: ValueType,
    many: bool,
    cell: &[u8],
) -> Result<List<Value>, CellRefusal>
    requires short { length cell.now < 2 ^ 32 }
    requires utf8 { IsUtf8 cell.now }
    ensures values { IfOk result (λ values. values_of kind many cell.now ≡ Ok values) }
    ensures refusal { IfErr result
        (λ refusal. (refusal ≡ out_of_memory) ⊎ (values_of kind many cell.now ≡ Err refusal)) }
    ensures differ { IfOk result (IsDistinct (eq_by_cmp value_cmp)) }
    ensures valid { IfOk result (All IsValue) }
{
    values_by(alloc, true, kind, many, cell)
}

// The same of a cell of which is told whether it is known to be UTF-8.
fn values_by(
    alloc: Global,
    is_text: bool,
    kind: ValueType,
    many: bool,
    cell: &[u8],
) -> Result<List<Value>, CellRefusal>
    requires short { length cell.now < 2 ^ 32 }
    requires utf8 { is_text ≡ true → IsUtf8 cell.now }
    ensures values { IfOk result (λ values. values_of kind many cell.now ≡ Ok values) }
    ensures refusal { IfErr result
        (λ refusal. (refusal ≡ out_of_memory) ⊎ (values_of kind many cell.now ≡ Err refusal)) }
    ensures differ { IfOk result (IsDistinct (eq_by_cmp value_cmp)) }
    ensures valid { IfOk result (All IsValue) }
{
    if many && !is_one_item(cell) {
        return read_items(alloc, is_text, kind, cell);
    }
    read_one(alloc, is_text, kind, cell)
}

/// A cell without a semicolon and a backslash is its own one item.
pub fn is_one_item(cell: &[u8]) -> bool
    ensures { OnTrue result (cells.items cell.now ≡ cell.now ∷ []) }
{
    !cell.contains(&b';') && !cell.contains(&b'\\')
}

// The value of a cell as a list.
fn read_one(
    alloc: Global,
    is_text: bool,
    kind: ValueType,
    cell: &[u8],
) -> Result<List<Value>, CellRefusal>
    requires short { length cell.now < 2 ^ 32 }
    requires utf8 { is_text ≡ true → IsUtf8 cell.now }
    ensures values { IfOk result (λ values. each_once (values_in kind cell.now) ≡ Ok values) }
    ensures refusal { IfErr result
        (λ refusal. (refusal ≡ out_of_memory) ⊎ (values_in kind cell.now ≡ Err refusal)) }
    ensures valid { IfOk result (All IsValue) }
{
    if is_empty_cell(kind, cell) {
        return Ok(List::new(alloc));
    }
    let value = read_item_value(alloc, is_text, kind, cell)?;
    let mut values = List::with_capacity(alloc, 1)?;
    values.push(value)?;
    Ok(values)
}

// The value of a cell or an item, which isn't tested where it is known to be UTF-8.
fn read_item_value(
    alloc: Global,
    is_text: bool,
    kind: ValueType,
    item: &[u8],
) -> Result<Value, CellRefusal>
    requires short { length item.now < 2 ^ 32 }
    requires some { cells.is_empty_cell kind item.now ≡ false }
    requires utf8 { is_text ≡ true → IsUtf8 item.now }
    ensures value { IfOk result (λ value. cells.cell kind item.now ≡ Ok value) }
    ensures refusal { IfErr result
        (λ refusal. (refusal ≡ out_of_memory) ⊎ (cells.cell kind item.now ≡ Err refusal)) }
    ensures valid { IfOk result IsValue }
{
    if is_text {
        return read_text(alloc, kind, item);
    }
    read_cell(alloc, kind, item)
}

// The values of the items of an array cell, each once.
fn read_items(
    alloc: Global,
    is_text: bool,
    kind: ValueType,
    cell: &[u8],
) -> Result<List<Value>, CellRefusal>
    requires short { length cell.now < 2 ^ 32 }
    requires utf8 { is_text ≡ true → IsUtf8 cell.now }
    ensures values { IfOk result (λ values. values_of kind true cell.now ≡ Ok values) }
    ensures refusal { IfErr result
        (λ refusal. (refusal ≡ out_of_memory) ⊎ (values_of kind true cell.now ≡ Err refusal)) }
    ensures valid { IfOk result (All IsValue) }
{
    let mut values = EachOnce::new(alloc);
    let mut room = Vec::new(alloc);
    let mut left = Some(cell);
    while let Some(rest) = left {
        left = take_item(alloc, is_text, kind, rest, &mut room, &mut values)?;
    }
    Ok(values.into_list())
}

// Adds the value of the item in front, and gives what stands behind the semicolon that ends it.
// An item with a backslash is put together in the room.
fn take_item<'a>(
    alloc: Global,
    is_text: bool,
    kind: ValueType,
    cell: &'a [u8],
    room: &mut Vec<u8>,
    values: &mut EachOnce<Value>,
) -> Result<Option<&'a [u8]>, CellRefusal>
    requires short { length cell.now < 2 ^ 32 }
    requires utf8 { is_text ≡ true → All IsUtf8 (cells.items cell.now) }
    requires valid { All IsValue values.old }
    ensures values { IfOk result
        (λ left. with_values values.old (item_values kind (cells.items cell.now))
        ≡ with_values values.new (item_values kind (items_left (option_copied left)))) }
    ensures texts { IfOk result
        (λ left. is_text ≡ true → All IsUtf8 (items_left (option_copied left))) }
    ensures bytes { IfOk result (λ left. bytes_left (option_copied left) ≤ length cell.now) }
    ensures refusal { IfErr result
        (λ refusal. (refusal ≡ out_of_memory)
        ⊎ (with_values values.old (item_values kind (cells.items cell.now)) ≡ Err refusal)) }
    ensures valid { OnOk result (All IsValue values.new) }
{
    if let Some((item, left)) = plain_item(cell) {
        push_value(alloc, is_text, kind, item, values)?;
        return Ok(left);
    }
    let left = read_item(cell, room)?;
    push_value(alloc, is_text, kind, room.as_slice(), values)?;
    Ok(left)
}

// The item in front, and what stands behind the semicolon that ends it. None where a backslash
// stands in the item.
fn plain_item(cell: &[u8]) -> Option<(&[u8], Option<&[u8]>)>
    ensures items { IfSome result
        (λ found. cells.items cell.now ≡ found.0.now ∷ items_left (option_copied found.1)) }
    ensures bytes { IfSome result
        (λ found. length found.0.now + bytes_left (option_copied found.1) ≤ length cell.now) }
{
    for (i, byte) in cell.iter().enumerate() {
        match byte {
            b'\\' => return None,
            b';' => return Some((&cell[..i], Some(&cell[i + 1..]))),
            _ => {}
        }
    }
    Some((cell, None))
}

// Adds the value of an item that isn't empty, unless it is there.
fn push_value(
    alloc: Global,
    is_text: bool,
    kind: ValueType,
    item: &[u8],
    values: &mut EachOnce<Value>,
) -> Result<(), CellRefusal>
    requires short { length item.now < 2 ^ 32 }
    requires utf8 { is_text ≡ true → IsUtf8 item.now }
    requires valid { All IsValue values.old }
    ensures value { OnOk result (with_values values.old (values_in kind item.now) ≡ Ok values.new) }
    ensures refusal { IfErr result
        (λ refusal. (refusal ≡ out_of_memory) ⊎ (values_in kind item.now ≡ Err refusal)) }
    ensures valid { OnOk result (All IsValue values.new) }
{
    if is_empty_cell(kind, item) {
        return Ok(());
    }
    let value = read_item_value(alloc, is_text, kind, item)?;
    values.push(alloc, value)?;
    Ok(())
}

/// The items of an array cell, empty and repeated ones among them.
pub fn items(alloc: Global, cell: &[u8]) -> Result<List<Text>, NoMemory>
    ensures { IfOk result (λ items. items ≡ cells.items cell.now) }
{
    let mut items = List::new(alloc);
    let mut left = Some(cell);
    while let Some(rest) = left {
        let mut item = Vec::new(alloc);
        left = read_item(rest, &mut item)?;
        items.push(Text::from_vec(item))?;
    }
    Ok(items)
}

/// Reads the item in front, and gives what stands behind the semicolon that ends it.
pub fn read_item<'a>(cell: &'a [u8], item: &mut Vec<u8>) -> Result<Option<&'a [u8]>, NoMemory>
    ensures items { IfOk result
        (λ left. cells.items cell.now ≡ item.new.items ∷ items_left (option_copied left)) }
    ensures bytes { IfOk result
        (λ left. length item.new.items + bytes_left (option_copied left) ≤ length cell.now) }
{
    item.clear();
    let mut rest = cell;
    loop {
        match rest {
            [] => return Ok(None),
            [b'\\', b';', tail @ ..] => {
                item.push(b';')?;
                rest = tail;
            }
            [b';', tail @ ..] => return Ok(Some(tail)),
            [byte, tail @ ..] => {
                item.push(*byte)?;
                rest = tail;
            }
        }
    }
}
