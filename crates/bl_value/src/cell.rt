// Cells of a file.
ghost use Rattle.std.specs.Prelude.{
  ◌≡◌,
  ◌⊎◌,
  ◌<◌,
  ◌^◌,
  false,
  length,
  reverse,
  Ok,
  Err,
  IfOk,
  IfErr,
};
ghost use Rattle.std.specs.Str.{IsUtf8};
ghost use Rattle.bl_value.specs.Cells as cells;
ghost use Rattle.bl_value.specs.Cells.{is_true, text_cell, without_spaces, without_spaces_in_front};
ghost use Rattle.bl_value.specs.Valid.{IsValue};
ghost use Rattle.bl_value.specs.declared.cell.CellRefusal.TheVariants.{
  NotUtf8,
  NoMemory as out_of_memory,
};

use crate::date::read_date;
use crate::integer::{read_byte, read_int, read_long, read_short};
use crate::{Value, ValueType};
use bl_outside::{NoMemory, Text};
use std::alloc::Global;
use thiserror::Error;

/// Why a cell has no value.
#[derive(Clone, Copy, Debug, PartialEq, Eq, Error)]
pub enum CellRefusal {
    #[error("not UTF-8")]
    NotUtf8,
    #[error("not of the column's type")]
    NotOfType,
    #[error("outside the range of the column's type")]
    OutOfRange,
    #[error("out of memory")]
    NoMemory,
}

impl From<NoMemory> for CellRefusal {
    ghost from_gives = { λ _ e. e ≡ out_of_memory };

    fn from(_: NoMemory) -> CellRefusal {
        CellRefusal::NoMemory
    }
}

/// The value of a cell that isn't empty.
pub fn read_cell(alloc: Global, kind: ValueType, cell: &[u8]) -> Result<Value, CellRefusal>
    requires short { length cell.now < 2 ^ 32 }
    requires some { cells.is_empty_cell kind cell.now ≡ false }
    ensures value { IfOk result (λ value. cells.cell kind cell.now ≡ Ok value) }
    ensures refusal { IfErr result
        (λ refusal. (refusal ≡ out_of_memory) ⊎ (cells.cell kind cell.now ≡ Err refusal)) }
    ensures valid { IfOk result IsValue }
{
    let Ok(_) = str::from_utf8(cell) else {
        return Err(CellRefusal::NotUtf8);
    };
    read_text(alloc, kind, cell)
}

/// The value of a cell in UTF-8.
pub fn read_text(alloc: Global, kind: ValueType, cell: &[u8]) -> Result<Value, CellRefusal>
    requires short { length cell.now < 2 ^ 32 }
    requires utf8 { IsUtf8 cell.now }
    ensures value { IfOk result (λ value. text_cell kind cell.now ≡ Ok value) }
    ensures refusal { IfErr result
        (λ refusal. (refusal ≡ out_of_memory) ⊎ (text_cell kind cell.now ≡ Err refusal)) }
    ensures valid { IfOk result IsValue }
{
    match kind {
        ValueType::Bool => Ok(Value::Bool(is_true(without_spaces(cell)))),
        ValueType::Byte => read_byte(without_spaces(cell)),
        ValueType::Short => read_short(without_spaces(cell)),
        ValueType::Int => read_int(without_spaces(cell)),
        ValueType::Long => read_long(without_spaces(cell)),
        ValueType::Str => Ok(Value::Str(Text::copy_of(alloc, cell)?)),
        ValueType::Date => read_date(without_spaces(cell)),
    }
}

fn is_true(text: &[u8]) -> bool
    ensures { result ≡ is_true text.now }
{
    text.eq_ignore_ascii_case(b"true")
}

/// An empty cell has no value. Of another type than text, neither has one of spaces alone.
pub fn is_empty_cell(kind: ValueType, cell: &[u8]) -> bool
    ensures { result ≡ cells.is_empty_cell kind cell.now }
{
    match kind {
        ValueType::Str => cell.is_empty(),
        _ => without_spaces(cell).is_empty(),
    }
}

/// A cell without the ASCII spaces at both its ends.
pub fn without_spaces(cell: &[u8]) -> &[u8]
    ensures { result.now ≡ without_spaces cell.now }
{
    without_spaces_behind(without_spaces_in_front(cell))
}

fn without_spaces_in_front(cell: &[u8]) -> &[u8]
    ensures { result.now ≡ without_spaces_in_front cell.now }
{
    let mut rest = cell;
    while let [32, tail @ ..] = rest {
        rest = tail;
    }
    rest
}

fn without_spaces_behind(cell: &[u8]) -> &[u8]
    ensures { result.now ≡ reverse (without_spaces_in_front (reverse cell.now)) }
{
    let mut rest = cell;
    while let [head @ .., 32] = rest {
        rest = head;
    }
    rest
}
