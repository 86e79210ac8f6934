// Integers in decimal digits.
ghost use Rattle.std.specs.Prelude.{◌≡◌, ◌==◌, ◌&&◌, not, true, false, length, IfOk, IfErr};
ghost use Rattle.std.specs.Char.{is_ascii_digit};
ghost use Rattle.std.specs.List.{list_all};
ghost use Rattle.bl_value.specs.Cells.{integer, is_integer};
ghost use Rattle.bl_value.specs.Valid.{IsValue};
ghost use Rattle.bl_value.specs.declared.cell.CellRefusal.TheVariants.{NotOfType};
ghost use Rattle.bl_value.specs.declared.value.Value.TheVariants.{Byte, Short, Int, Long};

use crate::{CellRefusal, Value};

pub fn read_byte(text: &[u8]) -> Result<Value, CellRefusal>
    ensures value { result ≡ integer 8 Byte text.now }
    ensures valid { IfOk result IsValue }
{
    match integer_text(text)?.parse::<i8>() {
        Ok(number) => Ok(Value::Byte(number)),
        Err(_) => Err(CellRefusal::OutOfRange),
    }
}

pub fn read_short(text: &[u8]) -> Result<Value, CellRefusal>
    ensures value { result ≡ integer 16 Short text.now }
    ensures valid { IfOk result IsValue }
{
    match integer_text(text)?.parse::<i16>() {
        Ok(number) => Ok(Value::Short(number)),
        Err(_) => Err(CellRefusal::OutOfRange),
    }
}

pub fn read_int(text: &[u8]) -> Result<Value, CellRefusal>
    ensures value { result ≡ integer 32 Int text.now }
    ensures valid { IfOk result IsValue }
{
    match integer_text(text)?.parse::<i32>() {
        Ok(number) => Ok(Value::Int(number)),
        Err(_) => Err(CellRefusal::OutOfRange),
    }
}

pub fn read_long(text: &[u8]) -> Result<Value, CellRefusal>
    ensures value { result ≡ integer 64 Long text.now }
    ensures valid { IfOk result IsValue }
{
    match integer_text(text)?.parse::<i64>() {
        Ok(number) => Ok(Value::Long(number)),
        Err(_) => Err(CellRefusal::OutOfRange),
    }
}

// An optional sign, then one digit or more.
fn integer_text(text: &[u8]) -> Result<&str, CellRefusal>
    ensures value { IfOk result (λ number. number.now ≡ text.now) }
    ensures integer { IfOk result (λ _. is_integer text.now ≡ true) }
    ensures refusal { IfErr result (λ refusal. refusal ≡ NotOfType) }
    ensures no_integer { IfErr result (λ _. is_integer text.now ≡ false) }
{
    if !is_integer(text) {
        return Err(CellRefusal::NotOfType);
    }
    // An integer's text is ASCII.
    Ok(unsafe { str::from_utf8_unchecked(text) })
}

fn is_integer(text: &[u8]) -> bool
    ensures { result ≡ is_integer text.now }
{
    match text {
        [b'+' | b'-', digits @ ..] => are_digits(digits),
        _ => are_digits(text),
    }
}

// One digit or more.
fn are_digits(digits: &[u8]) -> bool
    ensures { result ≡ (not (length digits.now == 0) && list_all is_ascii_digit digits.now) }
{
    !digits.is_empty() && digits.iter().all(|digit| digit.is_ascii_digit())
}
