// A value, read back from its type and its JSON.
ghost use Rattle.std.specs.Prelude.{◌≡◌, ◌<◌, ◌^◌, length, IfOk};
ghost use Rattle.serde_json.specs.Data.{string};
ghost use Rattle.serde_json.specs.View.{view};
ghost use Rattle.bl_value.specs.Json.{value_data};
ghost use Rattle.bl_value.specs.Valid.{IsValue};
ghost use Rattle.bl_value.specs.declared.value_type.ValueType.TheVariants as type;
ghost use Rattle.bl_value.specs.declared.value.Value.{Value};
ghost use Rattle.bl_change.specs.EventText.{data_type, typed_data};
ghost use Rattle.bl_change.specs.Found.{Finds, IsValueIn, type_of};

use crate::EventRefusal;
use crate::members::{bool_at, integer_at, text_at};
use bl_outside::Text;
use bl_value::{CellRefusal, TEXT_LIMIT, Value, ValueType, is_empty_cell, read_cell};
use serde_json::Value as Json;
use std::alloc::Global;

/// The value that may have this JSON, with its type: no other one has it.
pub fn value_in(alloc: Global, json: &Json) -> Result<Value, EventRefusal>
    ensures valid { IfOk result IsValue }
    ensures found { Finds
        (λ value. IsValue value × (view json.now ≡ typed_data value)) result }
{
    let kind = type_named(text_at(json, "dataType")?)?;
    value_of(alloc, kind, json)
}

// The type that a record names.
fn type_named(name: &str) -> Result<ValueType, EventRefusal>
    ensures { Finds
        (λ kind. (value : Value) × (kind ≡ type_of value) × (name.now ≡ data_type value))
        result }
{
    match name {
        "Boolean" => Ok(ValueType::Bool),
        "Byte" => Ok(ValueType::Byte),
        "Short" => Ok(ValueType::Short),
        "Int" => Ok(ValueType::Int),
        "Long" => Ok(ValueType::Long),
        "String" => Ok(ValueType::Str),
        "Date" => Ok(ValueType::Date),
        _ => Err(EventRefusal::NotAnEvent),
    }
}

// The value, of this type.
fn value_of(alloc: Global, kind: ValueType, json: &Json) -> Result<Value, EventRefusal>
    ensures valid { IfOk result IsValue }
    ensures found { Finds (IsValueIn kind (view json.now)) result }
{
    match kind {
        ValueType::Bool => bool_in(json),
        ValueType::Byte => byte_in(json),
        ValueType::Short => short_in(json),
        ValueType::Int => int_in(json),
        ValueType::Long => long_in(json),
        ValueType::Str => text_in(alloc, json),
        ValueType::Date => date_in(alloc, json),
    }
}

fn bool_in(json: &Json) -> Result<Value, EventRefusal>
    ensures valid { IfOk result IsValue }
    ensures found { Finds (IsValueIn type.Bool (view json.now)) result }
{
    let truth = bool_at(json, "value")?;
    Ok(Value::Bool(truth))
}

fn byte_in(json: &Json) -> Result<Value, EventRefusal>
    ensures valid { IfOk result IsValue }
    ensures found { Finds (IsValueIn type.Byte (view json.now)) result }
{
    match i8::try_from(integer_at(json, "value")?) {
        Ok(byte) => Ok(Value::Byte(byte)),
        Err(_) => Err(EventRefusal::NotAnEvent),
    }
}

fn short_in(json: &Json) -> Result<Value, EventRefusal>
    ensures valid { IfOk result IsValue }
    ensures found { Finds (IsValueIn type.Short (view json.now)) result }
{
    match i16::try_from(integer_at(json, "value")?) {
        Ok(short) => Ok(Value::Short(short)),
        Err(_) => Err(EventRefusal::NotAnEvent),
    }
}

fn int_in(json: &Json) -> Result<Value, EventRefusal>
    ensures valid { IfOk result IsValue }
    ensures found { Finds (IsValueIn type.Int (view json.now)) result }
{
    match i32::try_from(integer_at(json, "value")?) {
        Ok(int) => Ok(Value::Int(int)),
        Err(_) => Err(EventRefusal::NotAnEvent),
    }
}

fn long_in(json: &Json) -> Result<Value, EventRefusal>
    ensures valid { IfOk result IsValue }
    ensures found { Finds (IsValueIn type.Long (view json.now)) result }
{
    let long = integer_at(json, "value")?;
    Ok(Value::Long(long))
}

fn text_in(alloc: Global, json: &Json) -> Result<Value, EventRefusal>
    ensures valid { IfOk result IsValue }
    ensures found { Finds (IsValueIn type.Str (view json.now)) result }
{
    let text = text_at(json, "value")?;
    if text.len() > TEXT_LIMIT {
        return Err(EventRefusal::NotAnEvent);
    }
    Ok(Value::Str(Text::copy_of(alloc, text.as_bytes())?))
}

// The text of a date has 20 bytes.
fn date_in(alloc: Global, json: &Json) -> Result<Value, EventRefusal>
    ensures valid { IfOk result IsValue }
    ensures found { Finds (IsValueIn type.Date (view json.now)) result }
{
    let text = text_at(json, "value")?;
    if text.len() != 20 {
        return Err(EventRefusal::NotAnEvent);
    }
    date_of(alloc, text.as_bytes())
}

// The date of a text. One in another spelling is found here too, and prints another text.
fn date_of(alloc: Global, text: &[u8]) -> Result<Value, EventRefusal>
    requires { length text.now < 2 ^ 32 }
    ensures valid { IfOk result IsValue }
    ensures found { Finds
        (λ value. (type.Date ≡ type_of value) × IsValue value
        × (string text.now ≡ value_data value)) result }
{
    if is_empty_cell(ValueType::Date, text) {
        return Err(EventRefusal::NotAnEvent);
    }
    match read_cell(alloc, ValueType::Date, text) {
        Ok(date) => Ok(date),
        Err(refusal) => match refusal {
            CellRefusal::NoMemory => Err(EventRefusal::NoMemory),
            _ => Err(EventRefusal::NotAnEvent),
        },
    }
}
