// What one field of a header says, once the spaces at its ends are gone.
ghost use Rattle.std.specs.Prelude.{◌≡◌, ◌≤◌, length, IfOk};
ghost use Rattle.std.specs.Option.{option_copied};
ghost use Rattle.bl_header.specs.Fields.{
  begins_with_colon,
  is_name,
  is_system,
  name_of,
  name_part,
  plain_text,
  system_column,
  type_of,
  type_part,
  unescaped,
};

use crate::type_text::{TypeName, TypeText, type_text};
use bl_outside::{NoMemory, Text, is_utf8};
use bl_value::{ColumnUse, KEY_LIMIT, ValueType};
use std::alloc::Global;

/// A field of a system column begins with `~`.
pub fn is_system(field: &[u8]) -> bool
    ensures { result ≡ is_system field.now }
{
    matches!(field, [b'~', ..])
}

pub fn system_column(field: &[u8]) -> Option<ColumnUse>
    ensures { result ≡ system_column field.now }
{
    if field == b"~id".as_slice() {
        Some(ColumnUse::Id)
    } else if field == b"~label".as_slice() {
        Some(ColumnUse::Label)
    } else if field == b"~from".as_slice() {
        Some(ColumnUse::From)
    } else if field == b"~to".as_slice() {
        Some(ColumnUse::To)
    } else {
        None
    }
}

/// The name has 1 to 256 bytes and is UTF-8.
pub fn is_name(name: &[u8]) -> bool
    ensures { result ≡ is_name name.now }
{
    !name.is_empty() && name.len() <= KEY_LIMIT && is_utf8(name)
}

/// The name of a property, in which `\:` gives a colon.
pub fn name_of(alloc: Global, field: &[u8]) -> Result<Text, NoMemory>
    ensures { IfOk result (λ name. name ≡ name_of field.now) }
{
    unescaped(alloc, name_part(field))
}

/// The type of a property. None where the text behind the colon is no type.
pub fn type_of(alloc: Global, field: &[u8]) -> Result<Option<TypeText>, NoMemory>
    ensures { IfOk result (λ it. it ≡ type_of field.now) }
{
    match type_part(field) {
        Some(text) => type_text(alloc, text),
        None => Ok(Some(plain_text())),
    }
}

// The type of a field without a colon.
fn plain_text() -> TypeText
    ensures { result ≡ plain_text }
{
    TypeText {
        name: TypeName::Kept(ValueType::Str),
        cardinality: None,
        many: false,
    }
}

// What stands before the dividing colon.
fn name_part(field: &[u8]) -> &[u8]
    ensures { result.now ≡ name_part field.now }
{
    &field[..name_length(field)]
}

// What stands behind the dividing colon, if there is one.
fn type_part(field: &[u8]) -> Option<&[u8]>
    ensures { option_copied result ≡ type_part field.now }
{
    match field[name_length(field)..].split_first() {
        Some((_, text)) => Some(text),
        None => None,
    }
}

// The place of the dividing colon, or the end of the field.
fn name_length(field: &[u8]) -> usize
    ensures value { result ≡ length (name_part field.now) }
    ensures within { result ≤ length field.now }
{
    let mut barred = false;
    for place in 0..field.len() {
        let byte = field[place];
        if byte == b':' && !barred {
            return place;
        }
        barred = byte == b'\\';
    }
    field.len()
}

// Without the backslashes that stand right before a colon.
fn unescaped(alloc: Global, name: &[u8]) -> Result<Text, NoMemory>
    ensures { IfOk result (λ it. it ≡ unescaped name.now) }
{
    let mut text = Text::new(alloc);
    let mut rest = name;
    while let [byte, tail @ ..] = rest {
        if !(*byte == b'\\' && begins_with_colon(tail)) {
            text.push(*byte)?;
        }
        rest = tail;
    }
    Ok(text)
}

fn begins_with_colon(text: &[u8]) -> bool
    ensures { result ≡ begins_with_colon text.now }
{
    matches!(text, [b':', ..])
}
