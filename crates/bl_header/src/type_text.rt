// The type of a property column, as its field says it.
ghost use Rattle.std.specs.Prelude.{◌≡◌, map, IfOk};
ghost use Rattle.std.specs.Option.{option_copied};
ghost use Rattle.std.specs.Char.{to_ascii_lowercase};
ghost use Rattle.bl_header.specs.TypeTexts.{
  before_ending,
  lower_type_text,
  named,
  type_name,
  type_text,
  with_cardinality,
};

use bl_outside::{NoMemory, Text};
use bl_value::ValueType;
use std::alloc::Global;

/// The type that a name stands for.
#[derive(Clone, Copy, Debug, PartialEq, Eq)]
pub enum TypeName {
    Kept(ValueType),
    /// Float or Double, whose values aren't kept.
    Float,
}

/// How many values a property has.
#[derive(Clone, Copy, Debug, PartialEq, Eq)]
pub enum Cardinality {
    Single,
    Set,
}

/// What a type text says.
#[derive(Clone, Copy, Debug, PartialEq, Eq)]
pub struct TypeText {
    pub name: TypeName,
    pub cardinality: Option<Cardinality>,
    /// A cell holds a list of values.
    pub many: bool,
}

/// What a type text says. None where it is no type text.
pub fn type_text(alloc: Global, text: &[u8]) -> Result<Option<TypeText>, NoMemory>
    ensures { IfOk result (λ it. it ≡ type_text text.now) }
{
    let lower = lower(alloc, text)?;
    Ok(lower_type_text(lower.as_slice()))
}

fn lower(alloc: Global, text: &[u8]) -> Result<Text, NoMemory>
    ensures { IfOk result (λ it. it ≡ map to_ascii_lowercase text.now) }
{
    let mut lower = Text::new(alloc);
    for byte in text {
        lower.push(byte.to_ascii_lowercase())?;
    }
    Ok(lower)
}

fn lower_type_text(text: &[u8]) -> Option<TypeText>
    ensures { result ≡ lower_type_text text.now }
{
    match before_ending(text, b"[]") {
        Some(front) => with_cardinality(front, true),
        None => with_cardinality(text, false),
    }
}

// A type name, and optionally a cardinality.
fn with_cardinality(text: &[u8], many: bool) -> Option<TypeText>
    ensures { result ≡ with_cardinality text.now many }
{
    if let Some(front) = before_ending(text, b"(single)") {
        return named(front, Some(Cardinality::Single), many);
    }
    match before_ending(text, b"(set)") {
        Some(front) => named(front, Some(Cardinality::Set), many),
        None => named(text, None, many),
    }
}

fn named(word: &[u8], cardinality: Option<Cardinality>, many: bool) -> Option<TypeText>
    ensures { result ≡ named word.now cardinality many }
{
    match type_name(word) {
        Some(name) => Some(TypeText {
            name,
            cardinality,
            many,
        }),
        None => None,
    }
}

// What stands before this ending, where the text ends so.
fn before_ending<'a>(text: &'a [u8], ending: &[u8]) -> Option<&'a [u8]>
    ensures { option_copied result ≡ before_ending ending.now text.now }
{
    text.strip_suffix(ending)
}

fn type_name(word: &[u8]) -> Option<TypeName>
    ensures { result ≡ type_name word.now }
{
    if word == b"bool".as_slice() || word == b"boolean".as_slice() {
        Some(TypeName::Kept(ValueType::Bool))
    } else if word == b"byte".as_slice() {
        Some(TypeName::Kept(ValueType::Byte))
    } else if word == b"short".as_slice() {
        Some(TypeName::Kept(ValueType::Short))
    } else if word == b"int".as_slice() {
        Some(TypeName::Kept(ValueType::Int))
    } else if word == b"long".as_slice() {
        Some(TypeName::Kept(ValueType::Long))
    } else if word == b"float".as_slice() || word == b"double".as_slice() {
        Some(TypeName::Float)
    } else if word == b"string".as_slice() {
        Some(TypeName::Kept(ValueType::Str))
    } else if word == b"date".as_slice() {
        Some(TypeName::Kept(ValueType::Date))
    } else {
        None
    }
}
