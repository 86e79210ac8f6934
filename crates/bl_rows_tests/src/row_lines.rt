// Rows as lines, for the tests.
use bl_outside::{List, NoMemory, Text};
use bl_value::{LogCode, Property, Row, Value};
use std::alloc::Global;

fn write_value(alloc: Global, value: &Value, out: &mut Text) -> Result<(), NoMemory> {
    match value {
        Value::Str(text) => out.extend(text.as_slice()),
        Value::Byte(number) => out.extend(format!(in alloc; "{number}")?.as_bytes()),
        Value::Int(number) => out.extend(format!(in alloc; "{number}")?.as_bytes()),
        _ => out.push(b'?'),
    }
}

fn write_properties(
    alloc: Global,
    properties: &List<Property>,
    out: &mut Text,
) -> Result<(), NoMemory> {
    for property in properties.as_slice() {
        out.push(b' ')?;
        out.extend(property.key.as_slice())?;
        for value in property.values.as_slice() {
            out.push(b'=')?;
            write_value(alloc, value, out)?;
        }
    }
    Ok(())
}

fn code_text(code: LogCode) -> &'static str {
    match code {
        LogCode::ColumnCount => "ColumnCount",
        LogCode::NotUtf8 => "NotUtf8",
        LogCode::RecordTooLarge => "RecordTooLarge",
        LogCode::MissingId => "MissingId",
        LogCode::IdTooLong => "IdTooLong",
        LogCode::NotOfType => "NotOfType",
        LogCode::OutOfRange => "OutOfRange",
        LogCode::TooManyValues => "TooManyValues",
        _ => "another",
    }
}

// The texts with a bar before each.
fn write_texts(texts: &[&Text], out: &mut Text) -> Result<(), NoMemory> {
    for text in texts {
        out.push(b'|')?;
        out.extend(text.as_slice())?;
    }
    Ok(())
}

/// A row as a line.
pub fn written(alloc: Global, row: &Row) -> Result<Text, NoMemory> {
    let mut out = Text::new(alloc);
    match row {
        Row::Vertex {
            id,
            labels,
            properties,
        } => {
            write_texts(&[id], &mut out)?;
            for label in labels.as_slice() {
                write_texts(&[label], &mut out)?;
            }
            write_properties(alloc, properties, &mut out)?;
        }
        Row::Edge {
            id,
            label,
            from,
            to,
            properties,
        } => {
            write_texts(&[id, label, from, to], &mut out)?;
            write_properties(alloc, properties, &mut out)?;
        }
        Row::Bad { code, column } => {
            out.extend(code_text(*code).as_bytes())?;
            out.extend(format!(in alloc; " {column}")?.as_bytes())?;
        }
    }
    Ok(out)
}
