// Logs and changes, read from the front of the bytes.
ghost use Rattle.std.specs.Prelude.{◌≡◌};
ghost use Rattle.bl_entry.specs.Reading.{Gives, change_at, log_at, property_at, side_at, value_at};

use crate::EntryRefusal;
use crate::read_parts::{
    read_code, read_date, read_i8, read_i16, read_i32, read_i64, read_short, read_text, read_truth,
    read_u32, read_u64,
};
use bl_files::Log;
use bl_outside::Text;
use bl_value::{Change, Side, Value};
use std::alloc::Global;

#[tactic(auto, unfolding(crate::specs::Reading::log_at))]
pub fn read_log(bytes: &[u8]) -> Result<(Log, &[u8]), EntryRefusal>
    ensures { Gives (λ x. (x.0, x.1.now)) result (log_at bytes.now) }
{
    let (code, rest) = read_code(bytes)?;
    let (number, rest) = read_u64(rest)?;
    let (column, rest) = read_u32(rest)?;
    Ok((
        Log {
            code,
            number,
            column,
        },
        rest,
    ))
}

#[tactic(auto, unfolding(crate::specs::Reading::side_at))]
fn read_side(bytes: &[u8]) -> Result<(Side, &[u8]), EntryRefusal>
    ensures { Gives (λ x. (x.0, x.1.now)) result (side_at bytes.now) }
{
    match bytes {
        [0, rest @ ..] => Ok((Side::Vertex, rest)),
        [1, rest @ ..] => Ok((Side::Edge, rest)),
        _ => Err(EntryRefusal::NotAnEntry),
    }
}

#[tactic(auto, unfolding(crate::specs::Reading::value_at))]
fn read_value(alloc: Global, bytes: &[u8]) -> Result<(Value, &[u8]), EntryRefusal>
    ensures { Gives (λ x. (x.0, x.1.now)) result (value_at bytes.now) }
{
    match bytes {
        [1, rest @ ..] => {
            let (truth, rest) = read_truth(rest)?;
            Ok((Value::Bool(truth), rest))
        }
        [2, rest @ ..] => {
            let (number, rest) = read_i8(rest)?;
            Ok((Value::Byte(number), rest))
        }
        [3, rest @ ..] => {
            let (number, rest) = read_i16(rest)?;
            Ok((Value::Short(number), rest))
        }
        [4, rest @ ..] => {
            let (number, rest) = read_i32(rest)?;
            Ok((Value::Int(number), rest))
        }
        [5, rest @ ..] => {
            let (number, rest) = read_i64(rest)?;
            Ok((Value::Long(number), rest))
        }
        [6, rest @ ..] => {
            let (text, rest) = read_text(alloc, rest)?;
            Ok((Value::Str(text), rest))
        }
        [7, rest @ ..] => {
            let (seconds, rest) = read_date(rest)?;
            Ok((Value::Date(seconds), rest))
        }
        _ => Err(EntryRefusal::NotAnEntry),
    }
}

// The side, the id, the key and the value.
#[tactic(auto, unfolding(crate::specs::Reading::property_at))]
fn read_property(
    alloc: Global,
    bytes: &[u8],
) -> Result<((Side, (Text, (Text, Value))), &[u8]), EntryRefusal>
    ensures { Gives (λ x. (x.0, x.1.now)) result (property_at bytes.now) }
{
    let (side, rest) = read_side(bytes)?;
    let (id, rest) = read_short(alloc, 1024, rest)?;
    let (key, rest) = read_short(alloc, 256, rest)?;
    let (value, rest) = read_value(alloc, rest)?;
    Ok(((side, (id, (key, value))), rest))
}

#[tactic(auto, unfolding(crate::specs::Reading::change_at))]
pub fn read_change(alloc: Global, bytes: &[u8]) -> Result<(Change, &[u8]), EntryRefusal>
    ensures { Gives (λ x. (x.0, x.1.now)) result (change_at bytes.now) }
{
    match bytes {
        [1, rest @ ..] => {
            let (id, rest) = read_short(alloc, 1024, rest)?;
            let (label, rest) = read_short(alloc, 1024, rest)?;
            Ok((Change::AddLabel { id, label }, rest))
        }
        [2, rest @ ..] => {
            let (id, rest) = read_short(alloc, 1024, rest)?;
            let (label, rest) = read_short(alloc, 1024, rest)?;
            let (from, rest) = read_short(alloc, 1024, rest)?;
            let (to, rest) = read_short(alloc, 1024, rest)?;
            Ok((
                Change::AddEdge {
                    id,
                    label,
                    from,
                    to,
                },
                rest,
            ))
        }
        [3, rest @ ..] => {
            let ((side, (id, (key, value))), rest) = read_property(alloc, rest)?;
            Ok((
                Change::AddValue {
                    side,
                    id,
                    key,
                    value,
                },
                rest,
            ))
        }
        [4, rest @ ..] => {
            let ((side, (id, (key, value))), rest) = read_property(alloc, rest)?;
            Ok((
                Change::RemoveValue {
                    side,
                    id,
                    key,
                    value,
                },
                rest,
            ))
        }
        _ => Err(EntryRefusal::NotAnEntry),
    }
}
