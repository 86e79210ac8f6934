// Printed records, letter by letter.
ghost use Rattle.std.specs.Prelude.{IfOk};
ghost use Rattle.bl_value.specs.Valid.{IsId, IsKey, IsChange, IsPrintableValue};

use bl_change::{Event, print_event};
use bl_outside::{NoMemory, Text};
use bl_value::{Change, FIRST_DATE, KEY_LIMIT, LAST_DATE, Side, Value};
use std::alloc::Global;

#[derive(Clone, Copy)]
pub enum Kind {
    Label,
    Edge,
    Add(Side),
    Remove(Side),
}

// A text that may be an id and a key.
fn word(alloc: Global, text: &str) -> Result<Text, NoMemory>
    ensures id { IfOk result IsId }
    ensures key { IfOk result IsKey }
{
    if text.is_empty() || text.len() > KEY_LIMIT {
        return Err(NoMemory);
    }
    Text::of_str(alloc, text)
}

pub fn change(alloc: Global, kind: Kind, words: [&str; 4]) -> Result<Change, NoMemory>
    ensures { IfOk result IsChange }
{
    let id = word(alloc, words[0])?;
    let label = word(alloc, words[1])?;
    let from = word(alloc, words[2])?;
    let to = word(alloc, words[3])?;
    Ok(match kind {
        Kind::Label => Change::AddLabel { id, label },
        Kind::Edge => Change::AddEdge {
            id,
            label,
            from,
            to,
        },
        Kind::Add(side) => Change::AddValue {
            side,
            id,
            key: label,
            value: Value::Str(from),
        },
        Kind::Remove(side) => Change::RemoveValue {
            side,
            id,
            key: label,
            value: Value::Str(from),
        },
    })
}

fn printed(
    alloc: Global,
    kind: Kind,
    words: [&str; 4],
    numbers: (u64, u64, u64, bool),
) -> Result<Text, NoMemory> {
    let change = change(alloc, kind, words)?;
    let (commit, op, moment, last) = numbers;
    let event = Event {
        commit,
        op,
        moment,
        last,
        change,
    };
    print_event(alloc, &event)
}

#[test]
fn events_print_as_the_records_of_the_guide(rt: HostRuntime) {
    for (kind, words, numbers, want) in [
        (
            Kind::Label,
            ["v1", "person", "-", "-"],
            (1, 1, 0, false),
            "{\"commitTimestamp\":0,\"data\":{\"id\":\"v1\",\"key\":\"label\",\"type\":\"vl\",\"value\":{\"dataType\":\"String\",\"value\":\"person\"}},\"eventId\":{\"commitNum\":1,\"opNum\":1},\"op\":\"ADD\"}",
        ),
        (
            Kind::Add(Side::Vertex),
            ["v1", "name", "Ann", "-"],
            (1, 2, 0, true),
            "{\"commitTimestamp\":0,\"data\":{\"id\":\"v1\",\"key\":\"name\",\"type\":\"vp\",\"value\":{\"dataType\":\"String\",\"value\":\"Ann\"}},\"eventId\":{\"commitNum\":1,\"opNum\":2},\"isLastOp\":true,\"op\":\"ADD\"}",
        ),
        (
            Kind::Edge,
            ["e1", "knows", "v1", "v2"],
            (2, 1, 0, true),
            "{\"commitTimestamp\":0,\"data\":{\"from\":\"v1\",\"id\":\"e1\",\"key\":\"label\",\"to\":\"v2\",\"type\":\"e\",\"value\":{\"dataType\":\"String\",\"value\":\"knows\"}},\"eventId\":{\"commitNum\":2,\"opNum\":1},\"isLastOp\":true,\"op\":\"ADD\"}",
        ),
        (
            Kind::Remove(Side::Vertex),
            ["v1", "name", "Ann", "-"],
            (18446744073709551615, 2, 1700000000123, false),
            "{\"commitTimestamp\":1700000000123,\"data\":{\"id\":\"v1\",\"key\":\"name\",\"type\":\"vp\",\"value\":{\"dataType\":\"String\",\"value\":\"Ann\"}},\"eventId\":{\"commitNum\":18446744073709551615,\"opNum\":2},\"op\":\"REMOVE\"}",
        ),
        (
            Kind::Add(Side::Edge),
            ["e1", "note", "a\"b\\c\n\u{1}é/", "-"],
            (3, 1, 0, true),
            "{\"commitTimestamp\":0,\"data\":{\"id\":\"e1\",\"key\":\"note\",\"type\":\"ep\",\"value\":{\"dataType\":\"String\",\"value\":\"a\\\"b\\\\c\\n\\u0001é/\"}},\"eventId\":{\"commitNum\":3,\"opNum\":1},\"isLastOp\":true,\"op\":\"ADD\"}",
        ),
    ] {
        let text = printed(rt.alloc(), kind, words, numbers).expect(&rt, "memory");
        assert!(rt; text.as_slice() == want.as_bytes(), "{want}");
    }
}

// A value that is no text, and a date only in the years 0000 to 9999.
fn without_text(value: Value) -> Result<Value, NoMemory>
    ensures { IfOk result IsPrintableValue }
{
    match value {
        Value::Str(_) => Err(NoMemory),
        Value::Date(seconds) if !(FIRST_DATE..=LAST_DATE).contains(&seconds) => Err(NoMemory),
        value => Ok(value),
    }
}

fn printed_value(alloc: Global, value: Value) -> Result<Text, NoMemory> {
    let value = without_text(value)?;
    let id = word(alloc, "e1")?;
    let key = word(alloc, "k")?;
    let event = Event {
        commit: 1,
        op: 1,
        moment: 0,
        last: false,
        change: Change::AddValue {
            side: Side::Edge,
            id,
            key,
            value,
        },
    };
    print_event(alloc, &event)
}

#[test]
fn values_print_with_their_types(rt: HostRuntime) {
    for (value, kind, json) in [
        (Value::Bool(true), "Boolean", "true"),
        (Value::Byte(-128), "Byte", "-128"),
        (Value::Short(300), "Short", "300"),
        (Value::Int(-70000), "Int", "-70000"),
        (Value::Long(9007199254740993), "Long", "9007199254740993"),
        (Value::Date(1583020740), "Date", "\"2020-02-29T23:59:00Z\""),
    ] {
        let want = format!(in rt.alloc();
            "{{\"commitTimestamp\":0,\"data\":{{\"id\":\"e1\",\"key\":\"k\",\"type\":\"ep\",\"value\":{{\"dataType\":\"{kind}\",\"value\":{json}}}}},\"eventId\":{{\"commitNum\":1,\"opNum\":1}},\"op\":\"ADD\"}}"
        ).expect(&rt, "memory");
        let text = printed_value(rt.alloc(), value).expect(&rt, "memory");
        assert!(rt; text.as_slice() == want.as_bytes(), "{want}");
    }
}
