// Texts of events that are read, and texts that are not.

use crate::tests::{Kind, change};
use bl_change::{
    Event, EventRefusal, each_event_is_read_back, event_texts_are_json,
    no_two_events_have_one_text, print_event, read_event,
};
use bl_outside::Text;
use bl_value::{Change, Side, Value, date_texts_are_read_back};
use std::alloc::{AllocError, Global};
use std::process::Abort;

#[test]
fn records_are_read_as_their_events(rt: HostRuntime) {
    for (kind, words, numbers, text) in [
        (
            Kind::Label,
            ["v1", "person", "-", "-"],
            (1, 1, 0, false),
            "{\"commitTimestamp\":0,\"data\":{\"id\":\"v1\",\"key\":\"label\",\"type\":\"vl\",\"value\":{\"dataType\":\"String\",\"value\":\"person\"}},\"eventId\":{\"commitNum\":1,\"opNum\":1},\"op\":\"ADD\"}",
        ),
        (
            Kind::Add(Side::Vertex),
            ["v1", "name", "Ann", "-"],
            (1, 2, 0, true),
            "{\"commitTimestamp\":0,\"data\":{\"id\":\"v1\",\"key\":\"name\",\"type\":\"vp\",\"value\":{\"dataType\":\"String\",\"value\":\"Ann\"}},\"eventId\":{\"commitNum\":1,\"opNum\":2},\"isLastOp\":true,\"op\":\"ADD\"}",
        ),
        (
            Kind::Edge,
            ["e1", "knows", "v1", "v2"],
            (2, 1, 0, true),
            "{\"commitTimestamp\":0,\"data\":{\"from\":\"v1\",\"id\":\"e1\",\"key\":\"label\",\"to\":\"v2\",\"type\":\"e\",\"value\":{\"dataType\":\"String\",\"value\":\"knows\"}},\"eventId\":{\"commitNum\":2,\"opNum\":1},\"isLastOp\":true,\"op\":\"ADD\"}",
        ),
        (
            Kind::Remove(Side::Vertex),
            ["v1", "name", "Ann", "-"],
            (18446744073709551615, 2, 1700000000123, false),
            "{\"commitTimestamp\":1700000000123,\"data\":{\"id\":\"v1\",\"key\":\"name\",\"type\":\"vp\",\"value\":{\"dataType\":\"String\",\"value\":\"Ann\"}},\"eventId\":{\"commitNum\":18446744073709551615,\"opNum\":2},\"op\":\"REMOVE\"}",
        ),
        (
            Kind::Add(Side::Edge),
            ["e1", "note", "a\"b\\c\n\u{1}é/", "-"],
            (3, 1, 0, true),
            "{\"commitTimestamp\":0,\"data\":{\"id\":\"e1\",\"key\":\"note\",\"type\":\"ep\",\"value\":{\"dataType\":\"String\",\"value\":\"a\\\"b\\\\c\\n\\u0001é/\"}},\"eventId\":{\"commitNum\":3,\"opNum\":1},\"isLastOp\":true,\"op\":\"ADD\"}",
        ),
        (
            Kind::Remove(Side::Edge),
            ["e1", "label", "x", "-"],
            (3, 4, 18446744073709551615, true),
            "{\"commitTimestamp\":18446744073709551615,\"data\":{\"id\":\"e1\",\"key\":\"label\",\"type\":\"ep\",\"value\":{\"dataType\":\"String\",\"value\":\"x\"}},\"eventId\":{\"commitNum\":3,\"opNum\":4},\"isLastOp\":true,\"op\":\"REMOVE\"}",
        ),
    ] {
        let want = change(rt.alloc(), kind, words).expect(&rt, "memory");
        let event = read_event(rt.alloc(), text.as_bytes()).expect(&rt, text);
        let (commit, op, moment, last) = numbers;
        assert!(rt; event.commit == commit && event.op == op, "{text}");
        assert!(rt; event.moment == moment && event.last == last, "{text}");
        assert!(rt; event.change == want, "{text}");
        let again = print_event(rt.alloc(), &event).expect(&rt, "memory");
        assert!(rt; again.as_slice() == text.as_bytes(), "{text}");
    }
    event_texts_are_json();
    no_two_events_have_one_text();
    each_event_is_read_back();
}

fn refusal(alloc: Global, text: &[u8]) -> Option<EventRefusal> {
    read_event(alloc, text).err()
}

#[test]
fn texts_that_are_no_json(rt: HostRuntime) {
    for text in [
        b"".as_slice(),
        b"{",
        b"{\"a\":1",
        b"{\"a\":01}",
        b"{\"a\":.5}",
        b"{\"a\":\"\x01\"}",
        b"{\"a\":\"\\x41\"}",
        b"{'a':1}",
        b"{\"a\":1,}",
        b"{\"a\":1} x",
        b"\"\xff\"",
        b"\"\xc0\x80\"",
        b"\xef\xbb\xbf{}",
        b"\"\\ud800\"",
    ] {
        assert!(rt; refusal(rt.alloc(), text) == Some(EventRefusal::NotJson));
    }
}

// That many arrays, one in another.
fn arrays(alloc: Global, levels: usize) -> Result<Vec<u8>, AllocError> {
    let mut text = Vec::new(alloc);
    for _ in 0..levels {
        text.push(b'[')?;
    }
    for _ in 0..levels {
        text.push(b']')?;
    }
    Ok(text)
}

#[test]
fn json_has_at_most_127_levels(rt: HostRuntime) {
    for (levels, want) in [
        (1, EventRefusal::NotAnEvent),
        (127, EventRefusal::NotAnEvent),
        (128, EventRefusal::NotJson),
        (200, EventRefusal::NotJson),
    ] {
        let text = arrays(rt.alloc(), levels).expect(&rt, "memory");
        assert!(rt; refusal(rt.alloc(), &text) == Some(want), "{levels}");
    }
}

#[test]
fn other_json_is_no_event(rt: HostRuntime) {
    for text in [
        "null",
        "true",
        "7",
        "\"ADD\"",
        "[]",
        "{}",
        // a space, or a line end
        "{ \"commitTimestamp\":0,\"data\":{\"id\":\"v1\",\"key\":\"label\",\"type\":\"vl\",\"value\":{\"dataType\":\"String\",\"value\":\"a\"}},\"eventId\":{\"commitNum\":1,\"opNum\":1},\"op\":\"ADD\"}",
        "{\"commitTimestamp\":0,\"data\":{\"id\":\"v1\",\"key\":\"label\",\"type\":\"vl\",\"value\":{\"dataType\":\"String\",\"value\":\"a\"}},\"eventId\":{\"commitNum\":1,\"opNum\":1},\"op\":\"ADD\"}\n",
        // members in another order, twice, unknown, or missing
        "{\"data\":{\"id\":\"v1\",\"key\":\"label\",\"type\":\"vl\",\"value\":{\"dataType\":\"String\",\"value\":\"a\"}},\"commitTimestamp\":0,\"eventId\":{\"commitNum\":1,\"opNum\":1},\"op\":\"ADD\"}",
        "{\"commitTimestamp\":0,\"commitTimestamp\":0,\"data\":{\"id\":\"v1\",\"key\":\"label\",\"type\":\"vl\",\"value\":{\"dataType\":\"String\",\"value\":\"a\"}},\"eventId\":{\"commitNum\":1,\"opNum\":1},\"op\":\"ADD\"}",
        "{\"commitTimestamp\":0,\"data\":{\"id\":\"v1\",\"key\":\"label\",\"type\":\"vl\",\"value\":{\"dataType\":\"String\",\"value\":\"a\"}},\"eventId\":{\"commitNum\":1,\"opNum\":1},\"more\":1,\"op\":\"ADD\"}",
        "{\"commitTimestamp\":0,\"data\":{\"id\":\"v1\",\"key\":\"label\",\"type\":\"vl\",\"value\":{\"dataType\":\"String\",\"value\":\"a\"}},\"eventId\":{\"commitNum\":1},\"op\":\"ADD\"}",
        "{\"commitTimestamp\":0,\"data\":{\"id\":\"v1\",\"key\":\"label\",\"type\":\"vl\",\"value\":{\"dataType\":\"String\",\"value\":\"a\"}},\"eventId\":{\"commitNum\":1,\"opNum\":1}}",
        "{\"commitTimestamp\":0,\"data\":{\"from\":\"v1\",\"id\":\"e1\",\"key\":\"label\",\"type\":\"e\",\"value\":{\"dataType\":\"String\",\"value\":\"a\"}},\"eventId\":{\"commitNum\":1,\"opNum\":1},\"op\":\"ADD\"}",
        // last, or not
        "{\"commitTimestamp\":0,\"data\":{\"id\":\"v1\",\"key\":\"label\",\"type\":\"vl\",\"value\":{\"dataType\":\"String\",\"value\":\"a\"}},\"eventId\":{\"commitNum\":1,\"opNum\":1},\"isLastOp\":false,\"op\":\"ADD\"}",
        // numbers out of range, or in another spelling
        "{\"commitTimestamp\":-1,\"data\":{\"id\":\"v1\",\"key\":\"label\",\"type\":\"vl\",\"value\":{\"dataType\":\"String\",\"value\":\"a\"}},\"eventId\":{\"commitNum\":1,\"opNum\":1},\"op\":\"ADD\"}",
        "{\"commitTimestamp\":18446744073709551616,\"data\":{\"id\":\"v1\",\"key\":\"label\",\"type\":\"vl\",\"value\":{\"dataType\":\"String\",\"value\":\"a\"}},\"eventId\":{\"commitNum\":1,\"opNum\":1},\"op\":\"ADD\"}",
        "{\"commitTimestamp\":0,\"data\":{\"id\":\"v1\",\"key\":\"label\",\"type\":\"vl\",\"value\":{\"dataType\":\"String\",\"value\":\"a\"}},\"eventId\":{\"commitNum\":0,\"opNum\":1},\"op\":\"ADD\"}",
        "{\"commitTimestamp\":0,\"data\":{\"id\":\"v1\",\"key\":\"label\",\"type\":\"vl\",\"value\":{\"dataType\":\"String\",\"value\":\"a\"}},\"eventId\":{\"commitNum\":1,\"opNum\":0},\"op\":\"ADD\"}",
        "{\"commitTimestamp\":0,\"data\":{\"id\":\"v1\",\"key\":\"label\",\"type\":\"vl\",\"value\":{\"dataType\":\"String\",\"value\":\"a\"}},\"eventId\":{\"commitNum\":1.0,\"opNum\":1},\"op\":\"ADD\"}",
        "{\"commitTimestamp\":0,\"data\":{\"id\":\"v1\",\"key\":\"label\",\"type\":\"vl\",\"value\":{\"dataType\":\"String\",\"value\":\"a\"}},\"eventId\":{\"commitNum\":1e0,\"opNum\":1},\"op\":\"ADD\"}",
        "{\"commitTimestamp\":-0,\"data\":{\"id\":\"v1\",\"key\":\"label\",\"type\":\"vl\",\"value\":{\"dataType\":\"String\",\"value\":\"a\"}},\"eventId\":{\"commitNum\":1,\"opNum\":1},\"op\":\"ADD\"}",
        "{\"commitTimestamp\":0,\"data\":{\"id\":\"v1\",\"key\":\"label\",\"type\":\"vl\",\"value\":{\"dataType\":\"String\",\"value\":\"a\"}},\"eventId\":{\"commitNum\":-0,\"opNum\":1},\"op\":\"ADD\"}",
        "{\"commitTimestamp\":0,\"data\":{\"id\":\"v1\",\"key\":\"label\",\"type\":\"vl\",\"value\":{\"dataType\":\"String\",\"value\":\"a\"}},\"eventId\":{\"commitNum\":\"1\",\"opNum\":1},\"op\":\"ADD\"}",
    ] {
        assert!(rt;
            refusal(rt.alloc(), text.as_bytes()) == Some(EventRefusal::NotAnEvent),
            "{text}"
        );
    }
}

#[test]
fn records_of_no_change_are_no_events(rt: HostRuntime) {
    for (data, op) in [
        (
            "{\"id\":\"v1\",\"key\":\"label\",\"type\":\"vl\",\"value\":{\"dataType\":\"String\",\"value\":\"a\"}}",
            "REMOVE",
        ),
        (
            "{\"from\":\"v1\",\"id\":\"e1\",\"key\":\"label\",\"to\":\"v2\",\"type\":\"e\",\"value\":{\"dataType\":\"String\",\"value\":\"a\"}}",
            "REMOVE",
        ),
        (
            "{\"id\":\"v1\",\"key\":\"name\",\"type\":\"vl\",\"value\":{\"dataType\":\"String\",\"value\":\"a\"}}",
            "ADD",
        ),
        (
            "{\"id\":\"v1\",\"key\":\"label\",\"type\":\"vl\",\"value\":{\"dataType\":\"Int\",\"value\":1}}",
            "ADD",
        ),
        (
            "{\"id\":\"v1\",\"key\":\"label\",\"type\":\"vl\",\"value\":{\"dataType\":\"String\",\"value\":\"\"}}",
            "ADD",
        ),
        (
            "{\"id\":\"\",\"key\":\"label\",\"type\":\"vl\",\"value\":{\"dataType\":\"String\",\"value\":\"a\"}}",
            "ADD",
        ),
        (
            "{\"id\":\"v1\",\"key\":\"\",\"type\":\"vp\",\"value\":{\"dataType\":\"String\",\"value\":\"a\"}}",
            "ADD",
        ),
        (
            "{\"id\":\"v1\",\"key\":\"k\",\"type\":\"vx\",\"value\":{\"dataType\":\"String\",\"value\":\"a\"}}",
            "ADD",
        ),
        (
            "{\"id\":\"v1\",\"key\":\"k\",\"type\":\"vp\",\"value\":{\"dataType\":\"String\",\"value\":\"a\"}}",
            "add",
        ),
        (
            "{\"from\":\"v1\",\"id\":\"e1\",\"key\":\"label\",\"to\":\"\",\"type\":\"e\",\"value\":{\"dataType\":\"String\",\"value\":\"a\"}}",
            "ADD",
        ),
    ] {
        let text = record(rt.alloc(), data, op).expect(&rt, "memory");
        assert!(rt;
            refusal(rt.alloc(), text.as_bytes()) == Some(EventRefusal::NotAnEvent),
            "{text}"
        );
    }
}

// A record of an event with this data.
fn record(alloc: Global, data: &str, op: &str) -> Result<String, AllocError> {
    format!(in alloc;
        "{{\"commitTimestamp\":7,\"data\":{data},\"eventId\":{{\"commitNum\":1,\"opNum\":2}},\"op\":\"{op}\"}}"
    )
}

// The value of an edge at the key `k` that is read from a record with this type and JSON.
fn value_read(alloc: Global, kind: &str, json: &str) -> Result<Value, EventRefusal> {
    let Ok(data) = format!(in alloc;
        "{{\"id\":\"e1\",\"key\":\"k\",\"type\":\"ep\",\"value\":{{\"dataType\":\"{kind}\",\"value\":{json}}}}}"
    ) else {
        return Err(EventRefusal::NoMemory);
    };
    let Ok(text) = record(alloc, &data, "ADD") else {
        return Err(EventRefusal::NoMemory);
    };
    match read_event(alloc, text.as_bytes())?.change {
        Change::AddValue { value, .. } => Ok(value),
        _ => Err(EventRefusal::NotAnEvent),
    }
}

#[test]
fn values_are_read_by_their_types(rt: HostRuntime) {
    for (kind, json, want) in [
        ("Boolean", "true", Value::Bool(true)),
        ("Boolean", "false", Value::Bool(false)),
        ("Byte", "-128", Value::Byte(-128)),
        ("Byte", "127", Value::Byte(127)),
        ("Short", "-32768", Value::Short(-32768)),
        ("Short", "32767", Value::Short(32767)),
        ("Int", "-2147483648", Value::Int(-2147483648)),
        ("Int", "2147483647", Value::Int(2147483647)),
        ("Int", "0", Value::Int(0)),
        (
            "Long",
            "-9223372036854775808",
            Value::Long(-9223372036854775808),
        ),
        (
            "Long",
            "9223372036854775807",
            Value::Long(9223372036854775807),
        ),
        (
            "Date",
            "\"0000-01-01T00:00:00Z\"",
            Value::Date(-62167219200),
        ),
        (
            "Date",
            "\"9999-12-31T23:59:59Z\"",
            Value::Date(253402300799),
        ),
        ("Date", "\"2020-02-29T23:59:00Z\"", Value::Date(1583020740)),
        ("Date", "\"1969-12-31T23:59:59Z\"", Value::Date(-1)),
    ] {
        let value = value_read(rt.alloc(), kind, json).expect(&rt, json);
        assert!(rt; value == want, "{kind} {json}");
    }
    date_texts_are_read_back();
}

#[test]
fn values_out_of_their_types_are_none(rt: HostRuntime) {
    for (kind, json) in [
        ("Boolean", "0"),
        ("Boolean", "\"true\""),
        ("Byte", "128"),
        ("Byte", "-129"),
        ("Short", "32768"),
        ("Short", "-32769"),
        ("Int", "2147483648"),
        ("Int", "-2147483649"),
        ("Long", "9223372036854775808"),
        ("Long", "-9223372036854775809"),
        ("Long", "-0"),
        ("Long", "1.0"),
        ("Long", "1e0"),
        ("Long", "\"1\""),
        ("String", "1"),
        ("String", "null"),
        ("Date", "0"),
        ("Date", "\"2020-02-29\""),
        ("Date", "\"2020-02-29T23:59\""),
        ("Date", "\"2020-02-29T23:59:00\""),
        ("Date", "\" 2020-02-29T23:59:00Z\""),
        ("Date", "\" 2020-02-29T23:59:00\""),
        ("Date", "\"          2020-02-29\""),
        ("Date", "\"                    \""),
        ("Date", "\"2021-02-29T00:00:00Z\""),
        ("Date", "\"2020-02-29T24:00:00Z\""),
        ("Date", "\"2020-02-29t23:59:00Z\""),
        ("Date", "\"-001-02-29T23:59:00Z\""),
        ("Date", "\"10000-01-01T00:00:00Z\""),
        ("Date", "\"\""),
        ("Float", "1"),
        ("string", "\"a\""),
    ] {
        let value = value_read(rt.alloc(), kind, json);
        assert!(rt;
            value.err() == Some(EventRefusal::NotAnEvent),
            "{kind} {json}"
        );
    }
}

#[test]
fn each_printed_escape_is_read(rt: HostRuntime) {
    for (escape, byte) in [
        ("\\u0000", 0),
        ("\\u0001", 1),
        ("\\u0002", 2),
        ("\\u0003", 3),
        ("\\u0004", 4),
        ("\\u0005", 5),
        ("\\u0006", 6),
        ("\\u0007", 7),
        ("\\b", 8),
        ("\\t", 9),
        ("\\n", 10),
        ("\\u000b", 11),
        ("\\f", 12),
        ("\\r", 13),
        ("\\u000e", 14),
        ("\\u000f", 15),
        ("\\u0010", 16),
        ("\\u0011", 17),
        ("\\u0012", 18),
        ("\\u0013", 19),
        ("\\u0014", 20),
        ("\\u0015", 21),
        ("\\u0016", 22),
        ("\\u0017", 23),
        ("\\u0018", 24),
        ("\\u0019", 25),
        ("\\u001a", 26),
        ("\\u001b", 27),
        ("\\u001c", 28),
        ("\\u001d", 29),
        ("\\u001e", 30),
        ("\\u001f", 31),
        ("\\\"", 34),
        ("\\\\", 92),
        ("/", 47),
        ("\x7f", 127),
    ] {
        let json = format!(in rt.alloc(); "\"a{escape}\"").expect(&rt, "memory");
        let text = Text::copy_of(rt.alloc(), &[b'a', byte]).expect(&rt, "memory");
        let value = value_read(rt.alloc(), "String", &json).expect(&rt, escape);
        assert!(rt; value == Value::Str(text), "{escape}");
    }
}

#[test]
fn other_escapes_are_not_those_of_an_event(rt: HostRuntime) {
    for escape in [
        "\\u0041",
        "\\/",
        "\\u001F",
        "\\u0008",
        "\\u0009",
        "\\u000a",
        "\\u000B",
        "\\u0022",
        "\\u005c",
        "\\u007f",
        "\\u00e9",
        "\\ud83d\\ude00",
    ] {
        let json = format!(in rt.alloc(); "\"{escape}\"").expect(&rt, "memory");
        let value = value_read(rt.alloc(), "String", &json);
        assert!(rt; value.err() == Some(EventRefusal::NotAnEvent), "{escape}");
    }
}

fn letters<R: Abort>(rt: &R, alloc: Global, count: usize) -> String {
    let mut text = String::new(alloc);
    for _ in 0..count {
        text.push_str("a").expect(rt, "memory");
    }
    text
}

#[test]
fn ids_labels_and_keys_have_their_lengths(rt: HostRuntime) {
    for (id, key, label, read) in [
        (1, 1, 1, true),
        (1024, 256, 1024, true),
        (1025, 256, 1024, false),
        (1024, 257, 1024, false),
        (1024, 256, 1025, false),
    ] {
        let id = letters(&rt, rt.alloc(), id);
        let key = letters(&rt, rt.alloc(), key);
        let label = letters(&rt, rt.alloc(), label);
        let property = format!(in rt.alloc();
            "{{\"id\":\"{id}\",\"key\":\"{key}\",\"type\":\"vp\",\"value\":{{\"dataType\":\"String\",\"value\":\"\"}}}}"
        ).expect(&rt, "memory");
        let edge = format!(in rt.alloc();
            "{{\"from\":\"{id}\",\"id\":\"{id}\",\"key\":\"label\",\"to\":\"{label}\",\"type\":\"e\",\"value\":{{\"dataType\":\"String\",\"value\":\"{label}\"}}}}"
        ).expect(&rt, "memory");
        let property = record(rt.alloc(), &property, "ADD").expect(&rt, "memory");
        let edge = record(rt.alloc(), &edge, "ADD").expect(&rt, "memory");
        let both = read_event(rt.alloc(), property.as_bytes()).is_ok()
            && read_event(rt.alloc(), edge.as_bytes()).is_ok();
        assert!(rt; both == read, "{property}");
    }
}
