// Values in order, cells, JSON texts and copies.
ghost use Rattle.std.specs.Prelude.{IfOk};
ghost use Rattle.bl_value.specs.Valid.{IsPrintableValue};

use bl_outside::{List, NoMemory, Text};
use bl_value::{
    CellRefusal, Change, FIRST_DATE, LAST_DATE, Side, Value, ValueType, compare, copy_changes,
    is_empty_cell, json_value, read_cell, read_values,
};
use std::alloc::Global;
use std::cmp::Ordering;

// Each value comes before the next.
fn in_order(alloc: Global) -> Result<List<Value>, NoMemory> {
    let mut values = List::new(alloc);
    values.push(Value::Bool(false))?;
    values.push(Value::Bool(true))?;
    values.push(Value::Byte(-128))?;
    values.push(Value::Byte(127))?;
    values.push(Value::Short(-300))?;
    values.push(Value::Int(-1))?;
    values.push(Value::Int(0))?;
    values.push(Value::Long(-9223372036854775808))?;
    values.push(Value::Str(Text::of_str(alloc, "")?))?;
    values.push(Value::Str(Text::of_str(alloc, "a")?))?;
    values.push(Value::Str(Text::of_str(alloc, "aa")?))?;
    values.push(Value::Str(Text::of_str(alloc, "b")?))?;
    values.push(Value::Date(-1))?;
    values.push(Value::Date(0))?;
    Ok(values)
}

#[test]
fn values_go_by_type_and_then_by_value(rt: HostRuntime) {
    let values = in_order(rt.alloc()).expect(&rt, "memory");
    for (i, a) in values.as_slice().iter().enumerate() {
        let copy = a.copy(rt.alloc()).expect(&rt, "memory");
        for (j, b) in values.as_slice().iter().enumerate() {
            assert!(rt; compare(&copy, b) == i.cmp(&j), "{i} and {j}");
        }
    }
}

fn quoted(alloc: Global, words: &str) -> Result<Text, NoMemory> {
    let value = Value::Str(Text::of_str(alloc, words)?);
    json_value(alloc, &value)
}

#[test]
fn a_text_prints_with_its_escapes(rt: HostRuntime) {
    let json = quoted(rt.alloc(), "a,\"b\"\nc\\\u{1}é/").expect(&rt, "memory");
    assert!(rt; json.as_slice() == "\"a,\\\"b\\\"\\nc\\\\\\u0001é/\"".as_bytes());
}

// A cell of the tables, which are short and have values.
fn read(alloc: Global, kind: ValueType, cell: &[u8]) -> Result<Value, CellRefusal> {
    if cell.len() > 1000 || is_empty_cell(kind, cell) {
        return Err(CellRefusal::NoMemory);
    }
    read_cell(alloc, kind, cell)
}

#[test]
fn a_text_cell_is_its_bytes_or_no_utf8(rt: HostRuntime) {
    for (cell, is_text) in [
        (" Zoë, \"a\" ".as_bytes(), true),
        (b"  ".as_slice(), true),
        (b"a\xff".as_slice(), false),
        (b"\xc3".as_slice(), false),
    ] {
        match read(rt.alloc(), ValueType::Str, cell) {
            Ok(Value::Str(text)) => assert!(rt; is_text && text.as_slice() == cell),
            Ok(_) => assert!(rt; false),
            Err(refusal) => assert!(rt; !is_text && refusal == CellRefusal::NotUtf8),
        }
    }
}

#[test]
fn bytes_that_are_no_utf8_are_so_for_each_type(rt: HostRuntime) {
    for kind in [
        ValueType::Bool,
        ValueType::Byte,
        ValueType::Short,
        ValueType::Int,
        ValueType::Long,
        ValueType::Date,
    ] {
        let refused = read(rt.alloc(), kind, b"1\xff");
        assert!(rt; matches!(refused, Err(CellRefusal::NotUtf8)));
    }
    for (cell, want) in [
        (b"1;\xff;x".as_slice(), CellRefusal::NotUtf8),
        (b"x;\xff", CellRefusal::NotOfType),
        (b"300;\xff", CellRefusal::OutOfRange),
    ] {
        let refused = read_values(rt.alloc(), ValueType::Byte, true, cell);
        assert!(rt; refused.err() == Some(want));
    }
}

// The number that a value has, where it is of that type.
pub fn number_of(kind: ValueType, value: &Value) -> Option<i64> {
    match (kind, value) {
        (ValueType::Byte, Value::Byte(n)) => Some(*n as i64),
        (ValueType::Short, Value::Short(n)) => Some(*n as i64),
        (ValueType::Int, Value::Int(n)) => Some(*n as i64),
        (ValueType::Long, Value::Long(n)) => Some(*n),
        (ValueType::Date, Value::Date(seconds)) => Some(*seconds),
        _ => None,
    }
}

fn read_number(alloc: Global, kind: ValueType, cell: &str) -> Result<Option<i64>, CellRefusal> {
    let value = read(alloc, kind, cell.as_bytes())?;
    Ok(number_of(kind, &value))
}

#[test]
fn integers_have_the_ends_of_their_types(rt: HostRuntime) {
    for (kind, cell, want) in [
        (ValueType::Byte, "127", Ok(Some(127))),
        (ValueType::Byte, "128", Err(CellRefusal::OutOfRange)),
        (ValueType::Byte, "-128", Ok(Some(-128))),
        (ValueType::Byte, "-129", Err(CellRefusal::OutOfRange)),
        (ValueType::Byte, "00127", Ok(Some(127))),
        (ValueType::Short, "+32767", Ok(Some(32767))),
        (ValueType::Short, "+32768", Err(CellRefusal::OutOfRange)),
        (ValueType::Short, "-32768", Ok(Some(-32768))),
        (ValueType::Short, "-32769", Err(CellRefusal::OutOfRange)),
        (ValueType::Int, "2147483647", Ok(Some(2147483647))),
        (ValueType::Int, "2147483648", Err(CellRefusal::OutOfRange)),
        (ValueType::Int, "-2147483648", Ok(Some(-2147483648))),
        (ValueType::Int, "-2147483649", Err(CellRefusal::OutOfRange)),
        (
            ValueType::Long,
            "9223372036854775807",
            Ok(Some(9223372036854775807)),
        ),
        (
            ValueType::Long,
            "9223372036854775808",
            Err(CellRefusal::OutOfRange),
        ),
        (
            ValueType::Long,
            "-9223372036854775808",
            Ok(Some(-9223372036854775808)),
        ),
        (
            ValueType::Long,
            "-9223372036854775809",
            Err(CellRefusal::OutOfRange),
        ),
        (
            ValueType::Long,
            "340282366920938463463374607431768211456",
            Err(CellRefusal::OutOfRange),
        ),
    ] {
        assert!(rt; read_number(rt.alloc(), kind, cell) == want, "{cell}");
    }
}

#[test]
fn integers_have_a_sign_digits_and_nothing_else(rt: HostRuntime) {
    for (cell, want) in [
        (" +7 ", Ok(Some(7))),
        ("-0", Ok(Some(0))),
        ("000", Ok(Some(0))),
        ("+", Err(CellRefusal::NotOfType)),
        ("-", Err(CellRefusal::NotOfType)),
        ("+-1", Err(CellRefusal::NotOfType)),
        ("- 1", Err(CellRefusal::NotOfType)),
        ("1 2", Err(CellRefusal::NotOfType)),
        ("1.0", Err(CellRefusal::NotOfType)),
        ("1e3", Err(CellRefusal::NotOfType)),
        ("0x1f", Err(CellRefusal::NotOfType)),
        ("1;2", Err(CellRefusal::NotOfType)),
        ("\t1", Err(CellRefusal::NotOfType)),
        ("99999999999x", Err(CellRefusal::NotOfType)),
        ("\u{661}", Err(CellRefusal::NotOfType)),
    ] {
        assert!(rt;
            read_number(rt.alloc(), ValueType::Int, cell) == want,
            "{cell}"
        );
    }
}

#[test]
fn true_is_true_in_any_letter_case(rt: HostRuntime) {
    for (cell, want) in [
        ("true", true),
        ("TRUE", true),
        (" tRuE ", true),
        ("yes", false),
        ("1", false),
        ("t", false),
        ("truer", false),
        ("false", false),
    ] {
        match read(rt.alloc(), ValueType::Bool, cell.as_bytes()) {
            Ok(Value::Bool(b)) => assert!(rt; b == want, "{cell}"),
            _ => assert!(rt; false, "{cell}"),
        }
    }
}

#[test]
fn dates_have_four_forms_and_real_days(rt: HostRuntime) {
    for (cell, want) in [
        ("2020-02-29", Some(1582934400)),
        (" 2020-02-29 ", Some(1582934400)),
        ("2020-02-29T23:59", Some(1583020740)),
        ("2000-02-29T12:34:56", Some(951827696)),
        ("2000-02-29T12:34:56Z", Some(951827696)),
        ("1969-12-31T23:59:59Z", Some(-1)),
        ("1900-02-28", Some(-2203977600)),
        ("1900-03-01", Some(-2203891200)),
        ("0000-01-01", Some(-62167219200)),
        ("0000-02-29T00:00", Some(-62162121600)),
        ("9999-12-31T23:59:59", Some(253402300799)),
        ("1900-02-29", None),
        ("2021-02-29", None),
        ("2021-04-31", None),
        ("2021-00-10", None),
        ("2021-13-10", None),
        ("2021-01-00", None),
        ("2021-01-32", None),
        ("2020-02-29T24:00", None),
        ("2020-02-29T23:60", None),
        ("2020-02-29T23:59:60", None),
        ("2020-02-29T23:59Z", None),
        ("2020-02-29Z", None),
        ("2020-02-29T23", None),
        ("2020-02-29t23:59", None),
        ("2020-02-29 23:59", None),
        ("2020-02-29T23:59:59z", None),
        ("2020-02-29T23:59:59.5", None),
        ("2020-2-9", None),
        ("20200229", None),
        ("+2020-02-29", None),
        ("-001-02-03", None),
        ("10000-01-01", None),
        ("yesterday", None),
    ] {
        let date = read_number(rt.alloc(), ValueType::Date, cell);
        match want {
            Some(seconds) => assert!(rt; date == Ok(Some(seconds)), "{cell}"),
            None => assert!(rt; date == Err(CellRefusal::NotOfType), "{cell}"),
        }
    }
}

#[derive(Clone, Copy)]
enum Printed {
    Bool(bool),
    Byte(i8),
    Short(i16),
    Int(i32),
    Long(i64),
    Date(i64),
}

fn json_text(alloc: Global, value: Printed) -> Result<Text, NoMemory> {
    let value = match value {
        Printed::Bool(b) => Value::Bool(b),
        Printed::Byte(n) => Value::Byte(n),
        Printed::Short(n) => Value::Short(n),
        Printed::Int(n) => Value::Int(n),
        Printed::Long(n) => Value::Long(n),
        Printed::Date(seconds) => date(seconds)?,
    };
    json_value(alloc, &value)
}

fn date(seconds: i64) -> Result<Value, NoMemory>
    ensures { IfOk result IsPrintableValue }
{
    if !(FIRST_DATE..=LAST_DATE).contains(&seconds) {
        return Err(NoMemory);
    }
    Ok(Value::Date(seconds))
}

#[test]
fn values_print_as_json(rt: HostRuntime) {
    for (value, want) in [
        (Printed::Bool(true), "true"),
        (Printed::Bool(false), "false"),
        (Printed::Byte(-128), "-128"),
        (Printed::Byte(0), "0"),
        (Printed::Short(32767), "32767"),
        (Printed::Int(-2147483648), "-2147483648"),
        (Printed::Long(9223372036854775807), "9223372036854775807"),
        (Printed::Long(-9223372036854775808), "-9223372036854775808"),
        (Printed::Date(0), "\"1970-01-01T00:00:00Z\""),
        (Printed::Date(-1), "\"1969-12-31T23:59:59Z\""),
        (Printed::Date(1583020740), "\"2020-02-29T23:59:00Z\""),
        (Printed::Date(951827696), "\"2000-02-29T12:34:56Z\""),
        (Printed::Date(-62167219200), "\"0000-01-01T00:00:00Z\""),
        (Printed::Date(253402300799), "\"9999-12-31T23:59:59Z\""),
    ] {
        let text = json_text(rt.alloc(), value).expect(&rt, "memory");
        assert!(rt; text.as_slice() == want.as_bytes(), "{want}");
    }
}

fn changes(alloc: Global) -> Result<List<Change>, NoMemory> {
    let mut changes = List::new(alloc);
    changes.push(Change::AddLabel {
        id: Text::of_str(alloc, "v1")?,
        label: Text::of_str(alloc, "person")?,
    })?;
    changes.push(Change::AddEdge {
        id: Text::of_str(alloc, "e1")?,
        label: Text::of_str(alloc, "knows")?,
        from: Text::of_str(alloc, "v1")?,
        to: Text::of_str(alloc, "v2")?,
    })?;
    changes.push(Change::AddValue {
        side: Side::Vertex,
        id: Text::of_str(alloc, "v1")?,
        key: Text::of_str(alloc, "name")?,
        value: Value::Str(Text::of_str(alloc, "Ann")?),
    })?;
    changes.push(Change::RemoveValue {
        side: Side::Edge,
        id: Text::of_str(alloc, "e1")?,
        key: Text::of_str(alloc, "since")?,
        value: Value::Int(7),
    })?;
    copy_changes(alloc, &changes)
}

#[test]
fn a_copy_of_changes_has_each_of_them(rt: HostRuntime) {
    let copy = changes(rt.alloc()).expect(&rt, "memory");
    assert!(rt; copy.len() == 4);
    let Some(Change::RemoveValue { value, .. }) = copy.get(3) else {
        assert!(rt; false);
        return;
    };
    assert!(rt; compare(value, &Value::Int(7)) == Ordering::Equal);
}
