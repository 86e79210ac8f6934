// Arrays, the items that semicolons divide, and what is kept once.
use crate::tests::number_of;
use bl_outside::{List, NoMemory, Text};
use bl_value::{
    CellRefusal, EachOnce, Value, ValueType, is_one_item, items, read_text_values, read_values,
};
use std::alloc::Global;

fn have_numbers(kind: ValueType, values: &List<Value>, numbers: &[i64]) -> bool {
    values.len() == numbers.len()
        && values
            .as_slice()
            .iter()
            .zip(numbers)
            .all(|(value, number)| number_of(kind, value) == Some(*number))
}

#[test]
fn an_array_has_each_value_once(rt: HostRuntime) {
    let long = "0;1;2;3;4;5;6;7;8;9;10;11;12;13;14;15;16;17;0;17;1;18;18;0";
    let all = [
        0, 1, 2, 3, 4, 5, 6, 7, 8, 9, 10, 11, 12, 13, 14, 15, 16, 17, 18,
    ];
    for (kind, cell, want) in [
        (ValueType::Int, "7", [7].as_slice()),
        (ValueType::Int, " 1 ;; +2;1 ; ", &[1, 2]),
        (ValueType::Int, "3;2;3;1;2;03", &[3, 2, 1]),
        (ValueType::Byte, " ; ;", &[]),
        (ValueType::Long, "", &[]),
        (ValueType::Short, long, &all),
        (ValueType::Date, "1970-01-02;1970-01-02T00:00", &[86400]),
    ] {
        match read_values(rt.alloc(), kind, true, cell.as_bytes()) {
            Ok(values) => assert!(rt; have_numbers(kind, &values, want), "{cell}"),
            Err(_) => assert!(rt; false, "{cell}"),
        }
    }
}

#[test]
fn an_array_is_refused_as_its_first_faulty_item(rt: HostRuntime) {
    for (kind, cell, want) in [
        (ValueType::Int, "1;x;99999999999", CellRefusal::NotOfType),
        (ValueType::Byte, "1;300;x", CellRefusal::OutOfRange),
        (ValueType::Int, "1\\;2", CellRefusal::NotOfType),
        (ValueType::Date, ";2021-02-29", CellRefusal::NotOfType),
    ] {
        match read_values(rt.alloc(), kind, true, cell.as_bytes()) {
            Ok(_) => assert!(rt; false, "{cell}"),
            Err(refusal) => assert!(rt; refusal == want, "{cell}"),
        }
    }
}

#[test]
fn a_cell_that_is_no_array_has_one_value_or_none(rt: HostRuntime) {
    for (cell, want) in [("5", [5].as_slice()), ("  ", &[]), ("", &[])] {
        match read_values(rt.alloc(), ValueType::Int, false, cell.as_bytes()) {
            Ok(values) => assert!(rt; have_numbers(ValueType::Int, &values, want), "{cell}"),
            Err(_) => assert!(rt; false, "{cell}"),
        }
    }
    let refused = read_values(rt.alloc(), ValueType::Int, false, b"5;6");
    assert!(rt; matches!(refused, Err(CellRefusal::NotOfType)));
}

fn are_texts(values: &List<Value>, texts: &[&str]) -> bool {
    values.len() == texts.len()
        && values.as_slice().iter().zip(texts).all(|(value, text)| {
            match value {
                Value::Str(bytes) => bytes.as_slice() == text.as_bytes(),
                _ => false,
            }
        })
}

#[test]
fn semicolons_divide_texts_but_escaped_ones_stand(rt: HostRuntime) {
    for (cell, many, want) in [
        ("a;b;a;;c", true, ["a", "b", "c"].as_slice()),
        ("a\\;b;c", true, &["a;b", "c"]),
        ("\\;a;b\\;", true, &[";a", "b;"]),
        ("a\\b;c\\\\;d;\\", true, &["a\\b", "c\\;d", "\\"]),
        (" ;a ; ", true, &[" ", "a "]),
        (";;", true, &[]),
        ("a;b\\;", false, &["a;b\\;"]),
        ("", false, &[]),
    ] {
        match read_values(rt.alloc(), ValueType::Str, many, cell.as_bytes()) {
            Ok(values) => assert!(rt; are_texts(&values, want), "{cell}"),
            Err(_) => assert!(rt; false, "{cell}"),
        }
    }
}

#[test]
fn a_text_that_is_known_to_be_one_is_read_as_any(rt: HostRuntime) {
    for (kind, many, cell, want) in [
        (ValueType::Int, true, "7", [7].as_slice()),
        (ValueType::Int, true, "3;2;3;2", &[3, 2]),
        (ValueType::Byte, false, "-128", &[-128]),
        (ValueType::Long, false, " ", &[]),
    ] {
        match read_text_values(rt.alloc(), kind, many, cell.as_bytes()) {
            Ok(values) => assert!(rt; have_numbers(kind, &values, want), "{cell}"),
            Err(_) => assert!(rt; false, "{cell}"),
        }
    }
    let refused = read_text_values(rt.alloc(), ValueType::Byte, true, b"1\\;2;x");
    assert!(rt; refused.err() == Some(CellRefusal::NotOfType));
}

#[test]
fn a_cell_without_a_semicolon_and_a_backslash_is_one_item(rt: HostRuntime) {
    for (cell, is_one) in [
        ("", true),
        ("a b", true),
        ("a;b", false),
        (";", false),
        ("a\\b", false),
    ] {
        assert!(rt; is_one_item(cell.as_bytes()) == is_one, "{cell}");
    }
}

// The words, each once.
fn each_once(alloc: Global, words: &[u8]) -> Result<List<Text>, NoMemory> {
    let mut once = EachOnce::new(alloc);
    for byte in words {
        once.push(alloc, Text::copy_of(alloc, &[*byte])?)?;
    }
    Ok(once.into_list())
}

#[test]
fn texts_are_kept_each_once_however_many(rt: HostRuntime) {
    for (words, want) in [
        (b"".as_slice(), b"".as_slice()),
        (b"abcab", b"abc"),
        (b"aaa", b"a"),
        (
            b"abcdefghijklmnopqrstuvwxyzazbycxaabbccz".as_slice(),
            b"abcdefghijklmnopqrstuvwxyz",
        ),
        (b"abcdefghijklmnoppoq", b"abcdefghijklmnopq"),
    ] {
        let once = each_once(rt.alloc(), words).expect(&rt, "memory");
        assert!(rt; once.len() == want.len());
        for (text, byte) in once.as_slice().iter().zip(want) {
            assert!(rt; text.as_slice() == [*byte].as_slice());
        }
    }
}

#[test]
fn items_are_all_that_semicolons_divide(rt: HostRuntime) {
    for (cell, want) in [
        ("", [""].as_slice()),
        ("a;;b", &["a", "", "b"]),
        ("a;a;", &["a", "a", ""]),
        ("x\\;y;z", &["x;y", "z"]),
    ] {
        let items = items(rt.alloc(), cell.as_bytes()).expect(&rt, "memory");
        assert!(rt; items.len() == want.len(), "{cell}");
        for (item, text) in items.as_slice().iter().zip(want) {
            assert!(rt; item.as_slice() == text.as_bytes(), "{cell}");
        }
    }
}
