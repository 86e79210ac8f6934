// Records as rows.
ghost use Rattle.std.specs.Prelude.{IfOk};
ghost use Rattle.bl_value.specs.ValidColumns.{IsColumns};

use crate::row_lines::written;
use bl_outside::{List, NoMemory, Text};
use bl_rows::{Refused, convert, row_of};
use bl_value::{Column, ColumnUse, Columns, Row, Side, ValueType};
use std::alloc::Global;

fn property(
    alloc: Global,
    name: &str,
    kind: ValueType,
    single: bool,
    many: bool,
) -> Result<ColumnUse, NoMemory> {
    Ok(ColumnUse::Property(Column {
        name: Text::of_str(alloc, name)?,
        kind,
        single,
        many,
    }))
}

// `~id,~label,age:Byte,tags:String[]`
fn vertex_columns(alloc: Global) -> Result<Columns, NoMemory> {
    let mut uses = Vec::new(alloc);
    uses.push(ColumnUse::Id)?;
    uses.push(ColumnUse::Label)?;
    uses.push(property(alloc, "age", ValueType::Byte, false, false)?)?;
    uses.push(property(alloc, "tags", ValueType::Str, false, true)?)?;
    Ok(Columns {
        side: Side::Vertex,
        uses: List::from_vec(uses),
    })
}

// `w:Int,~from,~id,~to,~label`
fn edge_columns(alloc: Global) -> Result<Columns, NoMemory> {
    let mut uses = Vec::new(alloc);
    uses.push(property(alloc, "w", ValueType::Int, true, false)?)?;
    uses.push(ColumnUse::From)?;
    uses.push(ColumnUse::Id)?;
    uses.push(ColumnUse::To)?;
    uses.push(ColumnUse::Label)?;
    Ok(Columns {
        side: Side::Edge,
        uses: List::from_vec(uses),
    })
}

// The fields of a line with bars between them.
fn fields_of(alloc: Global, line: &[u8]) -> Result<List<Text>, NoMemory> {
    let mut fields = List::new(alloc);
    let mut field = Text::new(alloc);
    for byte in line {
        if *byte == b'|' {
            fields.push(field)?;
            field = Text::new(alloc);
        } else {
            field.push(*byte)?;
        }
    }
    fields.push(field)?;
    Ok(fields)
}

// What the record of a line says.
fn said(alloc: Global, columns: &Columns, line: &[u8]) -> Result<Text, NoMemory> {
    let fields = fields_of(alloc, line)?;
    if columns.uses.len() > 100 {
        return Err(NoMemory);
    }
    match row_of(alloc, columns, fields.as_slice()) {
        Ok(row) => written(alloc, &row),
        Err(Refused::Fault { code, column }) => written(alloc, &Row::Bad { code, column }),
        Err(Refused::NoMemory) => Err(NoMemory),
    }
}

#[test]
fn a_vertex_record_is_a_row_or_its_least_fault(rt: HostRuntime) {
    let columns = vertex_columns(rt.alloc()).expect(&rt, "memory");
    let table: [(&[u8], &[u8]); 24] = [
        (b"a||127|", b"|a age=127"),
        (b"b||128|", b"OutOfRange 3"),
        (b"c||-128|", b"|c age=-128"),
        (b" d || +7 |", b"|d age=7"),
        (b"e|| |", b"|e"),
        (b"f||x|", b"NotOfType 3"),
        (b"v1|||a\\;b;;a;a", b"|v1 tags=a;b=a"),
        (b"v1||| ", b"|v1 tags= "),
        (b"v1|a; b ;a;; ;b|1|x", b"|v1|a|b age=1 tags=x"),
        (b"v1| person ||", b"|v1|person"),
        (b"v1|a\\;b||", b"|v1|a;b"),
        (b"|x|1|", b"MissingId 1"),
        (b"  |x|x|", b"MissingId 1"),
        (b"v1||", b"ColumnCount 0"),
        (b"||", b"ColumnCount 0"),
        (b"v1||1||", b"ColumnCount 0"),
        (b"v1|||\xff", b"NotUtf8 0"),
        (b"|||\xff", b"NotUtf8 0"),
        (b"v1||\xff|", b"NotUtf8 0"),
        (b"\xff|||", b"NotUtf8 0"),
        (b"v1|\xff", b"ColumnCount 0"),
        (b"v1||999|a", b"OutOfRange 3"),
        (b"v1||999x|a", b"NotOfType 3"),
        ("é|ä;ö;ä||".as_bytes(), "|é|ä|ö".as_bytes()),
    ];
    for (line, wanted) in &table {
        let row = said(rt.alloc(), &columns, line).expect(&rt, "memory");
        assert!(rt; row.as_slice() == *wanted);
    }
}

#[test]
fn an_edge_record_is_a_row_or_its_least_fault(rt: HostRuntime) {
    let columns = edge_columns(rt.alloc()).expect(&rt, "memory");
    let table: [(&[u8], &[u8]); 10] = [
        (b"7|a|e1|b|knows", b"|e1|knows|a|b w=7"),
        (b"|a|e1|b|", b"|e1|edge|a|b"),
        (b"| a | e1 | b |  ", b"|e1|edge|a|b"),
        (b"|a|e1|b| x;y ", b"|e1|x;y|a|b"),
        (b"x||e1|b|", b"MissingId 2"),
        (b"x|a||b|", b"MissingId 3"),
        (b"x|a|e1||", b"MissingId 4"),
        (b"|| ||", b"MissingId 2"),
        (b"2147483648|a|e1|b|", b"OutOfRange 1"),
        (b"1|a|e1|b", b"ColumnCount 0"),
    ];
    for (line, wanted) in &table {
        let row = said(rt.alloc(), &columns, line).expect(&rt, "memory");
        assert!(rt; row.as_slice() == *wanted);
    }
}

// A line of a text, so many times a byte, and another text.
fn line_of(alloc: Global, before: &str, size: usize, after: &str) -> Result<Text, NoMemory> {
    let mut line = Text::of_str(alloc, before)?;
    for _ in 0..size {
        line.push(b'x')?;
    }
    line.extend(after.as_bytes())?;
    Ok(line)
}

#[test]
fn each_limit_is_kept_to_the_byte(rt: HostRuntime) {
    let alloc = rt.alloc();
    let columns = vertex_columns(alloc).expect(&rt, "memory");
    let table: [(&str, usize, &str, &[u8]); 7] = [
        ("", 1025, "|||", b"IdTooLong 1"),
        (" ", 1025, " |||", b"IdTooLong 1"),
        ("v|a;", 1025, ";b||", b"IdTooLong 2"),
        ("|a;", 1025, ";b||", b"MissingId 1"),
        ("v|", 1025, "|x|", b"IdTooLong 2"),
        ("v|||", 1_048_576, "", b"RecordTooLarge 0"),
        ("|||", 1_048_577, "", b"RecordTooLarge 0"),
    ];
    for (before, size, after, wanted) in &table {
        let line = line_of(alloc, before, *size, after).expect(&rt, "memory");
        let row = said(alloc, &columns, line.as_slice()).expect(&rt, "memory");
        assert!(rt; row.as_slice() == *wanted);
    }
    let kept: [(&str, usize, &str); 3] = [
        ("", 1024, "|||"),
        ("v|a; ", 1024, " ;b||"),
        ("v|||", 1_048_575, ""),
    ];
    for (before, size, after) in &kept {
        let line = line_of(alloc, before, *size, after).expect(&rt, "memory");
        let row = said(alloc, &columns, line.as_slice()).expect(&rt, "memory");
        assert!(rt; row.get(0).copied() == Some(b'|'));
    }
}

#[test]
fn each_id_of_an_edge_has_its_limit(rt: HostRuntime) {
    let alloc = rt.alloc();
    let columns = edge_columns(alloc).expect(&rt, "memory");
    let table: [(&str, &str, &[u8]); 4] = [
        ("|", "|e1|b|", b"IdTooLong 2"),
        ("|a|", "|b|", b"IdTooLong 3"),
        ("|a|e1|", "|", b"IdTooLong 4"),
        ("|a|e1|b|", "", b"IdTooLong 5"),
    ];
    for (before, after, wanted) in &table {
        let line = line_of(alloc, before, 1024, after).expect(&rt, "memory");
        let row = said(alloc, &columns, line.as_slice()).expect(&rt, "memory");
        assert!(rt; row.get(0).copied() == Some(b'|'));
        let line = line_of(alloc, before, 1025, after).expect(&rt, "memory");
        let row = said(alloc, &columns, line.as_slice()).expect(&rt, "memory");
        assert!(rt; row.as_slice() == *wanted);
    }
}

#[test]
fn the_leftmost_of_the_ids_at_fault_is_told(rt: HostRuntime) {
    let alloc = rt.alloc();
    let columns = edge_columns(alloc).expect(&rt, "memory");
    let long = line_of(alloc, "|", 1025, "").expect(&rt, "memory");
    let mut line = Text::of_str(alloc, "|a").expect(&rt, "memory");
    for _ in 0..3 {
        line.extend(long.as_slice()).expect(&rt, "memory");
    }
    let row = said(alloc, &columns, line.as_slice()).expect(&rt, "memory");
    assert!(rt; row.as_slice() == b"IdTooLong 3".as_slice());
}

// A vertex line with so many labels, and the rest of the line.
fn labels_line(alloc: Global, labels: usize, after: &str) -> Result<Text, NoMemory> {
    let mut line = Text::of_str(alloc, "v|")?;
    for label in 0..labels {
        line.extend(format!(in alloc; "{label};")?.as_bytes())?;
    }
    line.extend(after.as_bytes())?;
    Ok(line)
}

#[test]
fn labels_and_values_are_counted_together(rt: HostRuntime) {
    let alloc = rt.alloc();
    let columns = vertex_columns(alloc).expect(&rt, "memory");
    let table: [(usize, &str, bool); 5] = [
        (4096, "||", true),
        (4096, "7||", true),
        (4095, "|1|", true),
        (4097, "||", false),
        (4096, "|1|", false),
    ];
    for (labels, after, fits) in &table {
        let line = labels_line(alloc, *labels, after).expect(&rt, "memory");
        let row = said(alloc, &columns, line.as_slice()).expect(&rt, "memory");
        let bad = row.as_slice() == b"TooManyValues 0".as_slice();
        assert!(rt; bad != *fits);
    }
}

// `~id`
fn id_column(alloc: Global) -> Result<Columns, NoMemory>
    ensures { IfOk result IsColumns }
{
    let mut uses = List::new(alloc);
    uses.push(ColumnUse::Id)?;
    Ok(Columns {
        side: Side::Vertex,
        uses,
    })
}

fn converted(alloc: Global, line: &[u8]) -> Result<Text, NoMemory> {
    let columns = id_column(alloc)?;
    let fields = fields_of(alloc, line)?;
    let row = convert(alloc, &columns, &fields)?;
    written(alloc, &row)
}

#[test]
fn a_record_is_converted(rt: HostRuntime) {
    let row = converted(rt.alloc(), b" v1 ").expect(&rt, "memory");
    assert!(rt; row.as_slice() == b"|v1".as_slice());
    let bad = converted(rt.alloc(), b" ").expect(&rt, "memory");
    assert!(rt; bad.as_slice() == b"MissingId 1".as_slice());
}
