// Headers, and the faults of headers.
ghost use Rattle.std.specs.Prelude.{◌≡◌, ◌≤◌, length, IfOk};

use bl_header::{HeaderRefusal, names_are_read_back, read_header, type_texts_are_read_as_spelled};
use bl_outside::{List, NoMemory, Text};
use bl_value::{Column, ColumnUse, Columns, Side, ValueType};
use std::alloc::Global;

// The header of a line whose fields stand between commas.
fn read(alloc: Global, line: &[u8]) -> Result<Columns, HeaderRefusal> {
    let mut fields = List::new(alloc);
    let mut field = Text::new(alloc);
    for byte in line {
        if *byte == b',' {
            fields.push(field)?;
            field = Text::new(alloc);
        } else {
            field.push(*byte)?;
        }
    }
    fields.push(field)?;
    read_fields(alloc, &fields)
}

fn read_fields(alloc: Global, fields: &List<Text>) -> Result<Columns, HeaderRefusal> {
    if fields.len() > 5000 {
        return Err(HeaderRefusal::NoMemory);
    }
    read_header(alloc, fields)
}

#[test]
fn the_first_fault_of_the_leftmost_column_is_given(rt: HostRuntime) {
    for (line, refusal) in [
        (
            "~id,x:Int(single)[],y:Double,~color",
            HeaderRefusal::SingleArray(2),
        ),
        ("~id,y:Double,~color", HeaderRefusal::FloatColumn(2)),
        ("~id,~color", HeaderRefusal::UnknownSystem(2)),
        ("name", HeaderRefusal::NoId),
        ("~id,~from", HeaderRefusal::HalfEdge),
        ("~id,~from,~to,w:Int[]", HeaderRefusal::EdgeNotSingle(4)),
        ("~id,a,a:Int", HeaderRefusal::Repeated(3)),
        // System columns are named in lower case.
        ("~ID", HeaderRefusal::UnknownSystem(1)),
        ("~id:String", HeaderRefusal::UnknownSystem(1)),
        ("~", HeaderRefusal::UnknownSystem(1)),
        ("~id,~label,~label", HeaderRefusal::Repeated(3)),
        ("~id, ~id ", HeaderRefusal::Repeated(2)),
        ("~id,~color,~color", HeaderRefusal::UnknownSystem(2)),
        // Names.
        ("", HeaderRefusal::BadName(1)),
        ("~id,  ", HeaderRefusal::BadName(2)),
        (":Int", HeaderRefusal::BadName(1)),
        (":", HeaderRefusal::BadName(1)),
        ("~id,:Double,:Double", HeaderRefusal::BadName(2)),
        ("~id,a\\:b,a\\:b:Int", HeaderRefusal::Repeated(3)),
        // Types.
        ("a:", HeaderRefusal::UnknownType(1)),
        ("a: Int", HeaderRefusal::UnknownType(1)),
        ("x:Int (set)", HeaderRefusal::UnknownType(1)),
        ("x:Int[](set)", HeaderRefusal::UnknownType(1)),
        ("x:Int(set)(set)", HeaderRefusal::UnknownType(1)),
        ("x:(set)", HeaderRefusal::UnknownType(1)),
        ("x:[]", HeaderRefusal::UnknownType(1)),
        ("x:Integer", HeaderRefusal::UnknownType(1)),
        ("x:Int:Int", HeaderRefusal::UnknownType(1)),
        ("x:Int\\", HeaderRefusal::UnknownType(1)),
        ("x:FLOAT", HeaderRefusal::FloatColumn(1)),
        ("x:Float(single)[]", HeaderRefusal::FloatColumn(1)),
        // Edges.
        ("~to,x:String(set)", HeaderRefusal::EdgeNotSingle(2)),
        ("x:Int[],~from", HeaderRefusal::EdgeNotSingle(1)),
        (
            "~id,~to,~from,x,x[]:Int(single),x:Int(set)",
            HeaderRefusal::EdgeNotSingle(6),
        ),
        (
            "~id,~from,~to,x:Int(single)[]",
            HeaderRefusal::SingleArray(4),
        ),
        ("~from,name", HeaderRefusal::NoId),
        ("~id,~to,~label", HeaderRefusal::HalfEdge),
    ] {
        let read = read(rt.alloc(), line.as_bytes());
        assert!(rt; read.err() == Some(refusal), "{line}");
    }
}

// The column is a property with this name, type, single and many.
fn is_property(
    column: Option<&ColumnUse>,
    name: &[u8],
    kind: ValueType,
    single: bool,
    many: bool,
) -> bool {
    match column {
        Some(ColumnUse::Property(column)) => {
            column.name.as_slice() == name
                && column.kind == kind
                && column.single == single
                && column.many == many
        }
        _ => false,
    }
}

#[test]
fn a_field_says_name_type_cardinality_and_array(rt: HostRuntime) {
    for (field, name, kind, single, many) in [
        ("a", "a", ValueType::Str, false, false),
        ("a\\:b:INT", "a:b", ValueType::Int, false, false),
        (" a b :bool", "a b ", ValueType::Bool, false, false),
        ("a:Boolean(SET)", "a", ValueType::Bool, false, false),
        ("a:byte[]", "a", ValueType::Byte, false, true),
        ("a:Short(single)", "a", ValueType::Short, true, false),
        ("a:int(SET)[]", "a", ValueType::Int, false, true),
        ("a:lOnG", "a", ValueType::Long, false, false),
        ("a:string[] ", "a", ValueType::Str, false, true),
        ("a:Date", "a", ValueType::Date, false, false),
        // A backslash that isn't right before a colon stays, as at the end.
        ("a\\", "a\\", ValueType::Str, false, false),
        ("a\\b:Int", "a\\b", ValueType::Int, false, false),
        ("a\\\\:b:Int", "a\\:b", ValueType::Int, false, false),
        ("\\:", ":", ValueType::Str, false, false),
        ("a~id", "a~id", ValueType::Str, false, false),
    ] {
        let mut fields = List::new(rt.alloc());
        fields
            .push(Text::of_str(rt.alloc(), " ~id").expect(&rt, "memory"))
            .expect(&rt, "memory");
        fields
            .push(Text::of_str(rt.alloc(), field).expect(&rt, "memory"))
            .expect(&rt, "memory");
        match read_fields(rt.alloc(), &fields) {
            Ok(columns) => {
                assert!(rt; columns.side == Side::Vertex && columns.uses.len() == 2);
                let property = columns.uses.get(1);
                assert!(rt;
                    is_property(property, name.as_bytes(), kind, single, many),
                    "{field}"
                );
            }
            Err(_) => assert!(rt; false, "{field}"),
        }
    }
}

// `~id`, and a name with a backslash before each of its colons.
fn escaped(alloc: Global, name: &str) -> Result<List<Text>, NoMemory> {
    let mut field = Text::new(alloc);
    for byte in name.as_bytes() {
        if *byte == b':' {
            field.push(b'\\')?;
        }
        field.push(*byte)?;
    }
    let mut fields = List::new(alloc);
    fields.push(Text::of_str(alloc, "~id")?)?;
    fields.push(field)?;
    Ok(fields)
}

#[test]
fn a_name_whose_colons_are_escaped_is_read_back(rt: HostRuntime) {
    names_are_read_back();
    type_texts_are_read_as_spelled();
    for name in [
        "a", ":", "::", "a:Int", "a\\:b", "\\", "a\\", "é:ü", "a:b:c[]",
    ] {
        let fields = escaped(rt.alloc(), name).expect(&rt, "memory");
        match read_fields(rt.alloc(), &fields) {
            Ok(columns) => assert!(rt;
                is_property(
                    columns.uses.get(1),
                    name.as_bytes(),
                    ValueType::Str,
                    false,
                    false
                ),
                "{name}"
            ),
            Err(_) => assert!(rt; false, "{name}"),
        }
    }
}

#[test]
fn a_file_with_both_ends_is_about_edges(rt: HostRuntime) {
    let line = b"~id,since:Date,~to ,w:Int(single),~from,~label".as_slice();
    match read(rt.alloc(), line) {
        Ok(columns) => {
            let uses = columns.uses.as_slice();
            assert!(rt; columns.side == Side::Edge && uses.len() == 6);
            assert!(rt; matches!(uses[0], ColumnUse::Id));
            assert!(rt; is_property(uses.get(1), b"since", ValueType::Date, true, false));
            assert!(rt; matches!(uses[2], ColumnUse::To));
            assert!(rt; is_property(uses.get(3), b"w", ValueType::Int, true, false));
            assert!(rt; matches!(uses[4], ColumnUse::From));
            assert!(rt; matches!(uses[5], ColumnUse::Label));
        }
        Err(_) => assert!(rt; false),
    }
}

// `~id`, and then properties with other numbers for names.
fn numbered(alloc: Global, fields: usize) -> Result<List<Text>, NoMemory> {
    let mut list = List::new(alloc);
    list.push(Text::of_str(alloc, "~id")?)?;
    for number in 1..fields {
        let name = format!(in alloc; "n{number}")?;
        list.push(Text::of_str(alloc, name.as_str())?)?;
    }
    Ok(list)
}

#[test]
fn there_are_at_most_1024_columns(rt: HostRuntime) {
    let fields = numbered(rt.alloc(), 1024).expect(&rt, "memory");
    match read_fields(rt.alloc(), &fields) {
        Ok(columns) => assert!(rt; columns.uses.len() == 1024),
        Err(_) => assert!(rt; false),
    }
    let mut fields = numbered(rt.alloc(), 1024).expect(&rt, "memory");
    fields
        .push(Text::of_str(rt.alloc(), "~color").expect(&rt, "memory"))
        .expect(&rt, "memory");
    let refusal = read_fields(rt.alloc(), &fields).err();
    assert!(rt; refusal == Some(HeaderRefusal::TooManyColumns(1025)));
}

// `~id`, and a name that has this length, where each byte is this one.
fn long_name(alloc: Global, length: usize, byte: u8) -> Result<List<Text>, NoMemory> {
    let mut list = List::new(alloc);
    list.push(Text::of_str(alloc, "~id")?)?;
    let mut name = Text::new(alloc);
    for _ in 0..length {
        name.push(byte)?;
    }
    list.push(name)?;
    Ok(list)
}

#[test]
fn a_name_has_at_most_256_bytes_of_utf8(rt: HostRuntime) {
    for (length, byte, is_name) in [
        (1, b'a', true),
        (256, b'a', true),
        (257, b'a', false),
        (1, 0xff, false),
        (0, b'a', false),
    ] {
        let fields = long_name(rt.alloc(), length, byte).expect(&rt, "memory");
        let refusal = read_fields(rt.alloc(), &fields).err();
        let wanted = if is_name {
            None
        } else {
            Some(HeaderRefusal::BadName(2))
        };
        assert!(rt; refusal == wanted, "{length} times {byte}");
    }
}

#[test]
fn a_refusal_is_logged_with_its_column(rt: HostRuntime) {
    for (refusal, column) in [
        (HeaderRefusal::NoId, 0),
        (HeaderRefusal::HalfEdge, 0),
        (HeaderRefusal::BadName(3), 3),
        (HeaderRefusal::Repeated(4), 4),
        (HeaderRefusal::TooManyColumns(1025), 1025),
    ] {
        assert!(rt; refusal.column() == column);
    }
}
