// Files with their own headers: their rows.
ghost use Rattle.std.specs.Prelude.{ℕ, List as Items, IfSome};
ghost use Rattle.bl_value.specs.ValidColumns.{IsColumns};
ghost use Rattle.bl_rows.specs.Contents.{Fields};
ghost use Rattle.bl_rows.specs.RowReaders.{Stands};

use crate::row_lines::written;
use bl_header::read_header;
use bl_outside::{NoMemory, Text};
use bl_rows::{FILE_LIMIT, FileBytes, RowReader, convert, start};
use bl_value::Columns;
use std::alloc::Global;

fn columns_of(alloc: Global, reader: &RowReader) -> Option<Columns>
    requires { (all : Items Fields) × (taken : ℕ) × (left : Items Fields)
        × Stands reader.now all taken left }
    ensures { IfSome result IsColumns }
{
    read_header(alloc, reader.header()).ok()
}

// The rows of the first records behind the header, each in a line.
fn push_rows(
    alloc: Global,
    columns: &Columns,
    reader: &mut RowReader,
    lines: &mut Text,
) -> Result<(), NoMemory>
    requires { IsColumns columns.now }
{
    for _ in 0..10 {
        let Some(fields) = reader.next()? else {
            return Ok(());
        };
        let row = convert(alloc, columns, &fields)?;
        lines.extend(written(alloc, &row)?.as_slice())?;
        lines.push(b'\n')?;
    }
    Ok(())
}

// The rows of a file. None where it is too large, its header is refused or memory ran out.
fn lines_of(alloc: Global, file: &str) -> Option<Text> {
    let bytes = Text::of_str(alloc, file).ok()?;
    if bytes.len() > FILE_LIMIT {
        return None;
    }
    let Ok(mut reader) = start(alloc, FileBytes { bytes }) else {
        return None;
    };
    let columns = columns_of(alloc, &reader)?;
    let mut lines = Text::new(alloc);
    push_rows(alloc, &columns, &mut reader, &mut lines).ok()?;
    Some(lines)
}

#[test]
fn the_records_of_a_file_are_rows_under_its_header(rt: HostRuntime) {
    for (file, rows) in [
        (
            "~id,age:Byte\na,127\nb,128\nc,-128\n",
            "|a age=127\nOutOfRange 2\n|c age=-128\n",
        ),
        ("~id\nv1\n", "|v1\n"),
        (
            "~id,~from,~to,~label\ne1,v1,v1,likes\ne1,v1,v1,knows\ne2,v1,v9,likes\n",
            "|e1|likes|v1|v1\n|e1|knows|v1|v1\n|e2|likes|v1|v9\n",
        ),
        (
            "~id,~from,~to,~label\ne1,v1,v2,knows\n",
            "|e1|knows|v1|v2\n",
        ),
        (
            "~id,~label\nv1,person\nv2,person\n",
            "|v1|person\n|v2|person\n",
        ),
        (
            "~id,a\\:b:String[],~label\nv1,x;y;x,\nv2,,p;q\n",
            "|v1 a:b=x=y\n|v2|p|q\n",
        ),
    ] {
        let lines = lines_of(rt.alloc(), file).expect(&rt, file);
        assert!(rt; lines.as_slice() == rows.as_bytes(), "{file}");
    }
}
