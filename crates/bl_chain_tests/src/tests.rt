// How much of a file is taken at once.
ghost use Rattle.std.specs.Prelude.{◌≡◌, ◌≤◌, IfOk};
ghost use Rattle.bl_chain.specs.BatchSizes.{field_bytes, row_values};

use bl_chain::{BatchSize, MOST_BYTES, MOST_ROWS, MOST_VALUES};
use bl_outside::{List, NoMemory, Text};
use bl_value::{LogCode, Property, Row, Value};
use std::alloc::Global;

// A size, and whether it is that of a full batch.
const SIZES: &[((u64, u64, u64), bool)] = &[
    ((0, 0, 0), false),
    ((999, 16_383, 8_388_607), false),
    ((1_000, 0, 0), true),
    ((1, 16_384, 0), true),
    ((1, 0, 8_388_608), true),
    ((1_000, 20_479, 276_824_063), true),
];

#[test]
fn a_batch_is_full_with_the_row_that_reaches_a_limit(rt: HostRuntime) {
    assert_eq!(rt;
        (MOST_ROWS, MOST_VALUES, MOST_BYTES),
        (1_000, 16_384, 8_388_608)
    );
    for ((rows, values, bytes), full) in SIZES {
        let size = BatchSize {
            rows: *rows,
            values: *values,
            bytes: *bytes,
        };
        assert!(rt; size.is_full() == *full, "{size:?}");
    }
}

// Two labels, and a property of two values.
fn vertex(alloc: Global) -> Result<Row, NoMemory>
    ensures { IfOk result (λ row. row_values row ≡ 4) }
{
    let mut labels = List::new(alloc);
    labels.push(Text::of_str(alloc, "person")?)?;
    labels.push(Text::of_str(alloc, "member")?)?;
    let mut values = List::new(alloc);
    values.push(Value::Int(7))?;
    values.push(Value::Int(8))?;
    let mut properties = List::new(alloc);
    properties.push(Property {
        key: Text::of_str(alloc, "age")?,
        column: 3,
        single: false,
        values,
    })?;
    Ok(Row::Vertex {
        id: Text::of_str(alloc, "v1")?,
        labels,
        properties,
    })
}

fn edge(alloc: Global) -> Result<Row, NoMemory>
    ensures { IfOk result (λ row. row_values row ≡ 1) }
{
    Ok(Row::Edge {
        id: Text::of_str(alloc, "e1")?,
        label: Text::of_str(alloc, "knows")?,
        from: Text::of_str(alloc, "v1")?,
        to: Text::of_str(alloc, "v2")?,
        properties: List::new(alloc),
    })
}

// Fields of two bytes and of three.
fn fields(alloc: Global) -> Result<List<Text>, NoMemory>
    ensures { IfOk result (λ fields. field_bytes fields ≤ 1048576) }
{
    let mut fields = List::new(alloc);
    fields.push(Text::of_str(alloc, "v1")?)?;
    fields.push(Text::of_str(alloc, "a;b")?)?;
    Ok(fields)
}

// The sizes after a vertex, an edge, and a row with a fault.
fn sizes(alloc: Global) -> Result<[BatchSize; 3], NoMemory> {
    let fields = fields(alloc)?;
    let fields = fields.as_slice();
    let one = BatchSize::no_rows().with_row(&vertex(alloc)?, fields);
    let two = one.with_row(&edge(alloc)?, fields);
    let bad = Row::Bad {
        code: LogCode::MissingId,
        column: 1,
    };
    Ok([one, two, two.with_row(&bad, fields)])
}

#[test]
fn a_row_counts_its_labels_and_property_values(rt: HostRuntime) {
    let sizes = sizes(rt.alloc()).expect(&rt, "memory");
    for (size, (rows, values, bytes)) in sizes.iter().zip([(1, 4, 5), (2, 5, 10), (3, 5, 15)]) {
        let told = BatchSize {
            rows,
            values,
            bytes,
        };
        assert!(rt; *size == told, "{size:?}");
    }
}
