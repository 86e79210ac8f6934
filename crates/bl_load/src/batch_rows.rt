// How many rows make a batch.
ghost use Rattle.std.specs.Prelude.{◌≡◌, ◌≤◌, ◌<◌, ◌^◌, false, length, take};
ghost use Rattle.std.specs.List.{All};
ghost use Rattle.bl_job.specs.Batched.{AreValidRows};
ghost use Rattle.bl_value.specs.ValidRows.{IsRow};
ghost use Rattle.bl_chain.specs.BatchSizes.{is_full, no_rows, property_values, row_values, with_row};
ghost use Rattle.bl_chain.specs.NextEntries.{batch_from};
ghost use Rattle.bl_load.specs.Gathering.{most_field_bytes};

use bl_chain::BatchSize;
use bl_value::{DigestRow, Property, Row};

fn property_values(properties: &[Property]) -> u64
    requires { property_values properties.now < 2 ^ 64 }
    ensures { result ≡ property_values properties.now }
{
    let mut count: u64 = 0;
    for property in properties {
        count += property.values.len() as u64;
    }
    count
}

// The labels and property values of a row.
fn row_values(row: &Row) -> u64
    requires { row_values row.now < 2 ^ 64 }
    ensures { result ≡ row_values row.now }
{
    match row {
        Row::Vertex {
            labels,
            properties,
            ..
        } => labels.len() as u64 + property_values(properties.as_slice()),
        Row::Edge { properties, .. } => 1 + property_values(properties.as_slice()),
        Row::Bad { .. } => 0,
    }
}

// One row more, whose fields have so many bytes.
fn with_row(size: &BatchSize, row: &Row, bytes: u64) -> BatchSize
    requires room { is_full size.now ≡ false }
    requires valid { IsRow row.now }
    requires bytes { bytes ≤ most_field_bytes }
    ensures { result ≡ with_row size.now row.now bytes }
{
    BatchSize {
        rows: size.rows + 1,
        values: size.values + row_values(row),
        bytes: size.bytes + bytes,
    }
}

/// How many of these rows are one batch: up to the one with which it is full, or all. The fields of
/// each have so many bytes.
pub fn batch_rows(rows: &[DigestRow], sizes: &[u64]) -> usize
    requires lengths { length sizes.now ≡ length rows.now }
    requires valid { AreValidRows rows.now }
    requires bounded { All (λ size. size ≤ most_field_bytes) sizes.now }
    ensures within { result ≤ length rows.now }
    ensures few { result ≤ 1000 }
    ensures batch { batch_from no_rows rows.now sizes.now ≡ take result rows.now }
{
    let mut size = BatchSize::no_rows();
    for (i, row) in rows.iter().enumerate() {
        size = with_row(&size, &row.row, sizes[i]);
        if size.is_full() {
            return i + 1;
        }
    }
    rows.len()
}
