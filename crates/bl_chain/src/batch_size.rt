// How much of a file is taken at once.
ghost use Rattle.std.specs.Prelude.{◌≡◌, ◌≤◌, false};
ghost use Rattle.bl_rows.specs.File.{file_limit};
ghost use Rattle.bl_chain.specs.BatchSizes.{
  field_bytes,
  is_full,
  no_rows,
  property_values,
  row_values,
  with_row,
};

use bl_outside::Text;
use bl_value::{Property, Row};

/// The most rows of a batch.
pub const MOST_ROWS: u64 = 1_000;

/// The most labels and property values of a batch, but for those of the row that reaches them.
pub const MOST_VALUES: u64 = 16_384;

/// The most bytes of fields of a batch, but for those of the row that reaches them.
pub const MOST_BYTES: u64 = 8_388_608;

/// The rows of a batch, their labels and property values, and the bytes of their fields.
#[derive(Clone, Copy, Debug, PartialEq, Eq)]
pub struct BatchSize {
    pub rows: u64,
    pub values: u64,
    pub bytes: u64,
}

impl BatchSize {
    pub fn no_rows() -> BatchSize
        ensures { result ≡ no_rows }
    {
        BatchSize {
            rows: 0,
            values: 0,
            bytes: 0,
        }
    }

    /// No further row is taken.
    pub fn is_full(&self) -> bool
        ensures { result ≡ is_full self.now }
    {
        self.rows >= MOST_ROWS || self.values >= MOST_VALUES || self.bytes >= MOST_BYTES
    }

    /// One row more, which was made of these fields. Those of a refused record may be as large as a
    /// file.
    pub fn with_row(&self, row: &Row, fields: &[Text]) -> BatchSize
        requires room { is_full self.now ≡ false }
        requires values { row_values row.now ≤ 4096 }
        requires bytes { field_bytes fields.now ≤ file_limit }
        ensures { result ≡ with_row self.now row.now (field_bytes fields.now) }
    {
        BatchSize {
            rows: self.rows + 1,
            values: self.values + row_values(row),
            bytes: self.bytes + field_bytes(fields),
        }
    }
}

// The labels and property values of a row.
fn row_values(row: &Row) -> u64
    requires { row_values row.now ≤ 4096 }
    ensures { result ≡ row_values row.now }
{
    match row {
        Row::Vertex {
            labels,
            properties,
            ..
        } => labels.len() as u64 + property_values(properties.as_slice()),
        Row::Edge { properties, .. } => 1 + property_values(properties.as_slice()),
        Row::Bad { .. } => 0,
    }
}

fn property_values(properties: &[Property]) -> u64
    requires { property_values properties.now ≤ 4096 }
    ensures { result ≡ property_values properties.now }
{
    let mut count: u64 = 0;
    for property in properties {
        count += property.values.len() as u64;
    }
    count
}

fn field_bytes(fields: &[Text]) -> u64
    requires { field_bytes fields.now ≤ file_limit }
    ensures { result ≡ field_bytes fields.now }
{
    let mut bytes: u64 = 0;
    for field in fields {
        bytes += field.len() as u64;
    }
    bytes
}
