// What a record says.
use crate::{LogCode, Value};
use bl_outside::{Digest, List, Text};

/// The most bytes of an id or a label.
pub const ID_LIMIT: usize = 1_024;

/// The values that a record sets at one key.
#[derive(Debug, Drop)]
pub struct Property {
    pub key: Text,
    /// The column that it stands in, from 1.
    pub column: u32,
    pub single: bool,
    /// One value or more, each once.
    pub values: List<Value>,
}

/// What a record says.
#[derive(Debug, Drop)]
pub enum Row {
    Vertex {
        id: Text,
        /// The labels, each once.
        labels: List<Text>,
        /// The properties from left to right.
        properties: List<Property>,
    },
    Edge {
        id: Text,
        label: Text,
        from: Text,
        to: Text,
        properties: List<Property>,
    },
    /// A record with a fault. The column is counted from 1, and 0 where the code has none.
    Bad {
        code: LogCode,
        column: u32,
    },
}

/// A row, and the digest of its file's records up to and with it.
#[derive(Debug, Drop)]
pub struct DigestRow {
    pub row: Row,
    pub digest: Digest,
}
