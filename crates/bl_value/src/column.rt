// What the columns of a file are for.
use crate::ValueType;
use bl_outside::{List, Text};

/// The most bytes of a property's key, which is the name of its column.
pub const KEY_LIMIT: usize = 256;

/// Whether a file, or a change, is about vertices or about edges.
#[derive(Clone, Copy, Debug, PartialEq, Eq, PartialOrd, Ord)]
pub enum Side {
    Vertex,
    Edge,
}

/// A property column.
#[derive(Debug, Drop)]
pub struct Column {
    /// The property's key, of 1 byte or more.
    pub name: Text,
    /// The type of its values.
    pub kind: ValueType,
    /// A new value takes the place of the old one.
    pub single: bool,
    /// A cell holds a list of values, divided by semicolons.
    pub many: bool,
}

/// What one column of a file is for. The system columns have names that begin with `~`.
#[derive(Debug, Drop)]
pub enum ColumnUse {
    Id,
    Label,
    From,
    To,
    Property(Column),
}

/// The header of a file.
#[derive(Debug, Drop)]
pub struct Columns {
    pub side: Side,
    /// The uses from left to right.
    pub uses: List<ColumnUse>,
}
