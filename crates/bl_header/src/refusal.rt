// Why a header is refused.
ghost use Rattle.std.specs.Prelude.{◌≡◌};
ghost use Rattle.bl_header.specs.Headers.{column_of};
ghost use Rattle.bl_header.specs.declared.refusal.HeaderRefusal.TheVariants.{
  NoMemory as out_of_memory,
};

use bl_outside::NoMemory;
use thiserror::Error;

/// Why a header is refused. Columns are counted from 1.
#[derive(Clone, Copy, Debug, PartialEq, Eq, Error)]
pub enum HeaderRefusal {
    #[error("no column is ~id")]
    NoId,
    #[error("one of ~from and ~to stands alone")]
    HalfEdge,
    /// The column begins with `~` and is no system column.
    #[error("column {0} is no system column")]
    UnknownSystem(u32),
    /// The text behind the colon is no type.
    #[error("column {0} has an unknown type")]
    UnknownType(u32),
    /// The type is Float or Double, whose values aren't kept.
    #[error("column {0} is of a type that isn't kept")]
    FloatColumn(u32),
    /// A column of lists is said to be single.
    #[error("column {0} is single and an array")]
    SingleArray(u32),
    /// A column of an edge file holds lists or sets.
    #[error("column {0} of an edge file isn't single")]
    EdgeNotSingle(u32),
    /// The same column stands further left.
    #[error("column {0} stands further left too")]
    Repeated(u32),
    /// The name is empty, over 256 bytes or not UTF-8.
    #[error("column {0} has no valid name")]
    BadName(u32),
    /// There are more than 1,024 columns. Their number is told.
    #[error("{0} columns are too many")]
    TooManyColumns(u32),
    #[error("out of memory")]
    NoMemory,
}

impl From<NoMemory> for HeaderRefusal {
    ghost from_gives = { λ _ e. e ≡ out_of_memory };

    fn from(_: NoMemory) -> HeaderRefusal {
        HeaderRefusal::NoMemory
    }
}

impl HeaderRefusal {
    /// The column that the refusal is logged with: its own, the number of columns where they are
    /// too many, and 0 where no one column is at fault.
    pub fn column(&self) -> u32
        ensures { result ≡ column_of self.now }
    {
        match self {
            HeaderRefusal::NoId | HeaderRefusal::HalfEdge | HeaderRefusal::NoMemory => 0,
            HeaderRefusal::UnknownSystem(column)
            | HeaderRefusal::UnknownType(column)
            | HeaderRefusal::FloatColumn(column)
            | HeaderRefusal::SingleArray(column)
            | HeaderRefusal::EdgeNotSingle(column)
            | HeaderRefusal::Repeated(column)
            | HeaderRefusal::BadName(column)
            | HeaderRefusal::TooManyColumns(column) => *column,
        }
    }
}
