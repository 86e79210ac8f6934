// Property values and their order.
ghost use Rattle.std.specs.Prelude.{◌≡◌, IfOk};
ghost use Rattle.bl_value.specs.Order.{value_cmp};

use bl_outside::{NoMemory, Text};
use std::alloc::Global;
use std::cmp::Ordering;

/// The most bytes of the text of a value: as many as four bytes count.
pub const TEXT_LIMIT: usize = 4_294_967_295;

/// The first second of the year 0000, in seconds from 1970 UTC.
pub const FIRST_DATE: i64 = -62_167_219_200;

/// The last second of the year 9999, in seconds from 1970 UTC.
pub const LAST_DATE: i64 = 253_402_300_799;

/// A property value. The variants stand in the order of the types, which `compare` goes by first.
#[derive(Debug, Drop, PartialEq, Eq, PartialOrd, Ord)]
pub enum Value {
    Bool(bool),
    Byte(i8),
    Short(i16),
    Int(i32),
    Long(i64),
    /// A text in UTF-8.
    Str(Text),
    /// Seconds from 1970 UTC, from `FIRST_DATE` to `LAST_DATE`.
    Date(i64),
}

/// The order of values: by type as listed, then by value. False comes before true, texts go by
/// their bytes.
pub fn compare(a: &Value, b: &Value) -> Ordering
    ensures { result ≡ value_cmp a.now b.now }
{
    a.cmp(b)
}

impl Value {
    /// A copy with memory of its own.
    pub fn copy(&self, alloc: Global) -> Result<Value, NoMemory>
        ensures { IfOk result (λ copy. copy ≡ self.now) }
    {
        Ok(match self {
            Value::Bool(b) => Value::Bool(*b),
            Value::Byte(n) => Value::Byte(*n),
            Value::Short(n) => Value::Short(*n),
            Value::Int(n) => Value::Int(*n),
            Value::Long(n) => Value::Long(*n),
            Value::Str(text) => Value::Str(text.copy(alloc)?),
            Value::Date(seconds) => Value::Date(*seconds),
        })
    }
}
