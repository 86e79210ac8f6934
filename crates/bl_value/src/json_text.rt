// Values as JSON (RFC 8259).
ghost use Rattle.std.specs.Prelude.{◌≡◌, IfOk};
ghost use Rattle.serde_json.specs.View.{view};
ghost use Rattle.bl_value.specs.Valid.{IsPrintableValue};
ghost use Rattle.bl_value.specs.Json.{value_data, value_text};

use crate::Value;
use crate::date_text::date_text;
use bl_outside::{NoMemory, Text};
use serde_json::Value as Json;
use std::alloc::Global;

/// The JSON text of a value, compact as `serde_json` writes it.
pub fn json_value(alloc: Global, value: &Value) -> Result<Text, NoMemory>
    requires printable { IsPrintableValue value.now }
    ensures { IfOk result (λ json. json ≡ value_text value.now) }
{
    let json = json_of(alloc, value)?;
    Ok(Text::from_vec(json.to_vec(alloc)?))
}

/// The value as JSON, for a text that it stands in.
pub fn json_of(alloc: Global, value: &Value) -> Result<Json, NoMemory>
    requires printable { IsPrintableValue value.now }
    ensures { IfOk result (λ json. view json ≡ value_data value.now) }
{
    match value {
        Value::Bool(b) => Ok(Json::Bool(*b)),
        Value::Byte(n) => Ok(Json::from(*n)),
        Value::Short(n) => Ok(Json::from(*n)),
        Value::Int(n) => Ok(Json::from(*n)),
        Value::Long(n) => Ok(Json::from(*n)),
        Value::Str(text) => Ok(Json::try_from_str(alloc, text.as_str())?),
        Value::Date(seconds) => Ok(Json::String(date_text(alloc, *seconds)?)),
    }
}
