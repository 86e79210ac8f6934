// Texts of load ids.
ghost use Rattle.std.specs.Prelude.{◌≡◌, IfOk};
ghost use Rattle.serde_json.specs.Data.{string};
ghost use Rattle.serde_json.specs.View.{view};
ghost use Rattle.bl_feed.specs.Bodies.{id_of, id_text as text_of_id};

use bl_outside::{NoMemory, Text};
use serde_json::Value as Json;
use std::alloc::Global;
use uuid::Uuid;

/// The id as a JSON text of 36 characters, in lower case.
pub fn id_json(alloc: Global, id: u128) -> Result<Json, NoMemory>
    ensures { IfOk result (λ json. view json ≡ string (text_of_id id)) }
{
    let mut buffer = Uuid::encode_buffer();
    let text = Uuid::from_u128(id).hyphenated().encode_lower(&mut buffer);
    Ok(Json::try_from_str(alloc, text)?)
}

/// The id as a text of 36 characters, in lower case.
pub fn id_text(alloc: Global, id: u128) -> Result<Text, NoMemory>
    ensures { IfOk result (λ text. text ≡ text_of_id id) }
{
    let mut buffer = Uuid::encode_buffer();
    let text = Uuid::from_u128(id).hyphenated().encode_lower(&mut buffer);
    Text::copy_of(alloc, text.as_bytes())
}

/// The id that a text names: 32 hexadecimal digits in either case, with hyphens or without, with
/// hyphens and in braces, or as a name of URNs.
pub fn read_id(text: &[u8]) -> Option<u128>
    ensures { result ≡ id_of text.now }
{
    match Uuid::try_parse_ascii(text) {
        Ok(id) => Some(id.as_u128()),
        Err(_) => None,
    }
}
