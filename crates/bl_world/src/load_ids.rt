// The id of a load.
ghost use Rattle.std.specs.Prelude.{◌≡◌, IfOk};
ghost use Rattle.bl_world.specs.LoadIds.{load_id, load_id_text, load_number};

use bl_outside::{NoMemory, Text};
use std::alloc::Global;
use uuid::{Builder, Uuid};

/// A UUID of version 4 (RFC 9562) that is made of the salt and ends in the number of the load.
pub fn load_id(salt: u128, number: u32) -> Uuid
    ensures { result ≡ load_id salt number }
{
    let salt = salt.to_be_bytes();
    let number = u64::from(number).to_be_bytes();
    Builder::from_random_bytes([
        salt[0], salt[1], salt[2], salt[3], salt[4], salt[5], salt[6], salt[7], salt[8], salt[9],
        number[2], number[3], number[4], number[5], number[6], number[7],
    ])
    .into_uuid()
}

/// The id as a text of 36 characters, in lower case.
pub fn load_id_text(alloc: Global, salt: u128, number: u32) -> Result<Text, NoMemory>
    ensures { IfOk result (λ text. text ≡ load_id_text salt number) }
{
    let mut buffer = Uuid::encode_buffer();
    let text = load_id(salt, number).hyphenated().encode_lower(&mut buffer);
    Ok(Text::copy_of(alloc, text.as_bytes())?)
}

/// The id as a number.
pub fn load_number(salt: u128, number: u32) -> u128
    ensures { result ≡ load_number salt number }
{
    load_id(salt, number).as_u128()
}
