// The digest of a file's records.
ghost use Rattle.std.specs.Prelude.{◌≡◌, ◌++◌, [], length, IfOk, OnOk};
ghost use Rattle.std.specs.Int.{w32, to_be_bytes};
ghost use Rattle.sha2.specs.Sha256.{sha256};
ghost use Rattle.bl_rows.specs.Digests.{record_text};

use bl_outside::{Digest as RecordDigest, List, NoMemory, Text};
use sha2::{Digest, Sha256};

// A length as four bytes, the highest first. A file is too small for a longer one.
fn length_bytes(length: usize) -> [u8; 4]
    ensures { result ≡ to_be_bytes w32 length }
{
    let [_, _, _, _, a, b, c, d] = (length as u64).to_be_bytes();
    [a, b, c, d]
}

// Adds the canonical text of a record.
fn push_record(room: &mut Vec<u8>, fields: &[Text]) -> Result<(), NoMemory>
    ensures { OnOk result (room.new.items ≡ room.old.items ++ record_text fields.now) }
{
    room.extend_from_slice(&length_bytes(fields.len()))?;
    for field in fields {
        room.extend_from_slice(&length_bytes(field.len()))?;
        room.extend_from_slice(field.as_slice())?;
    }
    Ok(())
}

/// The digest of no record.
pub fn digest_of_none() -> RecordDigest
    ensures { result.bytes ≡ sha256 [] }
{
    RecordDigest {
        bytes: Sha256::new().finalize(),
    }
}

// The digest of these bytes and a record behind them, whose text is put together in the room.
fn digest_of(
    room: &mut Vec<u8>,
    before: &[u8],
    fields: &List<Text>,
) -> Result<RecordDigest, NoMemory>
    ensures { IfOk result
        (λ digest. digest.bytes ≡ sha256 (before.now ++ record_text fields.now)) }
{
    room.clear();
    room.extend_from_slice(before)?;
    push_record(room, fields.as_slice())?;
    Ok(RecordDigest {
        bytes: Sha256::digest(room.as_slice()),
    })
}

/// The digest of a header.
pub fn digest_of_header(room: &mut Vec<u8>, header: &List<Text>) -> Result<RecordDigest, NoMemory>
    ensures { IfOk result (λ digest. digest.bytes ≡ sha256 (record_text header.now)) }
{
    digest_of(room, &[], header)
}

/// The digest after one more record.
pub fn digest_behind(
    room: &mut Vec<u8>,
    before: &RecordDigest,
    fields: &List<Text>,
) -> Result<RecordDigest, NoMemory>
    ensures { IfOk result
        (λ digest. digest.bytes ≡ sha256 (before.now.bytes ++ record_text fields.now)) }
{
    digest_of(room, &before.bytes, fields)
}
