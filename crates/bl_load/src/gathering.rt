// Records, read one after another.
ghost use Rattle.std.specs.Prelude.{◌≡◌, ◌++◌, ◌∷◌, [], ◌+◌, ◌<◌, ◌≤◌, ◌^◌, ℕ, List as Items, length, sum, IfOk};
ghost use Rattle.bl_rows.specs.Contents.{Fields};
ghost use Rattle.bl_rows.specs.RowReaders.{Stands};
ghost use Rattle.bl_chain.specs.BatchSizes.{field_bytes};
ghost use Rattle.bl_load.specs.Gathering.{GathersEnough, IsReading};

use bl_outside::{Digest, List, NoMemory, Text};
use bl_rows::RowReader;
use std::alloc::Global;

/// The most rows of a batch.
pub const MOST_ROWS: u64 = 1_000;

/// So many bytes of fields end a batch.
pub const MOST_BYTES: u64 = 8_388_608;

/// Records that were read one after another, with the digest behind each and the bytes of its
/// fields.
#[derive(Drop)]
pub struct Gathered {
    pub records: List<List<Text>>,
    pub digests: List<Digest>,
    pub sizes: List<u64>,
}

// Adds a record, and gives the bytes of its fields.
fn add(got: &mut Gathered, fields: List<Text>, digest: Digest) -> Result<u64, NoMemory>
    requires { field_bytes fields < 2 ^ 64 }
    ensures { IfOk result (λ size. (size ≡ field_bytes fields)
        × (got.new.records ≡ got.old.records ++ fields ∷ [])
        × (got.new.digests ≡ got.old.digests ++ digest ∷ [])
        × (got.new.sizes ≡ got.old.sizes ++ size ∷ [])) }
{
    let size = field_bytes(fields.as_slice());
    got.records.push(fields)?;
    got.digests.push(digest)?;
    got.sizes.push(size)?;
    Ok(size)
}

fn field_bytes(fields: &[Text]) -> u64
    requires { field_bytes fields.now < 2 ^ 64 }
    ensures { result ≡ field_bytes fields.now }
{
    let mut bytes: u64 = 0;
    for field in fields {
        bytes += field.len() as u64;
    }
    bytes
}

/// The records that come next, up to as many as make a batch together with so many rows and bytes.
pub fn gather(
    alloc: Global,
    reader: &mut RowReader,
    rows: u64,
    bytes: u64,
) -> Result<Gathered, NoMemory>
    requires rows { rows ≤ 1000 }
    requires reading { IsReading reader.old }
    ensures { (all : Items Fields) (before : ℕ) (left : Items Fields)
        → Stands reader.old all before left
        → IfOk result (GathersEnough all before left rows bytes reader.new) }
{
    let mut got = Gathered {
        records: List::new(alloc),
        digests: List::new(alloc),
        sizes: List::new(alloc),
    };
    let mut bytes = bytes;
    for _row in rows..MOST_ROWS {
        if bytes >= MOST_BYTES {
            return Ok(got);
        }
        let Some(fields) = reader.next()? else {
            return Ok(got);
        };
        let size = add(&mut got, fields, reader.digest())?;
        bytes = bytes.saturating_add(size);
    }
    Ok(got)
}
