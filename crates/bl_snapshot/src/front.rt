// The first bytes of a slot's file.
ghost use Rattle.std.specs.Prelude.{◌≡◌, ◌+◌, ◌<◌, ◌^◌, length, drop};
ghost use Rattle.bl_snapshot.specs.SlotFiles.{
  first_difference,
  open_length,
  number_4,
  number_8,
  fits as fits_in,
};

/// `NEPTLOAD-SNAP-1`
const HEAD: [u8; 15] = [78, 69, 80, 84, 76, 79, 65, 68, 45, 83, 78, 65, 80, 45, 49];

/// The head and a closed gate.
pub const NEW_FILE: [u8; 16] = [
    78, 69, 80, 84, 76, 79, 65, 68, 45, 83, 78, 65, 80, 45, 49, 0,
];

/// The place of the gate.
pub const GATE: u64 = 15;

/// The place of the length, and so where a slot is written.
pub const BEHIND_GATE: u64 = 16;

/// The place of the two numbers.
pub const NUMBERS: u64 = 20;

/// The place of what is behind the numbers.
pub const BODY: u64 = 36;

// The first place, counted from this one, at which the bytes differ from the expected ones.
fn difference(place: u64, expected: &[u8], bytes: &[u8]) -> Option<u64>
    requires { place + length expected.now < 2 ^ 32 }
    ensures { result ≡ first_difference place expected.now bytes.now }
{
    let [first, rest @ ..] = expected else {
        return None;
    };
    let [byte, behind @ ..] = bytes else {
        return Some(place);
    };
    if *first == *byte {
        return difference(place + 1, rest, behind);
    }
    Some(place)
}

// The number of the first four bytes, 0 where there are fewer.
fn first_four(bytes: &[u8]) -> u32
    ensures { result ≡ number_4 bytes.now }
{
    match bytes {
        [a, b, c, d, ..] => u32::from_be_bytes([*a, *b, *c, *d]),
        _ => 0,
    }
}

/// The number of the first eight bytes, 0 where there are fewer.
pub fn first_eight(bytes: &[u8]) -> u64
    ensures { result ≡ number_8 bytes.now }
{
    match bytes {
        [a, b, c, d, e, f, g, h, ..] => u64::from_be_bytes([*a, *b, *c, *d, *e, *f, *g, *h]),
        _ => 0,
    }
}

/// The length of the body of an open slot, none of a closed one, or the place at which the bytes
/// are those of no slot.
pub fn body_length(front: &[u8]) -> Result<Option<u32>, u64>
    requires { 16 < length front.now }
    ensures { result ≡ open_length front.now }
{
    match difference(0, &HEAD, front) {
        Some(place) => Err(place),
        None if front[15] == 1 => Ok(Some(first_four(&front[16..]))),
        None => Ok(None),
    }
}

/// A body of this length has room for its two numbers, and ends within the file.
pub fn fits(size: u64, length: u32) -> bool
    ensures { result ≡ fits_in size length }
{
    length >= 16 && size >= 20 + length as u64
}
