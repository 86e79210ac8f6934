// The parts of an entry, read from the front of the bytes. A reader gives the part and what
// follows.
ghost use Rattle.std.specs.Prelude.{◌≡◌};
ghost use Rattle.std.specs.Int.{w8, w16, w32, w64};
ghost use Rattle.bl_entry.specs.Reading.{
  Gives,
  below_at,
  code_at,
  code_of,
  digest_at,
  front_at,
  is_date,
  long_at,
  number_at,
  short_at,
  signed_at,
  tested_at,
  text_at,
  truth_at,
};

use crate::{ALL_CODES, EntryRefusal, code_number};
use bl_outside::{Digest, Text, is_utf8};
use bl_value::LogCode;
use std::alloc::Global;

// The first N bytes.
fn read_front<const N: usize>(bytes: &[u8]) -> Result<([u8; N], &[u8]), EntryRefusal>
    ensures { Gives (λ x. (x.0, x.1.now)) result (front_at N bytes.now) }
{
    match bytes.split_first_chunk::<N>() {
        Some((front, rest)) => Ok((*front, rest)),
        None => Err(EntryRefusal::NotAnEntry),
    }
}

pub fn read_u32(bytes: &[u8]) -> Result<(u32, &[u8]), EntryRefusal>
    ensures { Gives (λ x. (x.0, x.1.now)) result (number_at w32 bytes.now) }
{
    let (front, rest) = read_front::<4>(bytes)?;
    Ok((u32::from_be_bytes(front), rest))
}

pub fn read_u64(bytes: &[u8]) -> Result<(u64, &[u8]), EntryRefusal>
    ensures { Gives (λ x. (x.0, x.1.now)) result (number_at w64 bytes.now) }
{
    let (front, rest) = read_front::<8>(bytes)?;
    Ok((u64::from_be_bytes(front), rest))
}

// The high half, and the low one.
#[tactic(auto, unfolding(crate::specs::Reading::long_at))]
pub fn read_u128(bytes: &[u8]) -> Result<(u128, &[u8]), EntryRefusal>
    ensures { Gives (λ x. (x.0, x.1.now)) result (long_at bytes.now) }
{
    let (high, rest) = read_u64(bytes)?;
    let (low, rest) = read_u64(rest)?;
    Ok((high as u128 * 18446744073709551616 + low as u128, rest))
}

pub fn read_i8(bytes: &[u8]) -> Result<(i8, &[u8]), EntryRefusal>
    ensures { Gives (λ x. (x.0, x.1.now)) result (signed_at w8 bytes.now) }
{
    let (front, rest) = read_front::<1>(bytes)?;
    Ok((i8::from_be_bytes(front), rest))
}

pub fn read_i16(bytes: &[u8]) -> Result<(i16, &[u8]), EntryRefusal>
    ensures { Gives (λ x. (x.0, x.1.now)) result (signed_at w16 bytes.now) }
{
    let (front, rest) = read_front::<2>(bytes)?;
    Ok((i16::from_be_bytes(front), rest))
}

pub fn read_i32(bytes: &[u8]) -> Result<(i32, &[u8]), EntryRefusal>
    ensures { Gives (λ x. (x.0, x.1.now)) result (signed_at w32 bytes.now) }
{
    let (front, rest) = read_front::<4>(bytes)?;
    Ok((i32::from_be_bytes(front), rest))
}

pub fn read_i64(bytes: &[u8]) -> Result<(i64, &[u8]), EntryRefusal>
    ensures { Gives (λ x. (x.0, x.1.now)) result (signed_at w64 bytes.now) }
{
    let (front, rest) = read_front::<8>(bytes)?;
    Ok((i64::from_be_bytes(front), rest))
}

#[tactic(auto, unfolding(crate::specs::Reading::truth_at))]
pub fn read_truth(bytes: &[u8]) -> Result<(bool, &[u8]), EntryRefusal>
    ensures { Gives (λ x. (x.0, x.1.now)) result (truth_at bytes.now) }
{
    match bytes {
        [0, rest @ ..] => Ok((false, rest)),
        [1, rest @ ..] => Ok((true, rest)),
        _ => Err(EntryRefusal::NotAnEntry),
    }
}

// A byte below a limit.
#[tactic(auto, unfolding(crate::specs::Reading::below_at))]
pub fn read_below(limit: u8, bytes: &[u8]) -> Result<(u8, &[u8]), EntryRefusal>
    ensures { Gives (λ x. (x.0, x.1.now)) result (below_at limit bytes.now) }
{
    match bytes {
        [byte, rest @ ..] if *byte < limit => Ok((*byte, rest)),
        _ => Err(EntryRefusal::NotAnEntry),
    }
}

#[tactic(auto, unfolding(crate::specs::Reading::digest_at))]
pub fn read_digest(bytes: &[u8]) -> Result<(Digest, &[u8]), EntryRefusal>
    ensures { Gives (λ x. (x.0, x.1.now)) result (digest_at bytes.now) }
{
    let (bytes, rest) = read_front::<32>(bytes)?;
    Ok((Digest { bytes }, rest))
}

#[tactic(auto, unfolding(crate::specs::Reading::text_at))]
pub fn read_text(alloc: Global, bytes: &[u8]) -> Result<(Text, &[u8]), EntryRefusal>
    ensures { Gives (λ x. (x.0, x.1.now)) result (text_at bytes.now) }
{
    let (length, rest) = read_u32(bytes)?;
    let length = length as usize;
    if rest.len() < length {
        return Err(EntryRefusal::NotAnEntry);
    }
    let (text, rest) = rest.split_at(length);
    if !is_utf8(text) {
        return Err(EntryRefusal::NotAnEntry);
    }
    Ok((Text::copy_of(alloc, text)?, rest))
}

// A text of 1 to so many bytes.
#[tactic(auto, unfolding(crate::specs::Reading::short_at))]
pub fn read_short(alloc: Global, most: usize, bytes: &[u8]) -> Result<(Text, &[u8]), EntryRefusal>
    ensures { Gives (λ x. (x.0, x.1.now)) result (short_at most bytes.now) }
{
    let (text, rest) = read_text(alloc, bytes)?;
    if text.is_empty() || text.len() > most {
        return Err(EntryRefusal::NotAnEntry);
    }
    Ok((text, rest))
}

// The code with this number.
#[tactic(auto, unfolding(crate::specs::Reading::code_of))]
fn code_of(number: u8) -> Option<LogCode>
    ensures { result ≡ code_of number }
{
    ALL_CODES
        .iter()
        .copied()
        .find(|code| code_number(*code) == number)
}

#[tactic(auto, unfolding(crate::specs::Reading::code_at))]
pub fn read_code(bytes: &[u8]) -> Result<(LogCode, &[u8]), EntryRefusal>
    ensures { Gives (λ x. (x.0, x.1.now)) result (code_at bytes.now) }
{
    match bytes {
        [number, rest @ ..] => match code_of(*number) {
            Some(code) => Ok((code, rest)),
            None => Err(EntryRefusal::NotAnEntry),
        },
        [] => Err(EntryRefusal::NotAnEntry),
    }
}

// Seconds from year 0000 to year 9999.
pub fn read_date(bytes: &[u8]) -> Result<(i64, &[u8]), EntryRefusal>
    ensures { Gives (λ x. (x.0, x.1.now)) result (tested_at is_date (signed_at w64) bytes.now) }
{
    let (seconds, rest) = read_i64(bytes)?;
    if !is_date(seconds) {
        return Err(EntryRefusal::NotAnEntry);
    }
    Ok((seconds, rest))
}

fn is_date(seconds: i64) -> bool
    ensures { result ≡ is_date seconds }
{
    -62167219200 <= seconds && seconds <= 253402300799
}
