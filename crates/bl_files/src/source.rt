// The source of a load, and the path that a folder is asked for.
ghost use Rattle.std.specs.Prelude.{◌≡◌, ◌==◌, ◌++◌, true, codes, position, IfOk, IfSome};
ghost use Rattle.std.specs.Str.{IsUtf8};
ghost use Rattle.std.specs.List.{after_first, before_first, list_all};
ghost use Rattle.bl_outside.specs.Texts.{IsShortText};
ghost use Rattle.bl_files.specs.Sources.{
  begins_well,
  if_text,
  is_bucket,
  is_bucket_byte,
  is_kept_key,
  is_kept_path,
  is_kept_source,
  is_key,
  is_letter_or_digit,
  is_part,
  is_slash,
  joined,
  kept_key,
  kept_source,
  parts,
  path_behind,
  path_of,
};

use bl_outside::{NoMemory, Text, is_utf8};
use std::alloc::Global;

fn is_letter_or_digit(byte: u8) -> bool
    ensures { result ≡ is_letter_or_digit byte }
{
    (97 <= byte && byte <= 122) || (48 <= byte && byte <= 57)
}

fn is_bucket_byte(byte: u8) -> bool
    ensures { result ≡ is_bucket_byte byte }
{
    is_letter_or_digit(byte) || byte == b'.' || byte == b'-'
}

fn begins_well(bucket: &[u8]) -> bool
    ensures { result ≡ begins_well bucket.now }
{
    match bucket.first() {
        Some(first) => is_letter_or_digit(*first),
        None => false,
    }
}

fn has_bucket_bytes(bucket: &[u8]) -> bool
    ensures { result ≡ list_all is_bucket_byte bucket.now }
{
    bucket.iter().all(|byte| is_bucket_byte(*byte))
}

fn is_bucket(bucket: &[u8]) -> bool
    ensures { result ≡ is_bucket bucket.now }
{
    bucket.len() <= 63 && begins_well(bucket) && has_bucket_bytes(bucket)
}

fn is_part(part: &[u8]) -> bool
    ensures { result ≡ is_part part.now }
{
    !part.is_empty() && part != b".".as_slice() && part != b"..".as_slice() && !part.contains(&0)
}

// Each part of the text between its slashes is one of a key.
fn has_parts(text: &[u8]) -> bool
    ensures { result ≡ list_all is_part (parts text.now) }
{
    let mut start = 0;
    for (i, byte) in text.iter().enumerate() {
        if *byte == b'/' {
            if !is_part(&text[start..i]) {
                return false;
            }
            start = i + 1;
        }
    }
    is_part(&text[start..])
}

// The key without one slash at its end.
fn kept_key(key: &[u8]) -> &[u8]
    ensures { result.now ≡ kept_key key.now }
{
    key.strip_suffix(b"/").unwrap_or(key)
}

fn is_key(key: &[u8]) -> bool
    ensures { result ≡ is_key key.now }
{
    let kept = kept_key(key);
    key.len() <= 1024 && (kept.is_empty() || has_parts(kept))
}

fn joined(alloc: Global, bucket: &[u8], key: &[u8]) -> Result<Text, NoMemory>
    ensures { IfOk result (λ path. path ≡ joined bucket.now key.now) }
{
    let mut path = Text::copy_of(alloc, bucket)?;
    if !key.is_empty() {
        path.push(b'/')?;
        path.extend(key)?;
    }
    Ok(path)
}

// The place of the first such byte.
fn place_of(bytes: &[u8], byte: u8) -> Option<usize>
    ensures { result ≡ position (λ b. b == byte) bytes.now }
{
    bytes.iter().position(|b| *b == byte)
}

// What stands before the first slash and behind it.
fn divided(text: &[u8]) -> (&[u8], &[u8])
    ensures before { result.0.now ≡ before_first is_slash text.now }
    ensures behind { result.1.now ≡ after_first is_slash text.now }
{
    match place_of(text, b'/') {
        Some(slash) => (&text[..slash], &text[slash + 1..]),
        None => (text, &[]),
    }
}

// The path, where it is a text.
fn if_text(path: Text) -> Option<Text>
    ensures path { result ≡ if_text path }
    ensures utf8 { IfSome result IsUtf8 }
{
    if is_utf8(path.as_slice()) {
        Some(path)
    } else {
        None
    }
}

// The path behind `s3://`, where the rest is a bucket, or a bucket, a slash and a key.
fn path_behind(alloc: Global, rest: &[u8]) -> Result<Option<Text>, NoMemory>
    ensures path { IfOk result (λ path. path ≡ path_behind rest.now) }
    ensures utf8 { IfOk result (λ path. IfSome path IsUtf8) }
{
    let (bucket, key) = divided(rest);
    if is_bucket(bucket) && is_key(key) {
        return Ok(if_text(joined(alloc, bucket, kept_key(key))?));
    }
    Ok(None)
}

/// The path of a source: the source without `s3://` and without a slash at its end. None where the
/// text is no source.
pub fn path_of(alloc: Global, source: &[u8]) -> Result<Option<Text>, NoMemory>
    ensures path { IfOk result (λ path. path ≡ path_of source.now) }
    ensures utf8 { IfOk result (λ path. IfSome path IsUtf8) }
{
    match source.strip_prefix(b"s3://") {
        Some(rest) => path_behind(alloc, rest),
        None => Ok(None),
    }
}

/// The source as it is kept: without a slash at its end. None where the text is no source.
pub fn kept_source(alloc: Global, source: &[u8]) -> Result<Option<Text>, NoMemory>
    ensures source { IfOk result (λ kept. kept ≡ kept_source source.now) }
    ensures kept { IfOk result (λ kept. IfSome kept (λ text. is_kept_source text ≡ true)) }
    ensures text { IfOk result (λ kept. IfSome kept IsShortText) }
{
    match path_of(alloc, source)? {
        Some(path) => Ok(Some(with_scheme(alloc, &path)?)),
        None => Ok(None),
    }
}

fn with_scheme(alloc: Global, path: &Text) -> Result<Text, NoMemory>
    ensures { IfOk result (λ source. source ≡ codes "s3://" ++ path.now) }
{
    let mut source = Text::of_str(alloc, "s3://")?;
    source.extend(path.as_slice())?;
    Ok(source)
}

fn is_kept_key(key: &[u8]) -> bool
    ensures { result ≡ is_kept_key key.now }
{
    key.len() <= 1024 && (key.is_empty() || has_parts(key))
}

fn is_kept_path(path: &[u8]) -> bool
    ensures { result ≡ is_kept_path path.now }
{
    let (bucket, key) = divided(path);
    is_bucket(bucket) && is_kept_key(key) && !path.ends_with(b"/")
}

/// The text is a source as it is kept: `s3://`, a bucket of 1 to 63 of the characters a to z, 0 to
/// 9, `.` and `-`, and a key of at most 1,024 bytes without a slash at its end where there is one.
pub fn is_kept_source(source: &[u8]) -> bool
    ensures { result ≡ is_kept_source source.now }
{
    match source.strip_prefix(b"s3://") {
        Some(path) => is_utf8(source) && is_kept_path(path),
        None => false,
    }
}
