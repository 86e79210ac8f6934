// What the fields of a head say.
ghost use Rattle.std.specs.Prelude.{◌≡◌, ◌≤◌, false, length, map, All, codes, IsTrue, IfOk};
ghost use Rattle.std.specs.Char.{is_ascii_digit};
ghost use Rattle.std.specs.List.{list_all, list_any};
ghost use Rattle.std.specs.Option.{SomeIff};
ghost use Rattle.std.specs.Str.Parse.{digits_value};
ghost use Rattle.httparse.specs.Grammar.{is_ows, trim_ows};
ghost use Rattle.httparse.specs.Spans.{IsHeaderWithin, header_bytes};
ghost use Rattle.bl_http.specs.Fields.{are_alike, body_length as asked_length, closes as asks_close, declared_length as declared, ends_connection as ends, is_close as is_close_word, is_number as is_decimal, is_there as has_field, plain_length, says_close as says_so, values_of};
ghost use Rattle.bl_http.specs.Parts.{AreValues};

use crate::HeadRefusal;
use crate::target::place_of;
use httparse::spans::HeaderSpan;

/// The most bytes of a body.
pub const BODY_LIMIT: usize = 1_048_576;

// The field has this name.
fn is_named(head: &[u8], field: &HeaderSpan, name: &[u8]) -> bool
    requires { IsHeaderWithin (length head.now) field.now }
    ensures { result ≡ are_alike (header_bytes head.now field.now).0 name.now }
{
    field.name.of(head).eq_ignore_ascii_case(name)
}

fn are_digits(text: &[u8]) -> bool
    ensures { result ≡ list_all is_ascii_digit text.now }
{
    text.iter().all(|byte| byte.is_ascii_digit())
}

// A number of 1 to 20 digits.
fn is_number(text: &[u8]) -> bool
    ensures { result ≡ is_decimal text.now }
{
    !text.is_empty() && text.len() <= 20 && are_digits(text)
}

// The number of the digits, where it is no larger than the limit.
fn small_number(digits: &[u8]) -> Option<usize>
    ensures { IsTrue (list_all is_ascii_digit digits.now)
        → SomeIff result (digits_value 10 digits.now ≤ 1048576) (digits_value 10 digits.now) }
{
    let mut number = 0;
    for digit in digits {
        number = number * 10 + digit.saturating_sub(b'0') as usize;
        if number > BODY_LIMIT {
            return None;
        }
    }
    Some(number)
}

// The values of the fields of one name, as far as it matters.
enum Values<'a> {
    None,
    One(&'a [u8]),
    Many,
}

fn found_values<'a>(head: &'a [u8], fields: &[HeaderSpan], name: &[u8]) -> Values<'a>
    requires { All (IsHeaderWithin (length head.now)) fields.now }
    ensures { AreValues result (values_of name.now (map (header_bytes head.now) fields.now)) }
{
    let mut found = None;
    for field in fields {
        if is_named(head, field, name) {
            if found.is_some() {
                return Values::Many;
            }
            found = Some(field.value.of(head));
        }
    }
    match found {
        None => Values::None,
        Some(value) => Values::One(value),
    }
}

// The length that `content-length` declares.
fn declared_length(head: &[u8], fields: &[HeaderSpan]) -> Result<usize, HeadRefusal>
    requires { All (IsHeaderWithin (length head.now)) fields.now }
    ensures length { result ≡ plain_length (declared (values_of (codes "content-length")
        (map (header_bytes head.now) fields.now))) false }
    ensures small { IfOk result (λ length. length ≤ 1048576) }
{
    match found_values(head, fields, b"content-length") {
        Values::None => Ok(0),
        Values::Many => Err(HeadRefusal::BadLength),
        Values::One(value) => {
            if !is_number(value) {
                return Err(HeadRefusal::BadLength);
            }
            small_number(value).ok_or(HeadRefusal::BodyTooLarge)
        }
    }
}

// There is a field of this name.
fn is_there(head: &[u8], fields: &[HeaderSpan], name: &[u8]) -> bool
    requires { All (IsHeaderWithin (length head.now)) fields.now }
    ensures { result ≡ has_field name.now (map (header_bytes head.now) fields.now) }
{
    for field in fields {
        if is_named(head, field, name) {
            return true;
        }
    }
    false
}

/// The length of the body that the fields ask for.
pub fn body_length(head: &[u8], fields: &[HeaderSpan]) -> Result<usize, HeadRefusal>
    requires { All (IsHeaderWithin (length head.now)) fields.now }
    ensures length { result ≡ asked_length (map (header_bytes head.now) fields.now) }
    ensures small { IfOk result (λ length. length ≤ 1048576) }
{
    let length = declared_length(head, fields)?;
    if is_there(head, fields, b"transfer-encoding") {
        return Err(HeadRefusal::TransferEncoding);
    }
    Ok(length)
}

fn is_blank(byte: u8) -> bool
    ensures { result ≡ is_ows byte }
{
    byte == b' ' || byte == b'\t'
}

// The word without spaces and tabs at its ends.
fn trimmed(word: &[u8]) -> &[u8]
    ensures { result.now ≡ trim_ows word.now }
{
    let (mut start, mut end) = (0, word.len());
    while start < end && is_blank(word[start]) {
        start += 1;
    }
    while start < end && is_blank(word[end - 1]) {
        end -= 1;
    }
    &word[start..end]
}

// One of the words between the commas is `close`.
fn says_close(value: &[u8]) -> bool
    ensures { result ≡ says_so value.now }
{
    let mut rest = value;
    while let Some(comma) = place_of(rest, b',') {
        if is_close(&rest[..comma]) {
            return true;
        }
        rest = &rest[comma + 1..];
    }
    is_close(rest)
}

fn is_close(word: &[u8]) -> bool
    ensures { result ≡ is_close_word word.now }
{
    trimmed(word).eq_ignore_ascii_case(b"close")
}

// The field says that the connection ends.
fn ends_connection(head: &[u8], field: &HeaderSpan) -> bool
    requires { IsHeaderWithin (length head.now) field.now }
    ensures { result ≡ ends (header_bytes head.now field.now) }
{
    is_named(head, field, b"connection") && says_close(field.value.of(head))
}

/// The connection ends with a request of this minor version and these fields.
pub fn closes(head: &[u8], minor: u8, fields: &[HeaderSpan]) -> bool
    requires { All (IsHeaderWithin (length head.now)) fields.now }
    ensures { result ≡ asks_close minor (map (header_bytes head.now) fields.now) }
{
    if minor == 0 {
        return true;
    }
    for field in fields {
        if ends_connection(head, field) {
            return true;
        }
    }
    false
}
