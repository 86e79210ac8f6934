// The head at the front of the bytes that are held.
ghost use Rattle.std.specs.Prelude.{◌≤◌, length, MatchResult};
ghost use Rattle.httparse.specs.Spans.{IsRequestOf, IsRequestWithin};
ghost use Rattle.bl_http.specs.Answers.{IsRefused};
ghost use Rattle.bl_http.specs.Parts.{Finds, IsParts};

use crate::HeadRefusal;
use crate::fields::{body_length, closes};
use httparse::spans::{EMPTY_HEADER_SPAN, HeaderSpan, RequestSpans, Span, parse_request};
use httparse::{Error, Status};

/// The most bytes of a head.
pub const HEAD_LIMIT: usize = 16_384;

/// The most fields of a head.
const FIELD_LIMIT: usize = 64;

/// What is kept of a head: where its parts lie, and what its fields ask.
#[derive(Clone, Copy, Debug, PartialEq, Eq)]
pub struct HeadParts {
    /// The number of bytes of the head.
    pub size: usize,
    pub method: Span,
    pub target: Span,
    /// The number of bytes of the body.
    pub body: usize,
    pub close: bool,
}

/// What was found at the front of the bytes.
#[derive(Clone, Copy, Debug, PartialEq, Eq)]
pub enum Found {
    Head(HeadParts),
    Refused(HeadRefusal),
    /// No head has ended, and one can still come.
    Unfinished,
}

// What is kept of a whole head that `httparse` found, unless its fields are refused.
fn parts_of(
    front: &[u8],
    headers: &[HeaderSpan],
    spans: RequestSpans,
) -> Result<HeadParts, HeadRefusal>
    requires small { length front.now ≤ 16384 }
    requires few { length headers.now ≤ 64 }
    requires within { IsRequestWithin front.now headers.now spans }
    requires head { IsRequestOf front.now headers.now spans }
    ensures { MatchResult result (IsParts front.now) (IsRefused front.now) }
{
    let fields = &headers[..spans.headers];
    let body = body_length(front, fields)?;
    Ok(HeadParts {
        size: spans.len,
        method: spans.method,
        target: spans.path,
        body,
        close: closes(front, spans.version, fields),
    })
}

// Looks for a head in the bytes in which it has to end.
fn find_in(front: &[u8]) -> Found
    requires { length front.now ≤ 16384 }
    ensures { Finds front.now result }
{
    let mut headers = [EMPTY_HEADER_SPAN; FIELD_LIMIT];
    match parse_request(front, &mut headers) {
        Ok(Status::Complete(spans)) => match parts_of(front, &headers, spans) {
            Ok(parts) => Found::Head(parts),
            Err(refusal) => Found::Refused(refusal),
        },
        Ok(Status::Partial) if front.len() < HEAD_LIMIT => Found::Unfinished,
        Ok(Status::Partial) => Found::Refused(HeadRefusal::HeadTooLarge),
        Err(error) => match error {
            Error::TooManyHeaders => Found::Refused(HeadRefusal::HeadTooLarge),
            _ => Found::Refused(HeadRefusal::BadHead),
        },
    }
}

/// Looks for a head at the front of the bytes.
pub fn find_head(bytes: &[u8]) -> Found
    ensures { Finds bytes.now result }
{
    find_in(&bytes[..HEAD_LIMIT.min(bytes.len())])
}
