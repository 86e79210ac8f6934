// Requests, one after another.
ghost use Rattle.std.specs.Prelude.{◌≡◌, ◌⊎◌, ◌≤◌, ◌<◌, ◌+◌, List as Items, ℕ, false, true, length, Ok, Some, IfOk, OnErr, IsErrOf, MatchResult};
ghost use Rattle.bl_outside.specs.Counts.{Rose};
ghost use Rattle.bl_http.specs.Answers.{IsAnswer, IsTorn};
ghost use Rattle.bl_http.specs.Buffers.{IsAtEnd, IsAtLimit, IsWithin, Moves};
ghost use Rattle.bl_http.specs.Inputs.{EndsBy, IsInput, input};
ghost use Rattle.bl_http.specs.Parts.{Finds, IsParts};
ghost use Rattle.bl_http.specs.Readings.{IsCutShort, ReadsOne};

use crate::head::{Found, HEAD_LIMIT, HeadParts, find_head};
use crate::request::request_at;
use crate::{Asked, Buffer, Ending, HttpFault, Request, Requests};
use bl_outside::{List, Source};
use std::alloc::Global;

// Takes pieces until one ends a line, as many bytes are held as a head may have, or none is left.
// Whether more can come.
fn fill_line<S: Source>(source: &mut S, buffer: &mut Buffer) -> Result<bool, HttpFault>
    requires { length buffer.old.bytes < 16384 }
    ensures moves { Moves (S.left source.old) (S.left source.new) buffer.old buffer.new }
    ensures grows { result ≡ Ok true → length buffer.old.bytes < length buffer.new.bytes }
    ensures ends { result ≡ Ok false
        → IsAtEnd (S.left source.new) buffer.new ⊎ IsAtLimit buffer.new }
    ensures within { IsWithin buffer.new }
    ensures later { S.faults source.old ≤ S.faults source.new }
    ensures fault { IsErrOf result HttpFault.ReadFault
        → Rose (S.faults source.old) (S.faults source.new) }
{
    let mut held = buffer.as_slice().len();
    while held < HEAD_LIMIT {
        let count = buffer.fill(source)?;
        if count == 0 {
            return Ok(false);
        }
        if buffer.as_slice()[held..].contains(&b'\n') {
            return Ok(true);
        }
        held += count;
    }
    Ok(true)
}

// Takes pieces until a head is found or refused, or none is left. A head is looked for where a line
// has ended, and in what there is at the end.
fn read_head<S: Source>(source: &mut S, buffer: &mut Buffer) -> Result<Found, HttpFault>
    ensures moves { Moves (S.left source.old) (S.left source.new) buffer.old buffer.new }
    ensures found { IfOk result (Finds buffer.new.bytes) }
    ensures ends { result ≡ Ok Found.Unfinished
        → IsAtEnd (S.left source.new) buffer.new ⊎ IsAtLimit buffer.new }
    ensures within { IsWithin buffer.new }
    ensures later { S.faults source.old ≤ S.faults source.new }
    ensures fault { IsErrOf result HttpFault.ReadFault
        → Rose (S.faults source.old) (S.faults source.new) }
{
    loop {
        let found = find_head(buffer.as_slice());
        if found != Found::Unfinished {
            return Ok(found);
        }
        if !fill_line(source, buffer)? {
            return Ok(find_head(buffer.as_slice()));
        }
    }
}

// Takes pieces until so many bytes are held, or none is left. Whether they are.
fn fill_to<S: Source>(source: &mut S, buffer: &mut Buffer, size: usize) -> Result<bool, HttpFault>
    ensures moves { Moves (S.left source.old) (S.left source.new) buffer.old buffer.new }
    ensures enough { result ≡ Ok true → size ≤ length buffer.new.bytes }
    ensures ends { result ≡ Ok false → (length buffer.new.bytes < size)
        × (IsAtEnd (S.left source.new) buffer.new ⊎ IsAtLimit buffer.new) }
    ensures within { IsWithin buffer.new }
    ensures later { S.faults source.old ≤ S.faults source.new }
    ensures fault { IsErrOf result HttpFault.ReadFault
        → Rose (S.faults source.old) (S.faults source.new) }
{
    while buffer.as_slice().len() < size {
        if buffer.fill(source)? == 0 {
            return Ok(false);
        }
    }
    Ok(true)
}

// What the bytes are that end inside a request, where no more can be taken.
fn cut_short(buffer: &Buffer) -> Asked
    ensures { IsCutShort buffer.now result }
{
    if buffer.is_full() {
        Asked::TooLong
    } else if buffer.as_slice().is_empty() {
        Asked::End
    } else {
        Asked::Torn
    }
}

// The request whose head was found, once its body is there.
fn read_body<S: Source>(
    alloc: Global,
    source: &mut S,
    buffer: &mut Buffer,
    parts: HeadParts,
) -> Result<Asked, HttpFault>
    requires { IsParts buffer.old.bytes parts }
    ensures reads { IfOk result (ReadsOne (S.left source.old) (S.left source.new)
        buffer.old buffer.new) }
    ensures stays { OnErr result
        (Moves (S.left source.old) (S.left source.new) buffer.old buffer.new) }
    ensures within { IsWithin buffer.new }
    ensures later { S.faults source.old ≤ S.faults source.new }
    ensures fault { IsErrOf result HttpFault.ReadFault
        → Rose (S.faults source.old) (S.faults source.new) }
{
    let size = parts.size + parts.body;
    if !fill_to(source, buffer, size)? {
        return Ok(cut_short(buffer));
    }
    let request = request_at(alloc, buffer.as_slice(), parts)?;
    buffer.consume(size);
    Ok(Asked::Got(request))
}

/// Reads what stands next: the bytes that are held, and then pieces of the source, as many as it
/// takes. An `Err` uses none of them up, so it can be called again.
pub fn read_request<S: Source>(
    alloc: Global,
    source: &mut S,
    buffer: &mut Buffer,
) -> Result<Asked, HttpFault>
    ensures reads { IfOk result (ReadsOne (S.left source.old) (S.left source.new)
        buffer.old buffer.new) }
    ensures stays { OnErr result
        (Moves (S.left source.old) (S.left source.new) buffer.old buffer.new) }
    ensures within { IsWithin buffer.new }
    ensures later { S.faults source.old ≤ S.faults source.new }
    ensures fault { IsErrOf result HttpFault.ReadFault
        → Rose (S.faults source.old) (S.faults source.new) }
{
    match read_head(source, buffer)? {
        Found::Head(parts) => read_body(alloc, source, buffer, parts),
        Found::Refused(refusal) => Ok(Asked::Refused(refusal)),
        Found::Unfinished => Ok(cut_short(buffer)),
    }
}

// The request, or how an input ends that goes on so.
fn request_or_end(asked: Asked) -> Result<Request, Ending>
    ensures { MatchResult result (λ request. asked ≡ Asked.Got request) (λ end. EndsBy end asked) }
{
    match asked {
        Asked::Got(request) => Ok(request),
        Asked::Refused(refusal) => Err(Ending::Refused(refusal)),
        Asked::End => Err(Ending::End),
        Asked::Torn => Err(Ending::Torn),
        Asked::TooLong => Err(Ending::TooLong),
    }
}

/// Reads the requests of an input, up to one that closes or to its end.
pub fn read_requests<S: Source>(alloc: Global, source: &mut S) -> Result<Requests, HttpFault>
    ensures requests { (bytes : Items ℕ) → S.left source.old ≡ Some bytes
        → IfOk result (λ all. IsInput (input bytes) all.requests all.ending) }
    ensures later { S.faults source.old ≤ S.faults source.new }
    ensures fault { IsErrOf result HttpFault.ReadFault
        → Rose (S.faults source.old) (S.faults source.new) }
{
    let mut buffer = Buffer::new(alloc);
    let mut requests = List::new(alloc);
    loop {
        let asked = read_request(alloc, source, &mut buffer)?;
        let request = match request_or_end(asked) {
            Ok(request) => request,
            Err(ending) => return Ok(Requests { requests, ending }),
        };
        let close = request.close;
        requests.push(request)?;
        if close {
            return Ok(Requests {
                requests,
                ending: Ending::Closed,
            });
        }
    }
}
