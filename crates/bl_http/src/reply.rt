// The text of a reply.
ghost use Rattle.std.specs.Prelude.{◌≡◌, ◌↔◌, ◌++◌, IsTrue, IsSome, IfOk, OnOk};
ghost use Rattle.std.specs.Option.{option_copied};
ghost use Rattle.bl_http.specs.Replies.{allow_line, close_line, is_sent as is_sent_status, length_line, phrase_of, reply_of, status_line, type_line};

use bl_outside::{NoMemory, Text};
use http::StatusCode;
use std::alloc::Global;

/// A reply may have this status.
pub fn is_sent(status: u16) -> bool
    ensures { result ≡ is_sent_status status }
{
    matches!(status, 200 | 400 | 404 | 405 | 413 | 431 | 500 | 501)
}

#[tactic(auto, unfolding(crate::specs::Replies::phrase_of))]
fn phrase(code: StatusCode) -> &'static str
    ensures { result.now ≡ phrase_of code }
{
    match code.canonical_reason() {
        Some(phrase) => phrase,
        None => "",
    }
}

// Adds the first line.
#[tactic(auto, unfolding(crate::specs::Replies::status_line), using(std::proofs::Common::append_assoc))]
fn push_status(text: &mut Text, status: u16) -> Result<(), NoMemory>
    requires { IsTrue (is_sent_status status) }
    ensures { OnOk result (text.new ≡ text.old ++ status_line status) }
{
    let Ok(code) = StatusCode::from_u16(status) else {
        unreachable!();
    };
    text.extend(b"HTTP/1.1 ")?;
    text.extend(code.as_str().as_bytes())?;
    text.extend(b" ")?;
    text.extend(phrase(code).as_bytes())?;
    text.extend(b"\r\n")?;
    Ok(())
}

// Adds what the body is.
#[tactic(auto, unfolding(crate::specs::Replies::type_line))]
fn push_type(text: &mut Text) -> Result<(), NoMemory>
    ensures { OnOk result (text.new ≡ text.old ++ type_line) }
{
    text.extend(b"content-type: application/json\r\n")
}

// Adds the length of the body.
#[tactic(auto, unfolding(crate::specs::Replies::length_line), using(std::proofs::Common::append_assoc))]
fn push_length(alloc: Global, text: &mut Text, length: usize) -> Result<(), NoMemory>
    ensures { OnOk result (text.new ≡ text.old ++ length_line length) }
{
    let digits = format!(in alloc; "{length}")?;
    text.extend(b"content-length: ")?;
    text.extend(digits.as_bytes())?;
    text.extend(b"\r\n")?;
    Ok(())
}

// Adds the methods of the path, where they are told.
#[tactic(auto, unfolding(crate::specs::Replies::allow_line), using(std::proofs::Common::append_assoc))]
fn push_allow(text: &mut Text, allow: Option<&str>) -> Result<(), NoMemory>
    ensures { OnOk result (text.new ≡ text.old ++ allow_line (option_copied allow.entry)) }
{
    let Some(methods) = allow else {
        return Ok(());
    };
    text.extend(b"allow: ")?;
    text.extend(methods.as_bytes())?;
    text.extend(b"\r\n")?;
    Ok(())
}

// Adds that the connection ends, where it does.
#[tactic(auto, unfolding(crate::specs::Replies::close_line))]
fn push_close(text: &mut Text, close: bool) -> Result<(), NoMemory>
    ensures { OnOk result (text.new ≡ text.old ++ close_line close) }
{
    if close {
        text.extend(b"connection: close\r\n")?;
    }
    Ok(())
}

/// The text of a reply with a body of JSON. The methods that the path has are told exactly where
/// the status is 405.
#[tactic(auto, using(std::proofs::Common::append_assoc))]
pub fn reply_text(
    alloc: Global,
    status: u16,
    allow: Option<&str>,
    body: &Text,
    close: bool,
) -> Result<Text, NoMemory>
    requires sent { IsTrue (is_sent_status status) }
    requires allow { IsSome allow ↔ (status ≡ 405) }
    ensures { IfOk result (λ text. text
        ≡ reply_of status (option_copied allow.entry) body.now close) }
{
    let mut text = Text::new(alloc);
    push_status(&mut text, status)?;
    push_type(&mut text)?;
    push_length(alloc, &mut text, body.len())?;
    push_allow(&mut text, allow)?;
    push_close(&mut text, close)?;
    text.extend(b"\r\n")?;
    text.extend(body.as_slice())?;
    Ok(text)
}
