// What a page is asked for.
ghost use Rattle.std.specs.Prelude.{◌≡◌, ◌≤◌, IfOk, IfSome};
ghost use Rattle.std.specs.Option.{option_copied};
ghost use Rattle.bl_feed.specs.Parameters.{commit_asked, number_or, page_asked, type_asked};

use crate::StreamParameter;
use crate::iterator_type::IteratorType;
use crate::numbers::{read_number, read_number_or};
use bl_stream::{MOST_EVENTS, PageAsk};

// The most events of a page.
fn limit_asked(text: Option<&[u8]>) -> Option<u32>
    ensures value { result ≡ number_or 10 1 100000 (option_copied text.entry) }
    ensures range { IfSome result (λ limit. (1 ≤ limit) × (limit ≤ 100000)) }
{
    let limit = read_number_or(10, 1, MOST_EVENTS as u64, text)?;
    Some(limit as u32)
}

fn type_asked(name: Option<&[u8]>, with_commit: bool) -> Option<IteratorType>
    ensures { result ≡ type_asked (option_copied name.entry) with_commit }
{
    match name {
        Some(name) => IteratorType::named(name),
        None if with_commit => Some(IteratorType::AtSequenceNumber),
        None => None,
    }
}

fn commit_asked(needed: bool, text: Option<&[u8]>) -> Option<u64>
    ensures { result ≡ commit_asked needed (option_copied text.entry) }
{
    match text {
        Some(text) => read_number(text, 0, u64::MAX),
        None if needed => None,
        None => Some(0),
    }
}

/// What a page is asked for by the values of its parameters, where they are given. The first
/// parameter that is refused is named.
pub fn read_page_ask(
    limit: Option<&[u8]>,
    iterator_type: Option<&[u8]>,
    commit_num: Option<&[u8]>,
    op_num: Option<&[u8]>,
) -> Result<PageAsk, StreamParameter>
    ensures asked { result ≡ page_asked (option_copied limit.entry)
        (option_copied iterator_type.entry) (option_copied commit_num.entry)
        (option_copied op_num.entry) }
    ensures limit { IfOk result (λ ask. (1 ≤ ask.limit) × (ask.limit ≤ 100000)) }
{
    let limit = limit_asked(limit).ok_or(StreamParameter::Limit)?;
    let begins = type_asked(iterator_type, commit_num.is_some());
    let begins = begins.ok_or(StreamParameter::IteratorType)?;
    let commit = commit_asked(begins.needs_commit(), commit_num);
    let commit = commit.ok_or(StreamParameter::CommitNum)?;
    let op = read_number_or(1, 0, u64::MAX, op_num).ok_or(StreamParameter::OpNum)?;
    Ok(PageAsk {
        iterator: begins.at(commit, op),
        limit,
    })
}
