// Files, plans, ends and requests, read from the front of the bytes.
ghost use Rattle.std.specs.Prelude.{◌≡◌};
ghost use Rattle.bl_entry.specs.Reading.{
  Gives,
  end_at,
  found_at,
  kind_at,
  mode_at,
  plan_at,
  request_at,
  source_at,
};

use crate::EntryRefusal;
use crate::part::read_list;
use crate::read_changes::read_log;
use crate::read_parts::{
    read_below, read_code, read_digest, read_text, read_truth, read_u32, read_u64,
};
use bl_files::{FeedEnd, FeedKind, Found, LoadRequest, Mode, PlanResult, is_kept_source};
use bl_outside::Text;
use std::alloc::Global;

#[tactic(auto, unfolding(crate::specs::Reading::kind_at))]
fn read_kind(bytes: &[u8]) -> Result<(FeedKind, &[u8]), EntryRefusal>
    ensures { Gives (λ x. (x.0, x.1.now)) result (kind_at bytes.now) }
{
    match bytes {
        [0, rest @ ..] => Ok((FeedKind::Vertex, rest)),
        [1, rest @ ..] => Ok((FeedKind::Edge, rest)),
        [2, rest @ ..] => {
            let (code, rest) = read_code(rest)?;
            let (column, rest) = read_u32(rest)?;
            Ok((FeedKind::Refused(code, column), rest))
        }
        _ => Err(EntryRefusal::NotAnEntry),
    }
}

#[tactic(auto, unfolding(crate::specs::Reading::found_at))]
pub fn read_found(alloc: Global, bytes: &[u8]) -> Result<(Found, &[u8]), EntryRefusal>
    ensures { Gives (λ x. (x.0, x.1.now)) result (found_at bytes.now) }
{
    let (name, rest) = read_text(alloc, bytes)?;
    let (kind, rest) = read_kind(rest)?;
    let (digest, rest) = read_digest(rest)?;
    Ok((Found { name, kind, digest }, rest))
}

#[tactic(auto, unfolding(crate::specs::Reading::plan_at))]
pub fn read_plan(alloc: Global, bytes: &[u8]) -> Result<(PlanResult, &[u8]), EntryRefusal>
    ensures { Gives (λ x. (x.0, x.1.now)) result (plan_at bytes.now) }
{
    match bytes {
        [0, rest @ ..] => {
            let (found, rest) = read_list::<Found>(alloc, rest)?;
            Ok((PlanResult::Feeds(found), rest))
        }
        [1, rest @ ..] => Ok((PlanResult::NoPrevious, rest)),
        [2, rest @ ..] => Ok((PlanResult::SourceNotFound, rest)),
        [3, rest @ ..] => Ok((PlanResult::ListFault, rest)),
        [4, rest @ ..] => {
            let (number, rest) = read_u64(rest)?;
            Ok((PlanResult::TooManyFiles(number), rest))
        }
        _ => Err(EntryRefusal::NotAnEntry),
    }
}

#[tactic(auto, unfolding(crate::specs::Reading::end_at))]
pub fn read_end(bytes: &[u8]) -> Result<(FeedEnd, &[u8]), EntryRefusal>
    ensures { Gives (λ x. (x.0, x.1.now)) result (end_at bytes.now) }
{
    match bytes {
        [0, rest @ ..] => Ok((FeedEnd::Completed, rest)),
        [1, rest @ ..] => {
            let (log, rest) = read_log(rest)?;
            Ok((FeedEnd::Stopped(log), rest))
        }
        [2, rest @ ..] => Ok((FeedEnd::ReadError, rest)),
        [3, rest @ ..] => Ok((FeedEnd::Modified, rest)),
        _ => Err(EntryRefusal::NotAnEntry),
    }
}

#[tactic(auto, unfolding(crate::specs::Reading::mode_at))]
fn read_mode(bytes: &[u8]) -> Result<(Mode, &[u8]), EntryRefusal>
    ensures { Gives (λ x. (x.0, x.1.now)) result (mode_at bytes.now) }
{
    match bytes {
        [0, rest @ ..] => Ok((Mode::New, rest)),
        [1, rest @ ..] => Ok((Mode::Resume, rest)),
        [2, rest @ ..] => Ok((Mode::Auto, rest)),
        _ => Err(EntryRefusal::NotAnEntry),
    }
}

#[tactic(auto, unfolding(crate::specs::Reading::source_at))]
fn read_source(alloc: Global, bytes: &[u8]) -> Result<(Text, &[u8]), EntryRefusal>
    ensures { Gives (λ x. (x.0, x.1.now)) result (source_at bytes.now) }
{
    let (source, rest) = read_text(alloc, bytes)?;
    if !is_kept_source(source.as_slice()) {
        return Err(EntryRefusal::NotAnEntry);
    }
    Ok((source, rest))
}

#[tactic(auto, unfolding(crate::specs::Reading::request_at))]
pub fn read_request(alloc: Global, bytes: &[u8]) -> Result<(LoadRequest, &[u8]), EntryRefusal>
    ensures { Gives (λ x. (x.0, x.1.now)) result (request_at bytes.now) }
{
    let (source, rest) = read_source(alloc, bytes)?;
    let (format, rest) = read_below(1, rest)?;
    let (mode, rest) = read_mode(rest)?;
    let (fail_on_error, rest) = read_truth(rest)?;
    let (update_single, rest) = read_truth(rest)?;
    let (parallelism, rest) = read_below(4, rest)?;
    let (queue, rest) = read_truth(rest)?;
    let (dependencies, rest) = read_list::<u128>(alloc, rest)?;
    Ok((
        LoadRequest {
            source,
            format,
            mode,
            fail_on_error,
            update_single,
            parallelism,
            queue,
            dependencies,
        },
        rest,
    ))
}
