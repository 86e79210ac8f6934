// Entries read from their bytes.
ghost use Rattle.std.specs.Prelude.{◌≡◌, ◌+◌};
ghost use Rattle.bl_entry.specs.Decoded.{Decodes};
ghost use Rattle.bl_entry.specs.Reading.{
  Gives,
  batch_at,
  cancel_at,
  entry_at,
  feed_end_at,
  start_at,
  submit_at,
  whole_at,
};

use crate::part::read_list;
use crate::read_files::{read_end, read_plan, read_request};
use crate::read_parts::{read_digest, read_u32, read_u64, read_u128};
use crate::{Entry, EntryRefusal};
use bl_files::Log;
use bl_outside::Steps;
use bl_value::Change;
use std::alloc::Global;
use std::sync::ledger::Ledger;

/// The entry that has these bytes, all of them. One step of the counter.
pub fn decode<L: Ledger>(
    alloc: Global,
    body: &[u8],
    steps: &mut Steps<L>,
) -> Result<Entry, EntryRefusal>
    ensures decodes { Decodes body.now result }
    ensures step { steps.new ≡ steps.old + 1 }
{
    steps.tick();
    read_whole(alloc, body)
}

#[tactic(auto, unfolding(crate::specs::Reading::whole_at))]
fn read_whole(alloc: Global, body: &[u8]) -> Result<Entry, EntryRefusal>
    ensures { Gives (λ entry. entry) result (whole_at body.now) }
{
    let (entry, rest) = read_entry(alloc, body)?;
    if !rest.is_empty() {
        return Err(EntryRefusal::NotAnEntry);
    }
    Ok(entry)
}

#[tactic(auto, unfolding(crate::specs::Reading::entry_at))]
fn read_entry(alloc: Global, bytes: &[u8]) -> Result<(Entry, &[u8]), EntryRefusal>
    ensures { Gives (λ x. (x.0, x.1.now)) result (entry_at bytes.now) }
{
    match bytes {
        [1, rest @ ..] => read_submit(alloc, rest),
        [2, rest @ ..] => read_cancel(rest),
        [3, rest @ ..] => read_start(alloc, rest),
        [4, rest @ ..] => read_batch(alloc, rest),
        [5, rest @ ..] => read_feed_end(rest),
        _ => Err(EntryRefusal::NotAnEntry),
    }
}

#[tactic(auto, unfolding(crate::specs::Reading::submit_at))]
fn read_submit(alloc: Global, bytes: &[u8]) -> Result<(Entry, &[u8]), EntryRefusal>
    ensures { Gives (λ x. (x.0, x.1.now)) result (submit_at bytes.now) }
{
    let (moment, rest) = read_u64(bytes)?;
    let (job, rest) = read_u32(rest)?;
    let (id, rest) = read_u128(rest)?;
    let (request, rest) = read_request(alloc, rest)?;
    Ok((
        Entry::Submit {
            moment,
            job,
            id,
            request,
        },
        rest,
    ))
}

#[tactic(auto, unfolding(crate::specs::Reading::cancel_at))]
fn read_cancel(bytes: &[u8]) -> Result<(Entry, &[u8]), EntryRefusal>
    ensures { Gives (λ x. (x.0, x.1.now)) result (cancel_at bytes.now) }
{
    let (moment, rest) = read_u64(bytes)?;
    let (job, rest) = read_u32(rest)?;
    Ok((Entry::Cancel { moment, job }, rest))
}

#[tactic(auto, unfolding(crate::specs::Reading::start_at))]
fn read_start(alloc: Global, bytes: &[u8]) -> Result<(Entry, &[u8]), EntryRefusal>
    ensures { Gives (λ x. (x.0, x.1.now)) result (start_at bytes.now) }
{
    let (moment, rest) = read_u64(bytes)?;
    let (job, rest) = read_u32(rest)?;
    let (plan, rest) = read_plan(alloc, rest)?;
    Ok((Entry::Start { moment, job, plan }, rest))
}

#[tactic(auto, unfolding(crate::specs::Reading::batch_at))]
fn read_batch(alloc: Global, bytes: &[u8]) -> Result<(Entry, &[u8]), EntryRefusal>
    ensures { Gives (λ x. (x.0, x.1.now)) result (batch_at bytes.now) }
{
    let (moment, rest) = read_u64(bytes)?;
    let (job, rest) = read_u32(rest)?;
    let (feed, rest) = read_u32(rest)?;
    let (from, rest) = read_u64(rest)?;
    let (rows, rest) = read_u32(rest)?;
    let (digest, rest) = read_digest(rest)?;
    let (duplicates, rest) = read_u32(rest)?;
    let (logs, rest) = read_list::<Log>(alloc, rest)?;
    let (changes, rest) = read_list::<Change>(alloc, rest)?;
    Ok((
        Entry::Batch {
            moment,
            job,
            feed,
            from,
            rows,
            digest,
            duplicates,
            logs,
            changes,
        },
        rest,
    ))
}

#[tactic(auto, unfolding(crate::specs::Reading::feed_end_at))]
fn read_feed_end(bytes: &[u8]) -> Result<(Entry, &[u8]), EntryRefusal>
    ensures { Gives (λ x. (x.0, x.1.now)) result (feed_end_at bytes.now) }
{
    let (moment, rest) = read_u64(bytes)?;
    let (job, rest) = read_u32(rest)?;
    let (feed, rest) = read_u32(rest)?;
    let (end, rest) = read_end(rest)?;
    Ok((
        Entry::FeedEnd {
            moment,
            job,
            feed,
            end,
        },
        rest,
    ))
}
