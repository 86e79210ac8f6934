// How many files of a job have each status.
ghost use Rattle.std.specs.Prelude.{◌≡◌, IfOk, map, nat_lt};
ghost use Rattle.std.specs.List.{filter};
ghost use Rattle.serde_json.specs.Data.{object, member, no_members};
ghost use Rattle.serde_json.specs.View.{view};
ghost use Rattle.bl_feed.specs.Words.{feed_status_text};
ghost use Rattle.bl_feed.specs.StatusBodies.{a_number, count_data, count_of, counts_data, place};

use crate::state::put_number;
use crate::words::feed_status_text;
use bl_files::{Feed, FeedStatus};
use bl_outside::{List, NoMemory};
use serde_json::{Map, Value as Json};
use std::alloc::Global;

/// The statuses of files, in byte order of their names.
const STATUSES: [FeedStatus; 8] = [
    FeedStatus::CancelledByUser,
    FeedStatus::CancelledDueToErrors,
    FeedStatus::Completed,
    FeedStatus::Modified,
    FeedStatus::Failed,
    FeedStatus::InProgress,
    FeedStatus::NotStarted,
    FeedStatus::ReadError,
];

fn place(status: FeedStatus) -> u8
    ensures { result ≡ place status }
{
    match status {
        FeedStatus::NotStarted => 0,
        FeedStatus::InProgress => 1,
        FeedStatus::Completed => 2,
        FeedStatus::Failed => 3,
        FeedStatus::ReadError => 4,
        FeedStatus::Modified => 5,
        FeedStatus::CancelledDueToErrors => 6,
        FeedStatus::CancelledByUser => 7,
    }
}

fn count_of(status: FeedStatus, feeds: &[Feed]) -> usize
    ensures { result ≡ count_of status feeds.now }
{
    let place_of = place(status);
    feeds
        .iter()
        .filter(|feed| place(feed.status) == place_of)
        .count()
}

fn count_json(alloc: Global, status: FeedStatus, count: usize) -> Result<Json, NoMemory>
    ensures { IfOk result (λ json. view json ≡ object (member (feed_status_text status)
        (a_number count) no_members)) }
{
    let mut members = Map::new(alloc);
    put_number(alloc, &mut members, feed_status_text(status), count as u64)?;
    Ok(Json::Object(members))
}

// An object for each of these statuses that a file has.
fn counts_of(alloc: Global, feeds: &[Feed], statuses: &[FeedStatus]) -> Result<Vec<Json>, NoMemory>
    ensures { IfOk result (λ counts. map view counts.items ≡ map (count_data feeds.now)
        (filter (λ status. nat_lt 0 (count_of status feeds.now)) statuses.now)) }
{
    let mut counts = Vec::new(alloc);
    for status in statuses {
        let count = count_of(*status, feeds);
        if count > 0 {
            counts.push(count_json(alloc, *status, count)?)?;
        }
    }
    Ok(counts)
}

/// A list of one object for each status that a file has, in byte order of their names.
pub fn counts_json(alloc: Global, feeds: &List<Feed>) -> Result<Json, NoMemory>
    ensures { IfOk result (λ json. view json ≡ counts_data feeds.now) }
{
    let counts = counts_of(alloc, feeds.as_slice(), &STATUSES)?;
    Ok(Json::Array(counts))
}
