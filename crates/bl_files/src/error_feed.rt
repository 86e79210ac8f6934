// The logs of a job.
ghost use Rattle.std.specs.Prelude.{◌≡◌, ◌++◌, map, option_to_list, IfOk, OnOk};
ghost use Rattle.bl_files.specs.ErrorFeed.{error_feed, feed_errors};

use crate::{Feed, Log};
use bl_outside::{List, NoMemory};
use std::alloc::Global;

/// A log that a user is shown.
#[derive(Clone, Copy, Debug, PartialEq, Eq)]
pub struct ErrorEntry {
    /// The place of its file among the job's, counted from 1; none where it is the job's own.
    pub feed: Option<usize>,
    pub log: Log,
}

/// All logs of a job: file by file those of its records and then its end log, and last the job's
/// own end log.
pub fn all_errors(
    alloc: Global,
    feeds: &List<Feed>,
    end_log: Option<Log>,
) -> Result<List<ErrorEntry>, NoMemory>
    ensures { IfOk result (λ errors. errors ≡ error_feed feeds.now end_log) }
{
    let mut errors = List::new(alloc);
    for (place, feed) in feeds.as_slice().iter().enumerate() {
        push_errors(&mut errors, place + 1, feed)?;
    }
    push_end(&mut errors, None, end_log)?;
    Ok(errors)
}

fn push_errors(errors: &mut List<ErrorEntry>, place: usize, feed: &Feed) -> Result<(), NoMemory>
    ensures { OnOk result (errors.new ≡ errors.old ++ feed_errors place feed.now) }
{
    for log in feed.logs.as_slice() {
        errors.push(ErrorEntry {
            feed: Some(place),
            log: *log,
        })?;
    }
    push_end(errors, Some(place), feed.end_log)
}

fn push_end(
    errors: &mut List<ErrorEntry>,
    feed: Option<usize>,
    end_log: Option<Log>,
) -> Result<(), NoMemory>
    ensures { OnOk result
        (errors.new ≡ errors.old
        ++ map (λ log. record { feed = feed; log = log }) (option_to_list end_log)) }
{
    if let Some(log) = end_log {
        errors.push(ErrorEntry { feed, log })?;
    }
    Ok(())
}
