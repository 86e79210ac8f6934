// The files of a job as they end.
ghost use Rattle.std.specs.Prelude.{◌≡◌, ◌<◌, length};
ghost use Rattle.bl_queue.specs.Runs.{
  bare_log,
  end_log,
  end_status,
  ended_feed,
  feeds_after,
  open_ended,
  stopped,
  stops,
  with_feed,
  with_open_ended,
};

use bl_files::{Feed, FeedEnd, FeedStatus, Log};
use bl_outside::List;
use bl_value::LogCode;

fn end_open(feed: &mut Feed, status: FeedStatus)
    ensures { feed.new ≡ open_ended status feed.old }
{
    if feed.status.is_open() {
        feed.status = status;
    }
}

fn end_all_open(feeds: &mut [Feed], status: FeedStatus)
    ensures { feeds.new ≡ with_open_ended status feeds.old }
{
    for feed in feeds.iter_mut() {
        end_open(feed, status);
    }
}

/// Each file that hasn't ended ends with this status.
pub fn with_open_ended(feeds: List<Feed>, status: FeedStatus) -> List<Feed>
    ensures { result ≡ with_open_ended status feeds }
{
    let mut feeds = feeds.into_vec();
    end_all_open(&mut feeds, status);
    List::from_vec(feeds)
}

fn end_status(end: FeedEnd) -> FeedStatus
    ensures { result ≡ end_status end }
{
    match end {
        FeedEnd::Completed => FeedStatus::Completed,
        FeedEnd::Stopped(_) => FeedStatus::Failed,
        FeedEnd::ReadError => FeedStatus::ReadError,
        FeedEnd::Modified => FeedStatus::Modified,
    }
}

/// A log that is about no record.
pub fn bare_log(code: LogCode) -> Log
    ensures { result ≡ bare_log code }
{
    Log {
        code,
        number: 0,
        column: 0,
    }
}

fn end_log(end: FeedEnd) -> Option<Log>
    ensures { result ≡ end_log end }
{
    match end {
        FeedEnd::Completed => None,
        FeedEnd::Stopped(log) => Some(log),
        FeedEnd::ReadError => Some(bare_log(LogCode::ReadFault)),
        FeedEnd::Modified => Some(bare_log(LogCode::FeedModified)),
    }
}

// The end of one file stops the job.
fn stops(fail_on_error: bool, end: FeedEnd) -> bool
    ensures { result ≡ stops fail_on_error end }
{
    match end {
        FeedEnd::Completed => false,
        FeedEnd::Stopped(_) | FeedEnd::Modified => fail_on_error,
        FeedEnd::ReadError => true,
    }
}

fn end_one(feed: &mut Feed, end: FeedEnd)
    ensures { feed.new ≡ ended_feed end feed.old }
{
    feed.status = end_status(end);
    feed.end_log = end_log(end);
}

fn end_at(feeds: &mut [Feed], place: usize, end: FeedEnd)
    requires { place < length feeds.old }
    ensures { feeds.new ≡ with_feed place (ended_feed end) feeds.old }
{
    end_one(&mut feeds[place], end);
}

fn stop(feeds: &mut [Feed], fail_on_error: bool, end: FeedEnd)
    ensures { feeds.new ≡ stopped fail_on_error end feeds.old }
{
    if stops(fail_on_error, end) {
        end_all_open(feeds, FeedStatus::CancelledDueToErrors);
    }
}

/// The file at this place ends, and where that stops the job, all others do.
pub fn with_end(feeds: List<Feed>, fail_on_error: bool, place: usize, end: FeedEnd) -> List<Feed>
    requires { place < length feeds }
    ensures { result ≡ feeds_after fail_on_error place end feeds }
{
    let mut feeds = feeds.into_vec();
    end_at(&mut feeds, place, end);
    stop(&mut feeds, fail_on_error, end);
    List::from_vec(feeds)
}
