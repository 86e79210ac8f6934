// What is shown of files and jobs.
ghost use Rattle.std.specs.Prelude.{◌≡◌, ◌+◌};
ghost use Rattle.bl_files.specs.Shown.{
  end_counts,
  end_records,
  of_class,
  shown,
  shown_counts,
  shown_sum,
  totals,
};

use crate::{Counts, ErrorClass, Feed, Log, class_of, is_row_code};
use bl_outside::List;

/// The records and counts of a file with its end log in them.
pub fn shown_counts(feed: &Feed) -> Counts
    ensures { result ≡ shown_counts feed.now }
{
    let taken = Counts {
        records: feed.taken,
        ..feed.counts
    };
    let mut ended = end_counts(feed.end_log);
    ended.records = end_records(feed.end_log);
    shown_sum(&taken, &ended)
}

/// The sums of what is shown of the files of a job.
pub fn totals(feeds: &List<Feed>) -> Counts
    ensures { result ≡ totals feeds.now }
{
    let mut total = Counts::none();
    for feed in feeds.as_slice() {
        total = shown_sum(&total, &shown_counts(feed));
    }
    total
}

// A sum that is too large is shown as the greatest number.
fn shown_sum(a: &Counts, b: &Counts) -> Counts
    ensures { result ≡ shown_sum a.now b.now }
{
    Counts {
        records: a.records.saturating_add(b.records),
        duplicates: a.duplicates.saturating_add(b.duplicates),
        parsing: a.parsing.saturating_add(b.parsing),
        datatype: a.datatype.saturating_add(b.datatype),
        insert: a.insert.saturating_add(b.insert),
    }
}

fn end_records(log: Option<Log>) -> u64
    ensures { result ≡ end_records log }
{
    match log {
        Some(log) if is_row_code(log.code) => 1,
        _ => 0,
    }
}

fn end_counts(log: Option<Log>) -> Counts
    ensures { result ≡ end_counts log }
{
    match log {
        Some(log) => of_class(class_of(log.code)),
        None => of_class(None),
    }
}

fn of_class(class: Option<ErrorClass>) -> Counts
    ensures { result ≡ of_class class }
{
    let mut counts = Counts::none();
    match class {
        Some(ErrorClass::Parsing) => counts.parsing = 1,
        Some(ErrorClass::Datatype) => counts.datatype = 1,
        Some(ErrorClass::Insert) => counts.insert = 1,
        None => {}
    }
    counts
}
