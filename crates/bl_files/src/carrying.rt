// The feeds that go on from one load to the next.
ghost use Rattle.std.specs.Prelude.{
  ◌≡◌,
  ◌+◌,
  ◌++◌,
  ◌<◌,
  ◌^◌,
  ℕ,
  List as Items,
  not,
  map,
  filter,
  length,
  count_by,
  IfOk,
  OnOk,
};
ghost use Rattle.std.specs.List.Sorted.{IsPermutation, IsSorted};
ghost use Rattle.std.specs.Ordering.{nat_cmp};
ghost use Rattle.std.specs.Cmp.Lexicographic.{slice_cmp};
ghost use Rattle.std.specs.BTreeSet.{contains};
ghost use Rattle.bl_files.specs.Carried.{
  AreCarried,
  AreFeeds,
  CarriedNumber,
  Carries,
  DifferentNames,
  feed_cmp,
  found_names,
  is_kept,
  new_feed,
};
ghost use Rattle.bl_files.specs.Collected.{collected, has_kept, kept_feeds, new_files};
ghost use Rattle.bl_files.specs.declared.carrying.CarryRefusal.TheVariants.{
  NoMemory as out_of_memory,
};

use crate::{Feed, Found};
use bl_outside::{List, NoMemory, Text};
use std::alloc::{AllocError, AllocFailed, Global};
use std::collections::BTreeSet;
use thiserror::Error;

/// The most files that a job may have.
pub const MOST_FILES: u64 = 4096;

/// Why there are no feeds.
#[derive(Clone, Copy, Debug, PartialEq, Eq, Error)]
pub enum CarryRefusal {
    /// There would be so many, which is more than `MOST_FILES`.
    #[error("the load would have {0} files")]
    TooMany(u64),
    /// There was no memory for them.
    #[error("out of memory")]
    NoMemory,
}

impl From<NoMemory> for CarryRefusal {
    ghost from_gives = { λ _ e. e ≡ out_of_memory };

    fn from(_: NoMemory) -> CarryRefusal {
        CarryRefusal::NoMemory
    }
}

/// The feeds of a new job. A previous feed that is completed or has records taken goes on with what
/// it has, whether its file was found again or not; every other file that was found is a new feed.
/// Files that aren't read come first, then vertex files, then edge files, each by their names.
pub fn carry(
    alloc: Global,
    previous: &List<Feed>,
    found: &List<Found>,
) -> Result<List<Feed>, CarryRefusal>
    requires previous { AreFeeds previous.now }
    requires found { DifferentNames (found_names found.now) }
    ensures carries { Carries previous.now found.now result }
    ensures feeds { IfOk result AreFeeds }
{
    let names = kept_names(alloc, previous)?;
    let number = number_with(previous, found, &names);
    if number > MOST_FILES {
        return Err(CarryRefusal::TooMany(number));
    }
    let feeds = in_order(collect(alloc, previous, found, &names)?)?;
    Ok(List::from_vec(feeds))
}

/// How many feeds a new job would have. None of them is made.
pub fn carried_number(
    alloc: Global,
    previous: &List<Feed>,
    found: &List<Found>,
) -> Result<u64, NoMemory>
    requires previous { AreFeeds previous.now }
    requires found { DifferentNames (found_names found.now) }
    ensures { IfOk result (CarriedNumber previous.now found.now) }
{
    let names = kept_names(alloc, previous)?;
    Ok(number_with(previous, found, &names))
}

// How many feeds are kept, and how many are new beside these names.
fn number_with(previous: &List<Feed>, found: &List<Found>, names: &BTreeSet<Text>) -> u64
    ensures { result ≡ count_by is_kept previous.now
        + count_by (λ file. not (contains (slice_cmp nat_cmp) names.now file.name)) found.now }
{
    kept_count(previous) + new_count(found, names)
}

// The names of the feeds that are kept.
fn kept_names(alloc: Global, previous: &List<Feed>) -> Result<BTreeSet<Text>, NoMemory>
    ensures { IfOk result (λ names.
        (name : Items ℕ) → contains (slice_cmp nat_cmp) names name ≡ has_kept previous.now name) }
{
    let mut names = BTreeSet::new(alloc);
    for feed in previous.as_slice() {
        if feed.is_kept() {
            names.insert(feed.name.copy(alloc)?)?;
        }
    }
    Ok(names)
}

fn kept_count(previous: &List<Feed>) -> u64
    ensures count { result ≡ count_by is_kept previous.now }
    ensures bound { result < 2 ^ 63 }
{
    previous
        .as_slice()
        .iter()
        .filter(|feed| feed.is_kept())
        .count() as u64
}

fn new_count(found: &List<Found>, names: &BTreeSet<Text>) -> u64
    ensures count { result
        ≡ count_by (λ file. not (contains (slice_cmp nat_cmp) names.now file.name)) found.now }
    ensures bound { result < 2 ^ 63 }
{
    found
        .as_slice()
        .iter()
        .filter(|file| !names.contains(&file.name))
        .count() as u64
}

// The feeds that are kept, and then the new ones.
fn collect(
    alloc: Global,
    previous: &List<Feed>,
    found: &List<Found>,
    names: &BTreeSet<Text>,
) -> Result<Vec<Feed>, NoMemory>
    ensures { IfOk result (λ feeds.
        feeds.items ≡ kept_feeds previous.now
        ++ map new_feed
        (filter (λ file. not (contains (slice_cmp nat_cmp) names.now file.name)) found.now)) }
{
    let mut feeds = Vec::new(alloc);
    push_kept(alloc, previous, &mut feeds)?;
    push_new(alloc, found, names, &mut feeds)?;
    Ok(feeds)
}

fn push_kept(alloc: Global, previous: &List<Feed>, feeds: &mut Vec<Feed>) -> Result<(), NoMemory>
    ensures { OnOk result (feeds.new.items ≡ feeds.old.items ++ kept_feeds previous.now) }
{
    for feed in previous.as_slice() {
        if feed.is_kept() {
            feeds.push(feed.carried_on(alloc)?)?;
        }
    }
    Ok(())
}

fn push_new(
    alloc: Global,
    found: &List<Found>,
    names: &BTreeSet<Text>,
    feeds: &mut Vec<Feed>,
) -> Result<(), NoMemory>
    ensures { OnOk result
        (feeds.new.items
        ≡ feeds.old.items
        ++ map new_feed
        (filter (λ file. not (contains (slice_cmp nat_cmp) names.now file.name)) found.now)) }
{
    for file in found.as_slice() {
        if !names.contains(&file.name) {
            feeds.push(Feed::of_found(alloc, file)?)?;
        }
    }
    Ok(())
}

fn in_order(mut feeds: Vec<Feed>) -> Result<Vec<Feed>, NoMemory>
    ensures same { IfOk result (λ sorted. IsPermutation feeds.items sorted.items) }
    ensures sorted { IfOk result (λ sorted. IsSorted feed_cmp sorted.items) }
{
    feeds.sort_by(|a, b| a.order(b))?;
    Ok(feeds)
}
