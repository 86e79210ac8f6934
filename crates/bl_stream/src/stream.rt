// A stream of commits, and its pages.
ghost use Rattle.std.specs.Prelude.{
  ◌≡◌,
  ◌≤◌,
  ◌<◌,
  ◌+◌,
  nat_le,
  if◌then◌else◌,
  IfOk,
  IfErr,
  OnOk,
  None,
  Some,
  length,
};
ghost use Rattle.bl_stream.specs.Slices.{is_full, most_events};
ghost use Rattle.bl_stream.specs.Readers.{IsTold};
ghost use Rattle.bl_stream.specs.Readers.{IsCause as IsReaderCause};
ghost use Rattle.bl_stream.specs.Pages.{HasEach, IsPage, Pages, IsCause};
ghost use Rattle.bl_stream.specs.Filling.{HasTaken, Adds, IsFault, IsFilled, start_of};

use crate::filling::Filling;
use crate::start::{Start, start_of};
use crate::{CommitFault, CommitReader, Page, PageAsk, PageRefusal};
use std::alloc::Global;
use std::marker::Model;

/// A range of commits. Contracts see it as the numbers of the first and the newest, or none.
#[derive(Debug, Drop)]
pub struct Stream {
    bounds: Option<(u64, u64)>,
}

impl Model for Stream {
    ghost use Rattle.std.specs.Prelude.{◌≤◌};
    ghost use Rattle.std.specs.Option.{ForSome};
    ghost use Rattle.bl_stream.specs.Slices.{Bounds};

    ghost Value = { Bounds };

    ghost view = { λ s. s.bounds };

    ghost invariant = { λ s. ForSome s.bounds (λ b. (1 ≤ b.0) × (b.0 ≤ b.1)) };
}

// Fills a page with the commits behind one, up to the newest or until it is full.
fn add_commits<R: CommitReader>(
    page: &mut Filling,
    reader: &mut R,
    number: u64,
    newest: u64,
) -> Result<(), CommitFault>
    requires told { IsTold (R.commits reader.old) newest }
    requires within { number ≤ newest }
    ensures told { OnOk result (HasTaken (R.commits reader.old) number newest page.old page.new) }
    ensures adds { OnOk result (Adds number newest page.old page.new) }
    ensures some { OnOk result (number < newest → 1 ≤ length page.new.events) }
    ensures limit { OnOk result (page.new.limit ≡ page.old.limit) }
    ensures commits { R.commits reader.new ≡ R.commits reader.old }
    ensures later { R.faults reader.old ≤ R.faults reader.new }
    ensures cause { IfErr result (IsReaderCause (R.faults reader.old) (R.faults reader.new)) }
{
    let mut read = number;
    while read < newest {
        if page.is_full() {
            return Ok(());
        }
        read += 1;
        let commit = reader.commit(read)?;
        page.add_commit(read, commit, 0)?;
    }
    Ok(())
}

// A page with what is asked for, from its start on, or with nothing.
fn filled<R: CommitReader>(
    alloc: Global,
    reader: &mut R,
    bounds: (u64, u64),
    start: Start,
    ask: &PageAsk,
) -> Result<Filling, PageRefusal>
    requires limit { 1 ≤ ask.now.limit }
    requires bounds { (1 ≤ bounds.0) × (bounds.0 ≤ bounds.1) }
    requires each { HasEach (R.commits reader.old) (Some bounds) }
    requires start { start_of bounds ask.now.iterator ≡ Some start }
    ensures filled { IfOk result (IsFilled (R.commits reader.old) bounds ask.now) }
    ensures commits { R.commits reader.new ≡ R.commits reader.old }
    ensures later { R.faults reader.old ≤ R.faults reader.new }
    ensures cause { IfErr result (IsFault (R.faults reader.old) (R.faults reader.new)) }
{
    let commit = reader.commit(start.number)?;
    let before = start.before.count(commit.changes.len() as u64);
    let mut page = Filling::new(alloc, ask.limit);
    page.add_commit(start.number, commit, before)?;
    add_commits(&mut page, reader, start.number, bounds.1)?;
    Ok(page)
}

impl Stream {
    /// The stream of the commits from `first` to `newest`, or of none where `newest` is lower.
    pub fn over(first: u64, newest: u64) -> Stream
        requires { 1 ≤ first }
        ensures { result ≡ (if nat_le first newest then Some (first, newest) else None) }
    {
        let bounds = if first <= newest {
            Some((first, newest))
        } else {
            None
        };
        Stream { bounds }
    }

    /// The numbers of the oldest and the newest commit.
    pub fn bounds(&self) -> Option<(u64, u64)>
        ensures { result ≡ self.now }
    {
        self.bounds
    }

    /// The page that is asked for. It reads the commits whose events it has, one before them where
    /// the place asked for is behind its last event, and no other.
    pub fn page<R: CommitReader>(
        &self,
        alloc: Global,
        reader: &mut R,
        ask: &PageAsk,
    ) -> Result<Page, PageRefusal>
        requires limit { (1 ≤ ask.now.limit) × (ask.now.limit ≤ most_events) }
        requires each { HasEach (R.commits reader.old) self.now }

        ensures slice { Pages (R.commits reader.old) self.now ask.now result }
        // What holds of every reader, whatever it tells.
        ensures page { IfOk result (λ page. IsPage self.now ask.now page.events) }
        ensures cause { IfErr result
            (IsCause self.now ask.now.iterator (R.faults reader.old) (R.faults reader.new)) }

        ensures commits { R.commits reader.new ≡ R.commits reader.old }
        ensures later { R.faults reader.old ≤ R.faults reader.new }
    {
        let Some(bounds) = self.bounds else {
            return Err(PageRefusal::NoRecords);
        };
        let Some(start) = start_of(bounds.0, bounds.1, ask.iterator) else {
            return Err(PageRefusal::NoRecords);
        };
        let page = filled(alloc, reader, bounds, start, ask)?.into_page();
        if page.events.is_empty() {
            return Err(PageRefusal::NoRecords);
        }
        Ok(page)
    }
}
