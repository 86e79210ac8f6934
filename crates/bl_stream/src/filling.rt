// A page that is being filled.
ghost use Rattle.std.specs.Prelude.{
  ◌≡◌,
  ◌≤◌,
  ◌<◌,
  ◌+◌,
  ◌-◌,
  ◌^◌,
  IsTrue,
  OnOk,
  length,
  drop,
};
ghost use Rattle.bl_stream.specs.Events.{commit_events, events_of};
ghost use Rattle.bl_stream.specs.Slices.{nothing, is_full, with_event, with_events};
ghost use Rattle.bl_stream.specs.Readers.{IsCommit};
ghost use Rattle.bl_value.specs.Valid.{IsChange, IsPrintable};
ghost use Rattle.std.specs.List.{All};

use crate::{Commit, Page};
use bl_change::{Event, print_event};
use bl_outside::{List, NoMemory};
use bl_value::Change;
use std::alloc::Global;
use std::marker::Model;

/// A page ends with the event with which the texts of its events reach these bytes together.
pub const PAGE_BYTES: usize = 10_485_760;

/// A page so far. Contracts see its limit, its events, and the bytes left for their texts.
#[derive(Drop)]
pub struct Filling {
    alloc: Global,
    limit: u32,
    events: List<Event>,
    room: usize,
}

impl Model for Filling {
    ghost use Rattle.bl_stream.specs.Slices.{Filled};
    ghost use Rattle.bl_stream.specs.Filling.{IsOpen};

    ghost Value = { Filled };

    ghost view = { λ f. record { limit = f.limit; events = f.events; room = f.room } };

    ghost invariant = { λ f. IsOpen (record { limit = f.limit; events = f.events; room = f.room }) };
}

impl Filling {
    /// No event, of at most so many.
    pub fn new(alloc: Global, limit: u32) -> Filling
        requires { 1 ≤ limit }
        ensures { result ≡ nothing limit }
    {
        Filling {
            alloc,
            limit,
            events: List::new(alloc),
            room: PAGE_BYTES,
        }
    }

    /// It takes no more events.
    pub fn is_full(&self) -> bool
        ensures full { result ≡ is_full self.now }
        ensures some { IsTrue result → 1 ≤ length self.now.events }
    {
        self.events.len() >= self.limit as usize || self.room == 0
    }

    // One more event, unless it is full.
    fn add(&mut self, event: Event) -> Result<(), NoMemory>
        requires { IsPrintable event.change }
        ensures { OnOk result (self.new ≡ with_event self.old event) }
    {
        if self.events.len() >= self.limit as usize || self.room == 0 {
            return Ok(());
        }
        let text = print_event(self.alloc, &event)?;
        self.events.push(event)?;
        self.room = self.room.saturating_sub(text.len());
        Ok(())
    }

    // The last changes of a commit that has so many.
    fn add_changes(
        &mut self,
        number: u64,
        moment: u64,
        operations: usize,
        changes: List<Change>,
    ) -> Result<(), NoMemory>
        requires count { length changes ≤ operations }
        requires valid { All IsChange changes }
        ensures { OnOk result (self.new ≡ with_events self.old
            (events_of number (operations - length changes + 1) moment changes)) }
    {
        let changes = changes.into_vec();
        let mut left = changes.len();
        for change in changes {
            left -= 1;
            self.add(Event {
                commit: number,
                op: (operations - left) as u64,
                moment,
                last: left == 0,
                change,
            })?;
        }
        Ok(())
    }

    /// The events of a commit, without so many of the first of them.
    pub fn add_commit(&mut self, number: u64, commit: Commit, before: u64) -> Result<(), NoMemory>
        requires { IsCommit commit }
        ensures filled { OnOk result (self.new
            ≡ with_events self.old (drop before (commit_events number commit))) }
        ensures fits { (number < 2 ^ 64) × (length commit.changes < 2 ^ 64) }
    {
        let Commit {
            moment,
            mut changes,
        } = commit;
        let operations = changes.len();
        if before >= operations as u64 {
            return Ok(());
        }
        changes.drop_front(before as usize);
        self.add_changes(number, moment, operations, changes)
    }

    /// The page as it is.
    pub fn into_page(self) -> Page
        ensures events { result.events ≡ self.events }
        ensures count { length result.events ≤ self.limit }
    {
        let Filling {
            alloc: _,
            limit: _,
            events,
            room: _,
        } = self;
        Page { events }
    }
}
