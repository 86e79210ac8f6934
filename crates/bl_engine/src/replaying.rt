// The entries of a journal, read one after another.
ghost use Rattle.std.specs.Prelude.{
  ◌≡◌,
  ◌↔◌,
  ◌+◌,
  ◌-◌,
  ◌<◌,
  ◌≤◌,
  ◌^◌,
  [],
  List as Items,
  IfOk,
  IsErrOf,
  OnOk,
};
ghost use Rattle.bl_outside.specs.Counts.{Rose};
ghost use Rattle.bl_journal.specs.Frames.{Found};
ghost use Rattle.bl_journal.specs.Journals.{
  IsAtEnd,
  IsAtGate,
  IsSettled,
  IsSound,
  Since,
  Stands,
};
ghost use Rattle.bl_entry.specs.declared.entry.Entry.{Entry as EntryValue};
ghost use Rattle.bl_world.specs.Worlds.{IsWorldOf};
ghost use Rattle.bl_engine.specs.Openings.{IsUnfit, Leads, ReplayIs};

use crate::Trouble;
use crate::refusals::trouble_of;
use bl_entry::{EntryRefusal, decode, no_encoding_begins_another};
use bl_journal::Journal;
use bl_outside::{Disk, Steps, Text};
use bl_world::{FollowRefusal, World};
use std::alloc::Global;
use std::sync::ledger::Ledger;

// Follows the entry that a body is.
fn follow_body<L: Ledger>(
    alloc: Global,
    world: &mut World,
    body: &Text,
    steps: &mut Steps<L>,
) -> Result<(), FollowRefusal>
    requires { world.old.entries < 2 ^ 64 - 1 }
    ensures leads { OnOk result (Leads world.old body.now world.new) }
    ensures unfit { IsErrOf result FollowRefusal.Unfit → IsUnfit world.old body.now }
    ensures steps { steps.new ≡ steps.old + 1 }
{
    no_encoding_begins_another();
    let entry = match decode(alloc, body.as_slice(), steps) {
        Ok(entry) => entry,
        Err(EntryRefusal::NotAnEntry) => return Err(FollowRefusal::Unfit),
        Err(EntryRefusal::NoMemory) => return Err(FollowRefusal::NoMemory),
    };
    world.follow(entry)
}

// Reads all frames from the first gate on. Each entry is one step.
pub(crate) fn replay<D: Disk, L: Ledger>(
    alloc: Global,
    seed: u128,
    journal: &mut Journal<D>,
    steps: &mut Steps<L>,
) -> Result<World, Trouble>
    requires place { journal.old.place ≡ 15 }
    ensures replayed { (all : Found) → Stands (D.seen journal.old.disk) 15 [] all
        → ReplayIs all (D.seen journal.new.disk) journal.new.place result }
    ensures leads { IfOk result (λ world.
        (entries : Items EntryValue) × IsWorldOf entries world) }
    ensures room { IfOk result (λ world. (world.entries + 15 ≤ journal.new.place)
        × (journal.new.place < 2 ^ 64)) }
    ensures steps { IfOk result (λ world. steps.new ≡ steps.old + world.entries) }
    ensures at_end { IsAtGate ⟦<D as Disk>⟧ journal.old
        → OnOk result (IsAtEnd ⟦<D as Disk>⟧ journal.new) }
    ensures settled { IsSettled ⟦<D as Disk>⟧ journal.old.disk
        → IsSettled ⟦<D as Disk>⟧ journal.new.disk }
    ensures any_moment { IsSound ⟦<D as Disk>⟧ journal.old.disk
        → Since ⟦<D as Disk>⟧ journal.old.disk journal.new.disk (D.may_leave journal.old.disk) }
    ensures sound { IsSound ⟦<D as Disk>⟧ journal.old.disk
        ↔ IsSound ⟦<D as Disk>⟧ journal.new.disk }
    ensures store { IsErrOf result Trouble.StoreFault
        → Rose (D.faults journal.old.disk) (D.faults journal.new.disk) }
    ensures later { D.faults journal.old.disk ≤ D.faults journal.new.disk }
{
    let mut world = World::empty(alloc, seed);
    'frames: loop {
        let place = journal.place();
        let body = match journal.next() {
            Err(fault) => return Err(trouble_of(fault)),
            Ok(None) => return Ok(world),
            Ok(Some(body)) => body,
        };
        match follow_body(alloc, &mut world, &body, steps) {
            Ok(()) => {}
            Err(FollowRefusal::Unfit) => return Err(Trouble::BadStore(place)),
            Err(FollowRefusal::NoMemory) => return Err(Trouble::NoMemory),
        }
    }
}
