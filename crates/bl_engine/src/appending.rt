// An entry is taken into the world, and appended to the journal.
ghost use Rattle.std.specs.Prelude.{◌≡◌, ◌-◌, ◌<◌, ◌^◌, true};
ghost use Rattle.bl_entry.specs.Valid.{IsEntry};
ghost use Rattle.bl_journal.specs.Journals.{IsAtEnd};
ghost use Rattle.bl_world.specs.Worlds.{IsBegun, World as Known};
ghost use Rattle.bl_engine.specs.Appending.{Adds, IsJust, append_outcome};
ghost use Rattle.bl_engine.specs.Attempts.{Attempts};

use crate::Engine;
use bl_entry::{Entry, encode};
use bl_journal::{AppendRefusal, Journal};
use bl_outside::Disk;
use bl_world::World;
use std::alloc::Global;

/// Why an entry isn't appended.
#[derive(Clone, Copy, Debug, PartialEq, Eq)]
pub(crate) enum Unappended {
    /// Memory ran out before anything was changed.
    Untried,
    /// The world has taken it, and the journal hasn't.
    Refused(AppendRefusal),
}

// The world goes first: after a failed append it is known that the entry leads to one.
pub(crate) fn append_entry<D: Disk>(
    alloc: Global,
    journal: &mut Journal<D>,
    world: &mut World,
    entry: Entry,
) -> Result<(), Unappended>
    requires valid { IsEntry entry }
    requires begun { (before : Known) × IsBegun before entry world.old }
    requires room { world.old.entries < 2 ^ 64 - 1 }
    requires at_end { IsAtEnd ⟦<D as Disk>⟧ journal.old }
    ensures { Adds ⟦<D as Disk>⟧ entry journal.old journal.new world.old world.new result }
{
    let bytes = match encode(alloc, &entry) {
        Err(_) => return Err(Unappended::Untried),
        Ok(bytes) => bytes,
    };
    match world.take(entry) {
        Err(_) => return Err(Unappended::Untried),
        Ok(()) => {}
    }
    match journal.append(bytes.as_slice()) {
        Err(refusal) => Err(Unappended::Refused(refusal)),
        Ok(_) => Ok(()),
    }
}

impl<D: Disk> Engine<D> {
    // Appends an entry that changes nothing of the graph.
    pub(crate) fn append(&mut self, entry: Entry) -> Result<(), AppendRefusal>
        requires ready { self.old.ready ≡ true }
        requires valid { IsEntry entry }
        requires begun { IsBegun self.old.world entry self.old.world }
        ensures { Attempts ⟦<D as Disk>⟧ (IsJust self.old.world entry) self.old self.new
            (append_outcome result) }
    {
        match append_entry(self.alloc, &mut self.journal, &mut self.world, entry) {
            Ok(()) => {
                self.seq = self.world.entries();
                Ok(())
            }
            Err(Unappended::Untried) => Err(AppendRefusal::NoMemory),
            Err(Unappended::Refused(refusal)) => {
                self.ready = false;
                Err(refusal)
            }
        }
    }
}
