// Turns behind a reply.
ghost use Rattle.std.specs.Prelude.{◌≡◌, ◌≤◌, Some};
ghost use Rattle.bl_outside.specs.Folders.{Files};
ghost use Rattle.bl_load.specs.OpenFiles.{IsFresh};
ghost use Rattle.bl_script.specs.Turns.{MakesTurns, ends_round};

use bl_engine::{Engine, Turned};
use bl_load::{Held, TurnFault, turn};
use bl_outside::{Clock, Disk, Folder};
use bl_workers::Gate;
use std::alloc::Global;
use std::thread::Threads;

// No turn of a round is made behind one that found no work or was refused.
fn ends_round(made: &Result<Turned, TurnFault>) -> bool
    ensures { result ≡ ends_round made.now }
{
    match made {
        Ok(turned) => match turned {
            Turned::Idle => true,
            Turned::Planned | Turned::Rows(_) | Turned::Ended(_) => false,
        },
        Err(_) => true,
    }
}

/// Makes turns until so many were made, one found no work, or one was refused; and why it was.
pub fn make_turns<R: Threads + Sync, F: Folder, D: Disk, K: Clock, G: Gate>(
    rt: &R,
    alloc: Global,
    engine: &mut Engine<D>,
    folder: &mut F,
    clock: &mut K,
    held: &mut Held,
    gate: &G,
    most: u64,
) -> Option<TurnFault>
    requires fresh { (files : Files) → F.files folder.old ≡ Some files → IsFresh files held.old }
    ensures turns { MakesTurns ⟦<D as Disk>⟧ most (F.files folder.old) engine.old
        (F.faults folder.old) engine.new (F.faults folder.new) result }
    ensures fresh { (files : Files) → F.files folder.new ≡ Some files → IsFresh files held.new }
    ensures files { F.files folder.new ≡ F.files folder.old }
    ensures later { F.faults folder.old ≤ F.faults folder.new }
{
    for _ in 0..most {
        let made = turn(rt, alloc, engine, folder, clock, held, gate);
        if ends_round(&made) {
            return made.err();
        }
    }
    None
}
