// A turn of the loader.
ghost use Rattle.std.specs.Prelude.{◌≡◌, ◌≤◌, ◌<◌, true, Some, IfOk, IsErrOf, OnOk};
ghost use Rattle.std.specs.Result.{result_err};
ghost use Rattle.bl_outside.specs.Counts.{Rose};
ghost use Rattle.bl_outside.specs.Folders.{Files};
ghost use Rattle.bl_world.specs.States.{State};
ghost use Rattle.bl_world.specs.Works.{task_of, work_of};
ghost use Rattle.bl_engine.specs.Attempts.{Attempts, HasNoRoom};
ghost use Rattle.bl_engine.specs.Calls.{Handles, Looks};
ghost use Rattle.bl_engine.specs.Engines.{Stays};
ghost use Rattle.bl_engine.specs.Findings.{Tells};
ghost use Rattle.bl_load.specs.Committing.{In, IsNothing, PreparedEntry};
ghost use Rattle.bl_load.specs.OpenFiles.{IsFresh};
ghost use Rattle.bl_load.specs.Prepares.{MayCommit};
ghost use Rattle.bl_load.specs.SameJobs.{HasSameJobs};
ghost use Rattle.bl_load.specs.Tasks.{IsTask};
ghost use Rattle.bl_load.specs.TurnFaults.{IsNotStale, fault_of, fault_outcome, trouble_of};
ghost use Rattle.bl_load.specs.Turns.{
  CountsUp,
  DrainsAnyhow,
  DrainsFull,
  DrainsOver,
  IsDrained,
  MayTurn,
  ResumesTo,
  TurnsTo,
};

use crate::{Held, Prepared, TurnFault, commit, prepare};
use bl_engine::{Engine, Trouble, TurnRefusal, Turned};
use bl_outside::{Clock, Disk, Folder};
use bl_workers::Gate;
use bl_world::{Task, Work};
use std::alloc::Global;
use std::thread::Threads;

// How a turn answers a refusal. Its work is still the next, so it isn't stale.
fn fault_of(refusal: TurnRefusal) -> TurnFault
    requires { IsNotStale refusal }
    ensures { result ≡ fault_of refusal }
{
    match refusal {
        TurnRefusal::Stale(_) => unreachable!(),
        TurnRefusal::JournalFull => TurnFault::JournalFull,
        TurnRefusal::StoreFault => TurnFault::StoreFault,
        TurnRefusal::BadStore(place) => TurnFault::BadStore(place),
        TurnRefusal::NoMemory => TurnFault::NoMemory,
    }
}

// What is to be done next. A ready engine's world is one of entries, in which tasks have their parts.
fn next_task<D: Disk>(engine: &mut Engine<D>) -> Result<Task, Trouble>
    ensures task { IfOk result (λ task. task ≡ task_of engine.new.world.kept.jobs) }
    ensures has_parts { IfOk result IsTask }
    ensures ready { OnOk result (engine.new.ready ≡ true) }
    ensures looks { Looks ⟦<D as Disk>⟧ engine.old engine.new (result_err result) }
{
    let task = engine.task()?;
    prove!(engine.is_ready());
    Ok(task)
}

// Commits what was prepared for the next work of an engine that is ready.
fn commit_next<D: Disk, K: Clock>(
    engine: &mut Engine<D>,
    clock: &mut K,
    work: Work,
    prepared: Prepared,
) -> Result<Turned, TurnFault>
    requires ready { engine.old.ready ≡ true }
    requires next { work_of engine.old.world.kept.jobs ≡ work }
    requires may { MayCommit work prepared }
    ensures attempts { ¬ (IsNothing prepared) → Attempts ⟦<D as Disk>⟧
        (In engine.old.world (Tells (PreparedEntry work prepared (K.last clock.new)) result))
        engine.old engine.new (fault_outcome result) }
    ensures same { IsNothing prepared → engine.new ≡ engine.old }
    ensures idle { IsNothing prepared → IfOk result (λ turned. turned ≡ Turned.Idle) }
    ensures room { IsNothing prepared → ¬ (IsErrOf result TurnFault.JournalFull) }
    ensures handles { Handles ⟦<D as Disk>⟧ engine.old engine.new (trouble_of result) }
    ensures counts { OnOk result (engine.new.ready ≡ true
        → engine.new.world.entries < engine.new.journal.place) }
{
    match commit(engine, clock, work, prepared) {
        Ok(turned) => {
            // Each entry takes more than one byte of the journal.
            let _entries = engine.seq();
            Ok(turned)
        }
        Err(refusal) => Err(fault_of(refusal)),
    }
}

/// Makes the next turn: prepares what comes next, and commits it. `held` keeps the file that is
/// being read. Over told files, and a store that this program left:
/// - where the folder didn't fail, it appends the one entry of a turn, or finds no work;
/// - whatever happens, it appends an entry that is made over the files, or nothing;
/// - the journal is full just where the entry of this turn doesn't fit into it;
/// - a crash at any moment leaves loads that come to what one uninterrupted load comes to.
///
/// Over whatever files a crash at any moment leaves the entries that stood, or an entry more.
pub fn turn<R: Threads + Sync, F: Folder, D: Disk, K: Clock, G: Gate>(
    rt: &R,
    alloc: Global,
    engine: &mut Engine<D>,
    folder: &mut F,
    clock: &mut K,
    held: &mut Held,
    gate: &G,
) -> Result<Turned, TurnFault>
    ensures turned { (files : Files) → F.files folder.old ≡ Some files → IsFresh files held.old
        → ¬ Rose (F.faults folder.old) (F.faults folder.new)
        → (state : State) → Stays ⟦<D as Disk>⟧ engine.old state
        → IfOk result (TurnsTo ⟦<D as Disk>⟧ files (K.last clock.new) engine.old engine.new state) }
    ensures made { (files : Files) → F.files folder.old ≡ Some files → IsFresh files held.old
        → (state : State) → Stays ⟦<D as Disk>⟧ engine.old state
        → DrainsOver ⟦<D as Disk>⟧ files engine.old engine.new state }
    ensures anyhow { (state : State) → Stays ⟦<D as Disk>⟧ engine.old state
        → DrainsAnyhow ⟦<D as Disk>⟧ engine.old engine.new state }
    ensures resumes { (files : Files) → F.files folder.old ≡ Some files → IsFresh files held.old
        → (state : State) → Stays ⟦<D as Disk>⟧ engine.old state
        → ResumesTo ⟦<D as Disk>⟧ files engine.old engine.new state }
    ensures fresh { (files : Files) → F.files folder.old ≡ Some files → IsFresh files held.old
        → IsFresh files held.new }
    ensures files { F.files folder.new ≡ F.files folder.old }
    ensures later { F.faults folder.old ≤ F.faults folder.new }
    ensures handles { Handles ⟦<D as Disk>⟧ engine.old engine.new (trouble_of result) }
    ensures full { (files : Files) → F.files folder.old ≡ Some files → IsFresh files held.old
        → (state : State) → Stays ⟦<D as Disk>⟧ engine.old state
        → IsErrOf result TurnFault.JournalFull
        → HasNoRoom ⟦<D as Disk>⟧ (MayTurn files) state engine.new.journal }
    ensures counts { IfOk result (CountsUp engine.old engine.new) }
    ensures keeps { OnOk result (engine.old.ready ≡ true
        → HasSameJobs engine.old.world.kept engine.new.world.kept) }
{
    let task = next_task(engine)?;
    let prepared = prepare(rt, alloc, folder, &task, held, gate)?;
    commit_next(engine, clock, task.work, prepared)
}

/// Makes turns until nothing is to be done, or one isn't made.
pub fn drain<R: Threads + Sync, F: Folder, D: Disk, K: Clock, G: Gate>(
    rt: &R,
    alloc: Global,
    engine: &mut Engine<D>,
    folder: &mut F,
    clock: &mut K,
    held: &mut Held,
    gate: &G,
) -> Result<(), TurnFault>
    ensures idle { OnOk result (IsDrained engine.new) }
    ensures made { (files : Files) → F.files folder.old ≡ Some files → IsFresh files held.old
        → (state : State) → Stays ⟦<D as Disk>⟧ engine.old state
        → DrainsOver ⟦<D as Disk>⟧ files engine.old engine.new state }
    ensures anyhow { (state : State) → Stays ⟦<D as Disk>⟧ engine.old state
        → DrainsAnyhow ⟦<D as Disk>⟧ engine.old engine.new state }
    ensures resumes { (files : Files) → F.files folder.old ≡ Some files → IsFresh files held.old
        → (state : State) → Stays ⟦<D as Disk>⟧ engine.old state
        → ResumesTo ⟦<D as Disk>⟧ files engine.old engine.new state }
    ensures fresh { (files : Files) → F.files folder.old ≡ Some files → IsFresh files held.old
        → IsFresh files held.new }
    ensures files { F.files folder.new ≡ F.files folder.old }
    ensures later { F.faults folder.old ≤ F.faults folder.new }
    ensures handles { Handles ⟦<D as Disk>⟧ engine.old engine.new (trouble_of result) }
    ensures full { (files : Files) → F.files folder.old ≡ Some files → IsFresh files held.old
        → (state : State) → Stays ⟦<D as Disk>⟧ engine.old state
        → IsErrOf result TurnFault.JournalFull
        → DrainsFull ⟦<D as Disk>⟧ files state engine.new }
    ensures keeps { OnOk result (engine.old.ready ≡ true
        → HasSameJobs engine.old.world.kept engine.new.world.kept) }
{
    while turn(rt, alloc, engine, folder, clock, held, gate)? != Turned::Idle {}
    Ok(())
}
