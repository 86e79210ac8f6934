// A load over an engine.
ghost use Rattle.std.specs.Prelude.{◌≡◌, true};
ghost use Rattle.bl_entry.specs.Valid.{IsRequest};
ghost use Rattle.bl_world.specs.Works.{work_of};
ghost use Rattle.bl_world.specs.declared.work.Work.TheVariants as work;
ghost use Rattle.bl_cli.specs.LoadFaults.{MayRefuse, TellsOf};
ghost use Rattle.bl_cli.specs.Loads.{DrainsAll, FindsLoad, Makes, Submits};
ghost use Rattle.bl_cli.specs.Tags.{HasTag};
ghost use Rattle.bl_cli.specs.Words.{IsPlain};

use crate::load_fault::LoadFault;
use bl_engine::{Engine, SubmitRefusal, ViewRefusal};
use bl_files::LoadRequest;
use bl_load::{Held, drain};
use bl_outside::{Clock, Disk, Folder};
use bl_queue::Job;
use bl_workers::OpenGate;
use std::alloc::Global;
use std::thread::Threads;

// Makes turns until nothing is to be done.
fn drain_all<R: Threads + Sync, F: Folder, D: Disk, K: Clock>(
    rt: &R,
    alloc: Global,
    engine: &mut Engine<D>,
    folder: &mut F,
    clock: &mut K,
) -> Result<(), LoadFault>
    requires { engine.old.ready ≡ true }
    ensures drains { DrainsAll ⟦<D as Disk>⟧ (F.files folder.old) engine.old engine.new result }
    ensures files { F.files folder.new ≡ F.files folder.old }
{
    let mut held = Held::none();
    drain(rt, alloc, engine, folder, clock, &mut held, &OpenGate)?;
    Ok(())
}

// Why a load isn't taken on that depends on no other, where none is unended.
fn submit_fault(refusal: SubmitRefusal) -> LoadFault
    requires { MayRefuse refusal }
    ensures { TellsOf refusal result }
{
    match refusal {
        SubmitRefusal::NumbersUsedUp => LoadFault::NumbersUsedUp,
        SubmitRefusal::JournalFull => LoadFault::JournalFull,
        SubmitRefusal::StoreFault => LoadFault::StoreFault,
        SubmitRefusal::BadStore(place) => LoadFault::BadStore(place),
        SubmitRefusal::NoMemory => LoadFault::NoMemory,
        SubmitRefusal::TooManyDependencies
        | SubmitRefusal::UnknownDependency(_)
        | SubmitRefusal::Busy(_)
        | SubmitRefusal::QueueFull => unreachable!(),
    }
}

// Takes a load on, and gives its id.
fn submit_load<D: Disk, K: Clock>(
    engine: &mut Engine<D>,
    clock: &mut K,
    salt: u128,
    request: LoadRequest,
) -> Result<u128, LoadFault>
    requires ready { engine.old.ready ≡ true }
    requires idle { work_of engine.old.world.kept.jobs ≡ work.Idle }
    requires valid { IsRequest request }
    requires plain { IsPlain request }
    ensures { Submits ⟦<D as Disk>⟧ salt request engine.old engine.new result }
{
    // The jobs of a ready engine are as they always are.
    let _ = engine.is_ready();
    match engine.submit(clock, salt, request) {
        Ok(id) => Ok(id),
        Err(refusal) => Err(submit_fault(refusal)),
    }
}

// The job of this id, which is kept.
fn find_load<D: Disk>(engine: &mut Engine<D>, id: u128) -> Result<Job, LoadFault>
    requires ready { engine.old.ready ≡ true }
    requires kept { HasTag engine.old.world.kept.jobs id }
    ensures { FindsLoad ⟦<D as Disk>⟧ id engine.old engine.new result }
{
    match engine.status(id) {
        Ok(job) => Ok(job),
        Err(ViewRefusal::Unknown) => unreachable!(),
        Err(ViewRefusal::StoreFault) => Err(LoadFault::StoreFault),
        Err(ViewRefusal::BadStore(place)) => Err(LoadFault::BadStore(place)),
        Err(ViewRefusal::NoMemory) => Err(LoadFault::NoMemory),
    }
}

/// Ends what is unended, takes a load on and ends it too. The job is that of the load.
pub fn make_load<R: Threads + Sync, F: Folder, D: Disk, K: Clock>(
    rt: &R,
    alloc: Global,
    engine: &mut Engine<D>,
    folder: &mut F,
    clock: &mut K,
    salt: u128,
    request: LoadRequest,
) -> Result<Job, LoadFault>
    requires ready { engine.old.ready ≡ true }
    requires valid { IsRequest request }
    requires plain { IsPlain request }
    ensures makes { Makes ⟦<D as Disk>⟧ (F.files folder.old) salt request engine.old engine.new
        result }
    ensures files { F.files folder.new ≡ F.files folder.old }
{
    drain_all(rt, alloc, engine, folder, clock)?;
    let id = submit_load(engine, clock, salt, request)?;
    drain_all(rt, alloc, engine, folder, clock)?;
    let _ = engine.is_ready();
    find_load(engine, id)
}
