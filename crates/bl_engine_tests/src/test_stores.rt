// Stores over disks in memory.
ghost use Rattle.std.specs.Prelude.{◌≡◌, ◌<◌};

use bl_engine::{Engine, Trouble};
use bl_outside::{Disk, Disks, Faults, Fill, List, MemoryDisk, NoMemory, Steps, Text};
use std::alloc::Global;
use std::marker::Brand;
use std::sync::ledger::{Blank, Ledger};

fn disk(alloc: Global, bytes: &[u8], plan: Faults) -> Result<MemoryDisk, NoMemory> {
    MemoryDisk::new(alloc, Text::copy_of(alloc, bytes)?, plan)
}

/// A store whose journal has these bytes, and fails so.
pub fn disks(alloc: Global, bytes: &[u8], plan: Faults) -> Result<Disks<MemoryDisk>, NoMemory> {
    Ok(Disks {
        journal: disk(alloc, bytes, plan)?,
        left: disk(alloc, b"", Faults::none(alloc))?,
        right: disk(alloc, b"", Faults::none(alloc))?,
    })
}

/// The device call of this number fails.
pub fn fails_at(alloc: Global, call: u64) -> Option<Faults> {
    let mut fails = List::new(alloc);
    fails.push(call).ok()?;
    Some(Faults::of(fails, 0))
}

/// Each device call from this one on fails.
pub fn fails_from(alloc: Global, call: u64) -> Faults {
    Faults::of(List::new(alloc), call)
}

fn opened<D: Disk + Drop, L: Ledger>(
    alloc: Global,
    disks: Disks<D>,
    blank: Blank,
) -> Result<Engine<D>, Trouble>
    requires name { blank.name ≡ L.name }
    requires parts { blank.parts ≡ L.parts }
    requires some { 0 < blank.parts }
{
    let mut steps = Steps::<L>::new(blank);
    match Engine::open_counted(alloc, 0, disks, &mut steps) {
        Ok(engine) => Ok(engine),
        Err((trouble, _)) => Err(trouble),
    }
}

pub fn open<D: Disk + Drop>(alloc: Global, disks: Disks<D>) -> Result<Engine<D>, Trouble> {
    opened::<D, Brand>(alloc, disks, Blank::new(1))
}

/// An engine over an empty store, whose device calls fail so.
pub fn new_engine(alloc: Global, plan: Faults) -> Option<Engine<MemoryDisk>> {
    let disks = disks(alloc, b"", plan).ok()?;
    open(alloc, disks).ok()
}

/// How many entries the store has.
pub fn entries_of<D: Disk + Drop>(alloc: Global, disks: Disks<D>) -> Result<u64, Trouble> {
    let engine = open(alloc, disks)?;
    Ok(engine.seq())
}

/// The machine stops, and the store is opened again: how many entries it has.
pub fn stop(alloc: Global, engine: Engine<MemoryDisk>, fill: Fill) -> Option<u64> {
    let disks = engine.into_disks();
    let stopped = Disks {
        journal: disks.journal.stopped(fill).ok()?,
        left: disks.left,
        right: disks.right,
    };
    entries_of(alloc, stopped).ok()
}
