// Rows taken by an engine over a store in memory, and the store opened again.
ghost use Rattle.std.specs.Prelude.{◌≡◌, ◌≤◌, ◌<◌, [], ℕ, true, IfSome};
ghost use Rattle.bl_outside.specs.MemoryDisks.{record_seen};
ghost use Rattle.bl_bench.specs.Committing.{IsLoadOf, Keeps, entries_of};

use crate::loaded::Loaded;
use crate::loading::load;
use bl_engine::Engine;
use bl_outside::{Disks, Faults, MemoryDisk, Steps, Text};
use std::alloc::Global;
use std::marker::Brand;
use std::sync::ledger::{Blank, Ledger};

// The disks that a load left, and what was found of them.
#[derive(Drop)]
struct Stored {
    loaded: Loaded,
    disks: Disks<MemoryDisk>,
}

fn disk(alloc: Global) -> Option<MemoryDisk>
    ensures { IfSome result (λ disk. record_seen disk ≡ []) }
{
    let Ok(disk) = MemoryDisk::new(alloc, Text::new(alloc), Faults::none(alloc)) else {
        return None;
    };
    Some(disk)
}

fn no_store(alloc: Global) -> Option<Disks<MemoryDisk>>
    ensures { IfSome result (λ disks. record_seen disks.journal ≡ []) }
{
    let journal = disk(alloc)?;
    let left = disk(alloc)?;
    let right = disk(alloc)?;
    Some(Disks {
        journal,
        left,
        right,
    })
}

// The engine of a store, with a counter of its own.
fn opened<L: Ledger>(
    alloc: Global,
    disks: Disks<MemoryDisk>,
    blank: Blank,
) -> Option<Engine<MemoryDisk>>
    requires name { blank.name ≡ L.name }
    requires parts { blank.parts ≡ L.parts }
    requires some { 0 < blank.parts }
    ensures ready { IfSome result (λ engine. engine.ready ≡ true) }
    ensures empty { record_seen disks.journal ≡ []
        → IfSome result (λ engine. engine.world.entries ≡ 0) }
    ensures kept { (entries : ℕ) → Keeps disks.journal entries
        → IfSome result (λ engine. engine.world.entries ≡ entries) }
{
    let mut steps = Steps::<L>::new(blank);
    let Ok(engine) = Engine::open_counted(alloc, 0, disks, &mut steps) else {
        return None;
    };
    Some(engine)
}

// An empty store, into which so many rows are loaded.
fn filled(alloc: Global, rows: u32) -> Option<Stored>
    requires { 2 ≤ rows }
    ensures load { IfSome result (λ stored. IsLoadOf rows stored.loaded) }
    ensures keeps { IfSome result (λ stored. Keeps stored.disks.journal (entries_of rows)) }
{
    let disks = no_store(alloc)?;
    let mut engine = opened::<Brand>(alloc, disks, Blank::new(1))?;
    load(alloc, &mut engine, rows)?;
    let loaded = Loaded::of(&mut engine, rows)?;
    let disks = engine.into_disks();
    Some(Stored { loaded, disks })
}

// Two at least.
fn checked(rows: u64) -> Option<u32>
    ensures { IfSome result (λ checked. (checked ≡ rows) × (2 ≤ checked)) }
{
    let rows = u32::try_from(rows).ok()?;
    if rows < 2 { None } else { Some(rows) }
}

/// Makes so many rows, two at least, and has them taken by an engine over an empty store.
pub fn commit(alloc: Global, rows: u64) -> Option<Loaded>
    ensures { IfSome result (IsLoadOf rows) }
{
    let rows = checked(rows)?;
    let stored = filled(alloc, rows)?;
    Some(stored.loaded)
}

/// The same, and then the store is opened again: what it has then.
pub fn reopen(alloc: Global, rows: u64) -> Option<Loaded>
    ensures { IfSome result (IsLoadOf rows) }
{
    let rows = checked(rows)?;
    let stored = filled(alloc, rows)?;
    let mut engine = opened::<Brand>(alloc, stored.disks, Blank::new(1))?;
    Loaded::of(&mut engine, rows)
}
