// A loader over a store and a folder in memory.
ghost use Rattle.std.specs.Prelude.{◌≡◌, ◌<◌, IfSome};
ghost use Rattle.bl_entry.specs.Valid.{IsRequest};

use bl_engine::{Engine, Turned};
use bl_files::{LoadRequest, Mode, kept_source};
use bl_load::{Held, TurnFault, turn};
use bl_outside::{
    Disks, Faults, FixedClock, List, MemoryDisk, MemoryFolder, NoMemory, Steps, Text,
};
use bl_workers::OpenGate;
use std::alloc::Global;
use std::marker::Brand;
use std::process::Abort;
use std::sync::ledger::{Blank, Ledger};
use std::thread::Threads;

/// A loader, with the store that it loads into and the folder that it reads.
#[derive(Drop)]
pub struct Loader {
    pub engine: Engine<MemoryDisk>,
    pub folder: MemoryFolder,
    pub held: Held,
}

// ---- the store

fn disk(alloc: Global) -> Result<MemoryDisk, NoMemory> {
    MemoryDisk::new(alloc, Text::new(alloc), Faults::none(alloc))
}

fn store(alloc: Global) -> Result<Disks<MemoryDisk>, NoMemory> {
    Ok(Disks {
        journal: disk(alloc)?,
        left: disk(alloc)?,
        right: disk(alloc)?,
    })
}

fn opened<L: Ledger>(
    alloc: Global,
    disks: Disks<MemoryDisk>,
    blank: Blank,
) -> Option<Engine<MemoryDisk>>
    requires name { blank.name ≡ L.name }
    requires parts { blank.parts ≡ L.parts }
    requires some { 0 < blank.parts }
{
    let mut steps = Steps::<L>::new(blank);
    match Engine::open_counted(alloc, 0, disks, &mut steps) {
        Ok(engine) => Some(engine),
        Err(_) => None,
    }
}

// An engine over an empty store.
fn new_engine(alloc: Global) -> Option<Engine<MemoryDisk>> {
    let disks = store(alloc).ok()?;
    opened::<Brand>(alloc, disks, Blank::new(1))
}

// ---- the folder

/// The files of a folder, by their names.
pub type FileTable = &'static [(&'static str, &'static str)];

/// An empty folder that is read in such pieces. Its call of this number fails, or none for 0.
pub fn folder<R: Abort>(rt: &R, alloc: Global, piece: u32, fails: u64) -> MemoryFolder {
    let mut calls = List::new(alloc);
    calls.push(fails).expect(rt, "memory");
    MemoryFolder::new(alloc, piece, Faults::of(calls, 0))
}

/// Puts a file into the folder of the source.
pub fn put<R: Abort>(rt: &R, alloc: Global, files: &mut MemoryFolder, name: &str, bytes: Text) {
    let mut path = Text::of_str(alloc, "b/f/").expect(rt, "memory");
    path.extend(name.as_bytes()).expect(rt, "memory");
    files.put_file(path, bytes).expect(rt, "memory");
}

/// The same of a table of files.
pub fn put_all<R: Abort>(rt: &R, alloc: Global, files: &mut MemoryFolder, table: FileTable) {
    for (name, bytes) in table {
        let bytes = Text::of_str(alloc, bytes).expect(rt, "memory");
        put(rt, alloc, files, name, bytes);
    }
}

// ---- loaders

/// A loader over an empty store.
pub fn loader_over<R: Abort>(rt: &R, alloc: Global, folder: MemoryFolder) -> Loader {
    let engine = new_engine(alloc).expect(rt, "a store");
    Loader {
        engine,
        folder,
        held: Held::none(),
    }
}

/// A loader of these files, of which the folder's call of this number fails, or none for 0.
pub fn loader_of<R: Abort>(rt: &R, alloc: Global, table: FileTable, fails: u64) -> Loader {
    let mut files = folder(rt, alloc, 65_536, fails);
    put_all(rt, alloc, &mut files, table);
    loader_over(rt, alloc, files)
}

/// A loader of a.csv, which was made, and of these files.
pub fn loader_with<R: Abort>(rt: &R, alloc: Global, bytes: Text, table: FileTable) -> Loader {
    let mut files = folder(rt, alloc, 65_536, 0);
    put_all(rt, alloc, &mut files, table);
    put(rt, alloc, &mut files, "a.csv", bytes);
    loader_over(rt, alloc, files)
}

/// Lets a loader go. It has many parts, so each test hands it on to this one function.
pub fn end(_loader: Loader) {}

// ---- loads

fn request(alloc: Global, mode: Mode, fail_on_error: bool) -> Option<LoadRequest>
    ensures { IfSome result IsRequest }
{
    let Ok(Some(source)) = kept_source(alloc, b"s3://b/f") else {
        return None;
    };
    Some(LoadRequest {
        source,
        format: 0,
        mode,
        fail_on_error,
        update_single: false,
        parallelism: 3,
        queue: true,
        dependencies: List::new(alloc),
    })
}

/// A load of the folder is taken on. It stops at an error, or not.
pub fn submit<R: Abort>(rt: &R, alloc: Global, loader: &mut Loader, mode: Mode, stops: bool) {
    let request = request(alloc, mode, stops).expect(rt, "memory");
    let mut clock = FixedClock::new(0);
    let taken = loader.engine.submit(&mut clock, 0, request).is_ok();
    assert!(rt; taken);
}

/// The id of the load of this number (RFC 9562, version 4).
pub fn id(number: u32) -> u128 {
    0x0000_0000_0000_4000_8000_0000_0000_0000 | number as u128
}

/// The load of this number is cancelled.
pub fn cancel<R: Abort>(rt: &R, loader: &mut Loader, number: u32) {
    let mut clock = FixedClock::new(0);
    let cancelled = loader.engine.cancel(&mut clock, id(number)).is_ok();
    assert!(rt; cancelled, "{number}");
}

/// Makes one turn.
pub fn one_turn<R: Threads + Sync>(
    rt: &R,
    alloc: Global,
    loader: &mut Loader,
) -> Result<Turned, TurnFault> {
    let mut clock = FixedClock::new(0);
    turn(
        rt,
        alloc,
        &mut loader.engine,
        &mut loader.folder,
        &mut clock,
        &mut loader.held,
        &OpenGate,
    )
}
