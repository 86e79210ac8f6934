// A real file as a disk. It tells nothing, and keeps no model that a proof knows.
ghost use Rattle.std.specs.Prelude.{◌≤◌, IfOk, length};

use bl_outside::{Disk, Outside, Text, counted};
use std::alloc::Global;
use std::fs::{File, Files, OpenFile, OpenOptions, create_dir_all, metadata};
use std::io::{ErrorKind, Read, Seek, SeekFrom};
use std::os::unix::fs::FileExt;
use std::path::Path;

/// One file of a store. Where it couldn't be opened, each of its calls fails.
#[derive(Drop)]
pub struct FileDisk {
    alloc: Global,
    file: Option<File>,
    faults: u64,
}

/// Up to so many bytes a place is read without asking for the size of the file.
const SMALL_READ: u32 = 65_536;

// Syncs a folder, which keeps the names of what lies in it. The empty path is where the program
// runs.
fn sync_folder<R: Files>(system: &R, folder: &str) -> Option<()> {
    let path = if folder.is_empty() { "." } else { folder };
    File::open(system, path).ok()?.sync_all().ok()
}

// How many folders of a path are missing, from its end on.
fn count_missing<R: Files>(system: &R, path: &str) -> usize {
    let mut count: usize = 0;
    for folder in Path::new(path).ancestors() {
        if metadata(system, folder).is_ok() {
            break;
        }
        count = count.saturating_add(1);
    }
    count
}

// Makes the store where it is missing, and syncs each folder in which a name is new.
fn make_store<R: Files>(system: &R, store: &str) -> Option<()> {
    let missing = count_missing(system, store);
    create_dir_all(system, store).ok()?;
    for folder in Path::new(store).ancestors().skip(1).take(missing) {
        sync_folder(system, folder.as_os_str())?;
    }
    Some(())
}

// Makes the store where it is missing, and opens the file.
fn open_in<R: Files<File = File>>(system: &R, store: &str, path: &str) -> Option<File> {
    make_store(system, store)?;
    let file = OpenOptions::new()
        .read(true)
        .write(true)
        .create(true)
        .open(system, path)
        .ok()?;
    sync_folder(system, store)?;
    Some(file)
}

impl FileDisk {
    /// Opens a file of the store, both made where they are missing.
    pub fn open<R: Files<File = File>>(
        system: &R,
        alloc: Global,
        store: &str,
        path: &str,
    ) -> FileDisk {
        FileDisk {
            alloc,
            file: open_in(system, store, path),
            faults: 0,
        }
    }

    /// The same of a file that nobody else has locked. It is locked then, until the disk is let go.
    pub fn open_locked<R: Files<File = File>>(
        system: &R,
        alloc: Global,
        store: &str,
        path: &str,
    ) -> FileDisk {
        FileDisk {
            alloc,
            file: open_in(system, store, path).and_then(locked),
            faults: 0,
        }
    }

    /// A file that isn't opened.
    pub fn closed(alloc: Global) -> FileDisk {
        FileDisk {
            alloc,
            file: None,
            faults: 0,
        }
    }

    /// Whether it could be opened.
    pub fn is_open(&self) -> bool {
        self.file.is_some()
    }
}

fn locked(file: File) -> Option<File> {
    match file.try_lock() {
        Ok(()) => Some(file),
        Err(_) => None,
    }
}

/// Fills the room as far as the reader goes: how many bytes there were. A read that is interrupted is
/// made again.
pub fn fill<F: Read>(file: &mut F, room: &mut [u8]) -> Result<usize, Outside>
    ensures { IfOk result (λ n. n ≤ length room.old) }
{
    let mut filled = 0;
    for _ in 0..u64::MAX {
        if filled == room.len() {
            break;
        }
        match file.read(&mut room[filled..]) {
            Ok(0) => break,
            Ok(n) => filled += n,
            Err(e) if e.kind() == ErrorKind::Interrupted => {}
            Err(_) => return Err(Outside::Failed),
        }
    }
    Ok(filled)
}

// Up to so many bytes from the place on. The room is no larger than what the file has there.
pub fn read_part<F: Read + Seek + OpenFile>(
    alloc: Global,
    file: &mut F,
    at: u64,
    most: u32,
) -> Result<Text, Outside>
    ensures { IfOk result (λ bytes. length bytes ≤ most) }
{
    let count = size_of(file)?.saturating_sub(at).min(most as u64);
    let mut bytes = Vec::new(alloc);
    if bytes.resize(count as usize, 0).is_err() {
        return Err(Outside::NoMemory);
    }
    if file.seek(SeekFrom::Start(at)).is_err() {
        return Err(Outside::Failed);
    }
    let filled = fill(file, &mut bytes)?;
    bytes.truncate(filled);
    Ok(Text::from_vec(bytes))
}

impl Disk for FileDisk {
    ghost use Rattle.std.specs.Prelude.{None};

    ghost seen = { λ _. None };

    ghost honest = { λ _. ⊥ };

    ghost may_leave = { λ _ c. ⊥ };

    ghost moment = { λ _. 0 };

    ghost left_since = { λ _ t c. ⊥ };

    ghost faults = { λ d. d.faults };

    ghost counts_now = { λ d t c le left. left };

    ghost only_now = { λ d c left. left };

    ghost seen_is_image = { λ d c honest seen. honest };

    fn size(&mut self) -> Result<u64, Outside> {
        let answer = match &self.file {
            Some(file) => size_of(file),
            None => Err(Outside::Failed),
        };
        counted(&mut self.faults, answer)
    }

    fn read_at(&mut self, at: u64, most: u32) -> Result<Text, Outside> {
        let answer = match &self.file {
            Some(file) => read_place(self.alloc, file, at, most),
            None => Err(Outside::Failed),
        };
        counted(&mut self.faults, answer)
    }

    fn write_at(&mut self, at: u64, bytes: &[u8]) -> Result<(), Outside> {
        let answer = match &self.file {
            Some(file) => write_place(file, at, bytes),
            None => Err(Outside::Failed),
        };
        counted(&mut self.faults, answer)
    }

    fn sync(&mut self) -> Result<(), Outside> {
        let answer = match &self.file {
            Some(file) => sync_file(file),
            None => Err(Outside::Failed),
        };
        counted(&mut self.faults, answer)
    }
}

fn size_of<F: OpenFile>(file: &F) -> Result<u64, Outside> {
    match file.metadata() {
        Ok(data) => Ok(data.len()),
        Err(_) => Err(Outside::Failed),
    }
}

// How many bytes to make room for: no more than the file has, where many are asked for.
fn room_for<F: OpenFile>(file: &F, at: u64, most: u32) -> Result<u32, Outside>
    ensures { IfOk result (λ n. n ≤ most) }
{
    if most <= SMALL_READ {
        return Ok(most);
    }
    let left = size_of(file)?.saturating_sub(at);
    Ok(left.min(most as u64) as u32)
}

// Fills the room with the bytes from the place on, as far as the file goes.
pub fn fill_at<F: FileExt>(file: &F, room: &mut [u8], at: u64) -> Result<usize, Outside>
    ensures { IfOk result (λ n. n ≤ length room.old) }
{
    let mut filled = 0;
    for _ in 0..u64::MAX {
        if filled == room.len() {
            break;
        }
        match file.read_at(&mut room[filled..], at.wrapping_add(filled as u64)) {
            Ok(0) => break,
            Ok(n) => filled += n,
            Err(e) if e.kind() == ErrorKind::Interrupted => {}
            Err(_) => return Err(Outside::Failed),
        }
    }
    Ok(filled)
}

// Up to so many bytes from the place on. Mostly this is one call of the system.
fn read_place<F: FileExt + OpenFile>(
    alloc: Global,
    file: &F,
    at: u64,
    most: u32,
) -> Result<Text, Outside>
    ensures { IfOk result (λ bytes. length bytes ≤ most) }
{
    let count = room_for(file, at, most)?;
    let mut bytes = Vec::new(alloc);
    if bytes.resize(count as usize, 0).is_err() {
        return Err(Outside::NoMemory);
    }
    let filled = fill_at(file, &mut bytes, at)?;
    bytes.truncate(filled);
    Ok(Text::from_vec(bytes))
}

// Mostly this is one call of the system.
fn write_place<F: FileExt>(file: &F, at: u64, bytes: &[u8]) -> Result<(), Outside> {
    match file.write_all_at(bytes, at) {
        Ok(()) => Ok(()),
        Err(_) => Err(Outside::Failed),
    }
}

fn sync_file<F: OpenFile>(file: &F) -> Result<(), Outside> {
    match file.sync_all() {
        Ok(()) => Ok(()),
        Err(_) => Err(Outside::Failed),
    }
}
