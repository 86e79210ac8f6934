// A real folder. It tells no content.
ghost use Rattle.std.specs.Prelude.{◌≡◌, ◌≢◌, ◌<◌, [], IfOk, OnOk};
ghost use Rattle.std.specs.Str.{IsUtf8};
ghost use Rattle.bl_outside.specs.Folders.{ListsNames, AreNames, IsPiece};
ghost use Rattle.bl_outside.specs.Texts.{IsShortText};

use crate::file_disk::read_part;
use bl_outside::{Folder, List, Listing, Outside, Piece, Text, counted};
use std::alloc::{AllocError, Global};
use std::collections::BTreeSet;
use std::fs::{File, Files, metadata, read_dir};
use std::io::{Error, ErrorKind};

/// The files below a root.
#[derive(Drop)]
pub struct RealFolder<R: Files + AllocGlobal + Clone + Drop> {
    system: R,
    root: String,
    faults: u64,
}

impl<R: Files + AllocGlobal + Clone + Drop> RealFolder<R> {
    pub fn new(system: R, root: String) -> RealFolder<R> {
        RealFolder {
            system,
            root,
            faults: 0,
        }
    }
}

#[derive(Clone, Copy, PartialEq, Eq)]
enum Kind {
    Missing,
    File,
    Folder,
    Other,
}

fn refusal(error: &Error) -> Outside {
    if error.kind() == ErrorKind::OutOfMemory {
        Outside::NoMemory
    } else {
        Outside::Failed
    }
}

// What lies at a path of the system.
fn kind_at(system: &impl Files, path: &str) -> Result<Kind, Outside> {
    match metadata(system, path) {
        Ok(data) if data.is_file() => Ok(Kind::File),
        Ok(data) if data.is_dir() => Ok(Kind::Folder),
        Ok(_) => Ok(Kind::Other),
        Err(e) if e.kind() == ErrorKind::NotFound => Ok(Kind::Missing),
        Err(e) if e.kind() == ErrorKind::NotADirectory => Ok(Kind::Missing),
        Err(e) => Err(refusal(&e)),
    }
}

// The path of the system for a path below the root.
fn below(alloc: Global, root: &str, path: &Text) -> Result<String, Outside>
    requires { IsUtf8 path.now }
{
    let Ok(path) = str::from_utf8(path.as_slice()) else {
        unreachable!();
    };
    match joined(alloc, root, path) {
        Ok(full) => Ok(full),
        Err(_) => Err(Outside::NoMemory),
    }
}

fn joined(alloc: Global, root: &str, path: &str) -> Result<String, AllocError> {
    let mut full = String::from_str(alloc, root)?;
    full.push('/')?;
    full.push_str(path)?;
    Ok(full)
}

// The names of the files that lie directly in a folder. Folders and what is neither are passed
// over.
fn names_at<R: Files + AllocGlobal + Clone + Drop>(
    system: &R,
    path: &str,
) -> Result<BTreeSet<Text>, Outside> {
    let alloc = system.alloc();
    let entries = match read_dir(system, path) {
        Ok(entries) => entries,
        Err(e) => return Err(refusal(&e)),
    };
    let mut names = BTreeSet::new(alloc);
    for entry in entries {
        let entry = match entry {
            Ok(entry) => entry,
            Err(e) => return Err(refusal(&e)),
        };
        if let Kind::File = kind_at(system, entry.path().as_str())? {
            let name = Text::copy_of(alloc, entry.file_name().as_bytes())?;
            if names.insert(name).is_err() {
                return Err(Outside::NoMemory);
            }
        }
    }
    Ok(names)
}

// A copy of a text that can be the name of a file.
fn name_of(alloc: Global, text: &Text) -> Result<Text, Outside>
    ensures same { IfOk result (λ name. name ≡ text.now) }
    ensures text { OnOk result (IsShortText text.now) }
    ensures named { OnOk result (text.now ≢ []) }
{
    let bytes = text.as_slice();
    if bytes.is_empty() || bytes.len() > 4_294_967_295 || str::from_utf8(bytes).is_err() {
        return Err(Outside::Failed);
    }
    Ok(text.copy(alloc)?)
}

// The names as a list, where each can be one.
fn proper(alloc: Global, names: &BTreeSet<Text>) -> Result<List<Text>, Outside>
    ensures { IfOk result AreNames }
{
    let mut list = List::new(alloc);
    for name in names.iter() {
        list.push(name_of(alloc, name)?)?;
    }
    Ok(list)
}

// What lies at a path below the root. The root itself must be a folder.
fn listing_at<R: Files + AllocGlobal + Clone + Drop>(
    system: &R,
    root: &str,
    path: &Text,
) -> Result<Listing, Outside>
    requires { IsUtf8 path.now }
    ensures { IfOk result ListsNames }
{
    let alloc = system.alloc();
    let Kind::Folder = kind_at(system, root)? else {
        return Err(Outside::Failed);
    };
    let full = below(alloc, root, path)?;
    match kind_at(system, full.as_str())? {
        Kind::File => Ok(Listing::OneFile),
        Kind::Folder => {
            let names = names_at(system, full.as_str())?;
            Ok(Listing::Names(proper(alloc, &names)?))
        }
        Kind::Missing | Kind::Other => Ok(Listing::Missing),
    }
}

// A part of a file below the root.
fn piece_at<R: Files + AllocGlobal + Clone + Drop>(
    system: &R,
    root: &str,
    path: &Text,
    at: u64,
    most: u32,
) -> Result<Piece, Outside>
    requires path { IsUtf8 path.now }
    requires most { 0 < most }
    ensures { IfOk result (IsPiece most) }
{
    let alloc = system.alloc();
    let full = below(alloc, root, path)?;
    let Kind::File = kind_at(system, full.as_str())? else {
        return Ok(Piece::Missing);
    };
    let mut file = match File::open(system, full.as_str()) {
        Ok(file) => file,
        Err(e) => return Err(refusal(&e)),
    };
    let bytes = read_part(alloc, &mut file, at, most)?;
    if bytes.len() == 0 {
        return Ok(Piece::Ended);
    }
    Ok(Piece::Bytes(bytes))
}

impl<R: Files + AllocGlobal + Clone + Drop> Folder for RealFolder<R> {
    ghost use Rattle.std.specs.Prelude.{None};

    ghost files = { λ _. None };

    ghost faults = { λ f. f.faults };

    fn list(&mut self, path: &Text) -> Result<Listing, Outside> {
        let answer = listing_at(&self.system, self.root.as_str(), path);
        counted(&mut self.faults, answer)
    }

    fn read_at(&mut self, path: &Text, at: u64, most: u32) -> Result<Piece, Outside> {
        let answer = piece_at(&self.system, self.root.as_str(), path, at, most);
        counted(&mut self.faults, answer)
    }
}
