// A file is found.
ghost use Rattle.std.specs.Prelude.{◌≡◌, ◌≤◌, [], Some, IsSome, IfOk, IfSome, IfNone};
ghost use Rattle.std.specs.Str.{IsUtf8};
ghost use Rattle.std.specs.FinMap.{get};
ghost use Rattle.bl_outside.specs.Counts.{Rose};
ghost use Rattle.bl_outside.specs.Folders.{Files};
ghost use Rattle.bl_outside.specs.Texts.{IsShortText};
ghost use Rattle.bl_rows.specs.Contents.{contents};
ghost use Rattle.bl_rows.specs.Digests.{header_digest};
ghost use Rattle.bl_rows.specs.File.{IsSmall};
ghost use Rattle.bl_files.specs.Carried.{HasKept};
ghost use Rattle.bl_chain.specs.Folders.{digest_of};
ghost use Rattle.bl_load.specs.SourceFiles.{file_path};
ghost use Rattle.bl_load.specs.Finding.{
  AreEnded,
  Finds,
  IsContentFound,
  IsFindingFault,
  IsKeptAs,
  MayBeFinding,
  MayBeListed,
};

use crate::content::content_of;
use crate::source_file::{file_path, is_compressed};
use bl_files::{Feed, FeedKind, Found};
use bl_outside::{Digest, Folder, List, NoMemory, Text};
use bl_rows::{FileBytes, FileRefusal, digest_of_none, read_file, start};
use bl_value::LogCode;
use std::alloc::Global;

/// What is found of a file that was listed.
#[derive(Debug, Drop)]
pub enum Finding {
    Found(Found),
    /// It isn't there any more.
    Gone,
    /// The folder failed.
    Fault,
}

/// The kind and the digest of a previous feed.
#[derive(Clone, Copy, Debug)]
pub struct Kept {
    pub kind: FeedKind,
    pub digest: Digest,
}

// What is kept of the feed of this name.
fn kept_as(previous: &List<Feed>, name: &Text) -> Option<Kept>
    requires { AreEnded previous.now }
    ensures kept { IfSome result (IsKeptAs previous.now name.now) }
    ensures none { IfNone result (¬ HasKept previous.now name.now) }
{
    for feed in previous.as_slice() {
        if feed.is_kept() && feed.name == *name {
            return Some(Kept {
                kind: feed.kind,
                digest: feed.digest,
            });
        }
    }
    None
}

// A file that isn't read.
fn refused(alloc: Global, name: &Text, code: LogCode) -> Result<Found, NoMemory>
    ensures { IfOk result (λ file. (file.name ≡ name.now)
        × (file.kind ≡ FeedKind.Refused code 0)
        × (file.digest ≡ digest_of (header_digest []))) }
{
    Ok(Found {
        name: name.copy(alloc)?,
        kind: FeedKind::Refused(code, 0),
        digest: digest_of_none(),
    })
}

// The file of this name, by its bytes.
fn found_in(alloc: Global, name: &Text, file: FileBytes) -> Result<Found, NoMemory>
    requires { IsSmall file.bytes }
    ensures found { IfOk result (IsContentFound name.now (contents file.bytes)) }
    ensures listed { IsShortText name.now → IfOk result (MayBeListed name.now) }
{
    let reader = start(alloc, file)?;
    let kind = content_of(alloc, &reader)?.kind();
    Ok(Found {
        name: name.copy(alloc)?,
        kind,
        digest: reader.digest(),
    })
}

/// What is found of the file of this name, for a load that goes on with these feeds. A file whose
/// feed is kept isn't read, nor is one that is compressed.
pub fn find<F: Folder>(
    alloc: Global,
    folder: &mut F,
    source: &Text,
    name: &Text,
    previous: &List<Feed>,
) -> Result<Finding, NoMemory>
    requires source { IsUtf8 source.now }
    requires name { IsShortText name.now }
    requires previous { AreEnded previous.now }
    ensures told { (files : Files) → F.files folder.old ≡ Some files
        → IsSome (get files (file_path source.now name.now))
        → IfOk result (Finds files source.now previous.now name.now) }
    ensures listed { IfOk result (MayBeFinding name.now) }
    ensures files { F.files folder.new ≡ F.files folder.old }
    ensures later { F.faults folder.old ≤ F.faults folder.new }
    ensures fault { IfOk result (λ found. IsFindingFault found
        → Rose (F.faults folder.old) (F.faults folder.new)) }
{
    if let Some(kept) = kept_as(previous, name) {
        return Ok(Finding::Found(Found {
            name: name.copy(alloc)?,
            kind: kept.kind,
            digest: kept.digest,
        }));
    }
    let path = file_path(alloc, source, name)?;
    if is_compressed(path.as_slice()) {
        return Ok(Finding::Found(refused(alloc, name, LogCode::Compressed)?));
    }
    match read_file(alloc, folder, &path) {
        Ok(file) => Ok(Finding::Found(found_in(alloc, name, file)?)),
        Err(FileRefusal::TooLarge) => {
            Ok(Finding::Found(refused(alloc, name, LogCode::FileTooLarge)?))
        }
        Err(FileRefusal::Missing) => Ok(Finding::Gone),
        Err(FileRefusal::ReadFault) => Ok(Finding::Fault),
        Err(FileRefusal::NoMemory) => Err(NoMemory),
    }
}
