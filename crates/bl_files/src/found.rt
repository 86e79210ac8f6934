// A file that was found.
ghost use Rattle.std.specs.Prelude.{◌≡◌, IfOk};

use crate::FeedKind;
use bl_outside::{Digest, List, NoMemory, Text};
use std::alloc::Global;

/// A file that was found at the source of a load.
#[derive(Debug, Drop)]
pub struct Found {
    /// The file's name in its folder; empty where the source is this one file.
    pub name: Text,
    pub kind: FeedKind,
    /// The digest of its header.
    pub digest: Digest,
}

impl Found {
    /// A copy with memory of its own.
    pub fn copy(&self, alloc: Global) -> Result<Found, NoMemory>
        ensures { IfOk result (λ copy. copy ≡ self.now) }
    {
        Ok(Found {
            name: self.name.copy(alloc)?,
            kind: self.kind,
            digest: self.digest,
        })
    }
}

/// A copy of a list of files.
pub fn copy_found(alloc: Global, found: &List<Found>) -> Result<List<Found>, NoMemory>
    ensures { IfOk result (λ copy. copy ≡ found.now) }
{
    let mut copy = List::with_capacity(alloc, found.len())?;
    for file in found.as_slice() {
        copy.push(file.copy(alloc)?)?;
    }
    Ok(copy)
}
