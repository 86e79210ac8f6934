// A file that goes on.
ghost use Rattle.std.specs.Prelude.{◌≡◌, ◌≤◌, [], ◌∷◌, false, List as Items, IfOk, Some};
ghost use Rattle.std.specs.Str.{IsUtf8};
ghost use Rattle.bl_outside.specs.Counts.{Rose};
ghost use Rattle.bl_outside.specs.Folders.{Files};
ghost use Rattle.bl_rows.specs.Contents.{Fields, contents};
ghost use Rattle.bl_rows.specs.File.{IsSmall};
ghost use Rattle.bl_rows.specs.RowReaders.{Stands};
ghost use Rattle.bl_chain.specs.Tables.{is_unread};
ghost use Rattle.bl_header.specs.Headers.{IsMeaning};
ghost use Rattle.bl_value.specs.ValidColumns.{IsColumns};
ghost use Rattle.bl_load.specs.Resuming.{IsFault, IsNoFile, IsSomeResumed, OpensFile, Resumes, ResumesContent, Skips};

use crate::content::{Content, content_of, is_kind, is_same};
use crate::open_file::OpenFile;
use crate::source_file::{file_path, is_compressed, read_source};
use bl_files::Feed;
use bl_outside::{Folder, List, NoMemory, Text};
use bl_rows::{FileBytes, FileRefusal, RowReader, start};
use bl_value::{Columns, Side};
use std::alloc::Global;

/// What a file is to the feed that was begun with it.
#[derive(Drop)]
pub enum Resumed {
    /// The folder failed.
    Fault,
    /// It isn't the file any more that the feed was begun with.
    Modified,
    /// It has no record.
    Completed,
    /// It stands behind the records that were taken.
    Open(OpenFile),
}

// Takes so many records. False where there are fewer.
fn skip(reader: &mut RowReader, count: u64) -> Result<bool, NoMemory>
    ensures { (all : Items Fields) (left : Items Fields)
        → Stands reader.old all 0 left
        → IfOk result (Skips all left count reader.new) }
{
    for _record in 0..count {
        let Some(_) = reader.next()? else {
            return Ok(false);
        };
    }
    Ok(true)
}

// A file with a header, behind the records that were taken.
fn resume_read(
    alloc: Global,
    source: Text,
    feed: &Feed,
    columns: Columns,
    mut reader: RowReader,
) -> Result<Resumed, NoMemory>
    requires { IsColumns columns }
    ensures resumes { (header : Fields) (records : Items Fields)
        → Stands reader (header ∷ records) 0 records
        → IsMeaning header columns
        → IfOk result (ResumesContent (header ∷ records) feed.now) }
    ensures file { IfOk result (OpensFile source feed.now.name) }
{
    if !is_kind(columns.side, feed.kind) {
        return Ok(Resumed::Modified);
    }
    if !skip(&mut reader, feed.taken)? {
        return Ok(Resumed::Modified);
    }
    if !is_same(&reader.digest(), &feed.digest) {
        return Ok(Resumed::Modified);
    }
    Ok(Resumed::Open(OpenFile {
        source,
        name: feed.name.copy(alloc)?,
        columns,
        reader,
        taken: feed.taken,
        digest: feed.digest,
        rows: List::new(alloc),
        sizes: List::new(alloc),
    }))
}

// A file without any record, of which none was taken.
fn resume_empty(reader: &RowReader, feed: &Feed) -> Resumed
    ensures resumes { Stands reader.now [] 0 [] → ResumesContent [] feed.now result }
    ensures file { IsNoFile result }
{
    if !is_kind(Side::Vertex, feed.kind) {
        return Resumed::Modified;
    }
    if feed.taken != 0 {
        return Resumed::Modified;
    }
    if !is_same(&reader.digest(), &feed.digest) {
        return Resumed::Modified;
    }
    Resumed::Completed
}

// What a file with these bytes is to the feed.
fn resume_bytes(
    alloc: Global,
    source: Text,
    feed: &Feed,
    file: FileBytes,
) -> Result<Resumed, NoMemory>
    requires small { IsSmall file.bytes }
    requires read { is_unread feed.now.kind ≡ false }
    ensures resumes { IfOk result (ResumesContent (contents file.bytes) feed.now) }
    ensures file { IfOk result (OpensFile source feed.now.name) }
    ensures some { IfOk result (IsSomeResumed feed.now) }
{
    let reader = start(alloc, file)?;
    match content_of(alloc, &reader)? {
        Content::Empty => Ok(resume_empty(&reader, feed)),
        Content::Refused(_) => Ok(Resumed::Modified),
        Content::Read(columns) => resume_read(alloc, source, feed, columns, reader),
    }
}

/// What the file of the feed's name at the source is to it.
pub fn resume<F: Folder>(
    alloc: Global,
    folder: &mut F,
    source: Text,
    feed: &Feed,
) -> Result<Resumed, NoMemory>
    requires source { IsUtf8 source }
    requires read { is_unread feed.now.kind ≡ false }
    ensures resumes { (files : Files)
        → F.files folder.old ≡ Some files
        → IfOk result (Resumes files source feed.now) }
    ensures some { IfOk result (IsSomeResumed feed.now) }
    ensures files { F.files folder.new ≡ F.files folder.old }
    ensures later { F.faults folder.old ≤ F.faults folder.new }
    ensures fault { IfOk result (λ resumed. IsFault resumed
        → Rose (F.faults folder.old) (F.faults folder.new)) }
{
    let path = file_path(alloc, &source, &feed.name)?;
    if is_compressed(path.as_slice()) {
        return Ok(Resumed::Modified);
    }
    match read_source(alloc, folder, &source, &feed.name) {
        Ok(file) => resume_bytes(alloc, source, feed, file),
        Err(FileRefusal::Missing | FileRefusal::TooLarge) => Ok(Resumed::Modified),
        Err(FileRefusal::ReadFault) => Ok(Resumed::Fault),
        Err(FileRefusal::NoMemory) => Err(NoMemory),
    }
}
