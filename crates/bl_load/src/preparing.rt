// What a turn commits is prepared.
ghost use Rattle.std.specs.Prelude.{◌≡◌, ◌≤◌, ◌↔◌, true, false, List as Items, None, Some, IsTrue, IfOk, OnErr};
ghost use Rattle.std.specs.Str.{IsUtf8};
ghost use Rattle.bl_outside.specs.Counts.{Rose};
ghost use Rattle.bl_outside.specs.Folders.{Files};
ghost use Rattle.bl_rows.specs.Contents.{Fields};
ghost use Rattle.bl_chain.specs.Tables.{is_unread};
ghost use Rattle.bl_load.specs.OpenFiles.{IsFresh, IsOpen, IsSomeOpen};
ghost use Rattle.bl_load.specs.Prepares.{
  GoesOnWith,
  IsForFile,
  IsForFileAt,
  MayCommit,
  MayFollow,
  Prepares,
  is_fault,
  is_plan,
};
ghost use Rattle.bl_load.specs.Resuming.{IsAtFeed};
ghost use Rattle.bl_load.specs.Tasks.{IsTask};

use crate::content::{is_kind, is_same};
use crate::held::Held;
use crate::open_file::OpenFile;
use crate::planning::plan;
use crate::prepared::Prepared;
use crate::resuming::{Resumed, resume};
use bl_files::{Feed, FeedEnd, path_of};
use bl_outside::{Folder, NoMemory, Text};
use bl_workers::Gate;
use bl_world::{Task, Work};
use std::alloc::Global;
use std::thread::Threads;

// The open file is the feed's, and stands where that does.
fn is_at(file: &OpenFile, path: &Text, feed: &Feed) -> bool
    ensures { IsTrue result ↔ IsAtFeed path.now feed.now file.now }
{
    file.source == *path
        && file.name == feed.name
        && is_kind(file.columns.side, feed.kind)
        && file.taken == feed.taken
        && is_same(&file.digest, &feed.digest)
}

// The next rows of an open file, which is held then, or its end.
fn go_on<R: Threads + Sync, G: Gate>(
    rt: &R,
    alloc: Global,
    mut file: OpenFile,
    held: &mut Held,
    gate: &G,
) -> Result<Prepared, NoMemory>
    requires some { IsSomeOpen file }
    requires none { held.old ≡ None }
    ensures goes_on { (header : Fields) (records : Items Fields)
        → IsOpen header records file
        → IfOk result (GoesOnWith header records file held.new) }
    ensures may { IfOk result (λ prepared. MayFollow file.taken prepared) }
    ensures held { OnErr result (held.new ≡ None) }
{
    let rows = file.next_rows(rt, alloc, gate)?;
    if rows.is_empty() {
        return Ok(Prepared::End(FeedEnd::Completed));
    }
    held.hold(file);
    Ok(Prepared::Rows(rows))
}

// A file that is opened anew.
fn begin<R: Threads + Sync, F: Folder, G: Gate>(
    rt: &R,
    alloc: Global,
    folder: &mut F,
    path: Text,
    feed: &Feed,
    held: &mut Held,
    gate: &G,
) -> Result<Prepared, NoMemory>
    requires path { IsUtf8 path }
    requires read { is_unread feed.now.kind ≡ false }
    requires none { held.old ≡ None }
    ensures told { (files : Files) → F.files folder.old ≡ Some files
        → IfOk result (IsForFileAt files path feed.now) }
    ensures fresh { (files : Files) → F.files folder.old ≡ Some files → IsFresh files held.new }
    ensures may { IfOk result (λ prepared. MayFollow feed.now.taken prepared) }
    ensures files { F.files folder.new ≡ F.files folder.old }
    ensures later { F.faults folder.old ≤ F.faults folder.new }
    ensures fault { IfOk result (λ prepared. is_fault prepared ≡ true
        → Rose (F.faults folder.old) (F.faults folder.new)) }
{
    match resume(alloc, folder, path, feed)? {
        Resumed::Fault => Ok(Prepared::End(FeedEnd::ReadError)),
        Resumed::Modified => Ok(Prepared::End(FeedEnd::Modified)),
        Resumed::Completed => Ok(Prepared::End(FeedEnd::Completed)),
        Resumed::Open(file) => go_on(rt, alloc, file, held, gate),
    }
}

// The next rows of a file, or its end.
fn prepare_file<R: Threads + Sync, F: Folder, G: Gate>(
    rt: &R,
    alloc: Global,
    folder: &mut F,
    source: &Text,
    feed: &Feed,
    held: &mut Held,
    gate: &G,
) -> Result<Prepared, NoMemory>
    requires { is_unread feed.now.kind ≡ false }
    ensures told { (files : Files) → F.files folder.old ≡ Some files → IsFresh files held.old
        → IfOk result (IsForFile files source.now feed.now) }
    ensures fresh { (files : Files) → F.files folder.old ≡ Some files → IsFresh files held.old
        → IsFresh files held.new }
    ensures may { IfOk result (λ prepared. MayFollow feed.now.taken prepared) }
    ensures files { F.files folder.new ≡ F.files folder.old }
    ensures later { F.faults folder.old ≤ F.faults folder.new }
    ensures fault { IfOk result (λ prepared. is_fault prepared ≡ true
        → Rose (F.faults folder.old) (F.faults folder.new)) }
{
    let was = held.take();
    let Some(path) = path_of(alloc, source.as_slice())? else {
        return Ok(Prepared::End(FeedEnd::Modified));
    };
    match was {
        Some(file) if is_at(&file, &path, feed) => go_on(rt, alloc, file, held, gate),
        _ => begin(rt, alloc, folder, path, feed, held, gate),
    }
}

/// What the next turn commits: a plan of the files at the source of a load, the next rows of the
/// file that goes on, or its end. `held` keeps that file; a plan leaves none there. After want of
/// memory nothing is held.
pub fn prepare<R: Threads + Sync, F: Folder, G: Gate>(
    rt: &R,
    alloc: Global,
    folder: &mut F,
    task: &Task,
    held: &mut Held,
    gate: &G,
) -> Result<Prepared, NoMemory>
    requires { IsTask task.now }
    ensures prepares { (files : Files) → F.files folder.old ≡ Some files → IsFresh files held.old
        → IfOk result (Prepares files task.now) }
    ensures fault { IfOk result (λ prepared. is_fault prepared ≡ true
        → Rose (F.faults folder.old) (F.faults folder.new)) }
    ensures may { IfOk result (MayCommit task.now.work) }
    ensures fresh { (files : Files) → F.files folder.old ≡ Some files → IsFresh files held.old
        → IsFresh files held.new }
    ensures plan { IfOk result (λ prepared. is_plan prepared ≡ true → held.new ≡ None) }
    ensures files { F.files folder.new ≡ F.files folder.old }
    ensures later { F.faults folder.old ≤ F.faults folder.new }
{
    let Some(request) = &task.request else {
        return Ok(Prepared::Nothing);
    };
    match task.work {
        Work::Idle => Ok(Prepared::Nothing),
        Work::Plan { .. } => {
            drop(held.take());
            let planned = plan(
                alloc,
                folder,
                &request.source,
                task.no_previous,
                &task.previous,
            )?;
            Ok(Prepared::Plan(planned))
        }
        Work::Continue { .. } => {
            let Some(feed) = &task.feed else {
                unreachable!();
            };
            prepare_file(rt, alloc, folder, &request.source, feed, held, gate)
        }
    }
}
