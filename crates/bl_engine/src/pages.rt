// Pages of the change stream.
ghost use Rattle.std.specs.Prelude.{◌≡◌, ◌≢◌, ℕ, ◌≤◌, true, [], Some, IfErr, IfOk, IsErrOf, OnOk};
ghost use Rattle.bl_stream.specs.Pages.{IsPage};
ghost use Rattle.bl_stream.specs.Readers.{IsCommit};
ghost use Rattle.bl_stream.specs.Slices.{most_events};
ghost use Rattle.bl_world.specs.Worlds.{IsChanges};
ghost use Rattle.bl_engine.specs.Calls.{Looks};
ghost use Rattle.bl_engine.specs.Streams.{
  bounds_of,
  commit_from,
  page_of,
  page_trouble,
};

use crate::Engine;
use bl_outside::{Disk, NoMemory};
use bl_stream::{Commit, CommitFault, CommitReader, Page, PageAsk, PageRefusal, Stream};
use bl_value::copy_changes;
use bl_world::{JobCommit, World};
use std::alloc::Global;

fn moment_of(commit: &JobCommit) -> u64
    ensures { result ≡ commit.now.moment }
{
    commit.moment
}

fn commit_of(alloc: Global, commit: &JobCommit) -> Result<Commit, NoMemory>
    requires { IsChanges commit.now.changes }
    ensures copy { IfOk result (λ copy. copy ≡ commit_from commit.now) }
    ensures valid { IfOk result IsCommit }
{
    Ok(Commit {
        moment: moment_of(commit),
        changes: copy_changes(alloc, &commit.changes)?,
    })
}

// The commits of a world, each copied as it is read.
#[derive(Drop)]
struct WorldCommits<'a> {
    alloc: Global,
    world: &'a World,
}

impl<'a> CommitReader for WorldCommits<'a> {
    ghost use Rattle.std.specs.Prelude.{Some};
    ghost use Rattle.bl_engine.specs.Streams.{commits_of};

    ghost commits = { λ it. Some (commits_of it.world.now) };

    ghost faults = { λ _. 0 };

    fn commit(&mut self, number: u64) -> Result<Commit, CommitFault> {
        let commit = &self.world.commits().as_slice()[(number - 1) as usize];
        Ok(commit_of(self.alloc, commit)?)
    }
}

// The page of a world.
fn page_of(alloc: Global, world: &World, ask: &PageAsk) -> Result<Page, PageRefusal>
    requires { (1 ≤ ask.now.limit) × (ask.now.limit ≤ most_events) }
    ensures slice { IfOk result (λ page. page.events ≡ page_of world.now ask.now) }
    ensures page { IfOk result (λ page. IsPage (bounds_of world.now) ask.now page.events) }
    ensures none { IsErrOf result PageRefusal.NoRecords → page_of world.now ask.now ≡ [] }
    ensures store { ¬ IsErrOf result PageRefusal.StoreFault }
    ensures bad { IfErr result (λ refusal. (place : ℕ) → refusal ≢ PageRefusal.BadStore place) }
{
    let newest = world.commits().len() as u64;
    let mut reader = WorldCommits { alloc, world };
    Stream::over(1, newest).page(alloc, &mut reader, ask)
}

impl<D: Disk> Engine<D> {
    /// A page of the change stream. Of the commits it copies only those that it reads.
    pub fn page(&mut self, ask: &PageAsk) -> Result<Page, PageRefusal>
        requires { (1 ≤ ask.now.limit) × (ask.now.limit ≤ most_events) }
        ensures slice { IfOk result (λ page. page.events ≡ page_of self.new.world ask.now) }
        ensures page { IfOk result (λ page.
            IsPage (bounds_of self.new.world) ask.now page.events) }
        ensures none { IsErrOf result PageRefusal.NoRecords → (self.new.ready ≡ true)
            × (page_of self.new.world ask.now ≡ []) }
        ensures ready { OnOk result (self.new.ready ≡ true) }
        ensures looks { Looks ⟦<D as Disk>⟧ self.old self.new (page_trouble result) }
    {
        self.ready()?;
        page_of(self.alloc, &self.world, ask)
    }
}
