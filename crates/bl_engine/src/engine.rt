// The engine: its disks, and the world of its entries.
ghost use Rattle.std.specs.Prelude.{◌≡◌, ◌<◌, true, All, List as Items};
ghost use Rattle.bl_outside.specs.Sound.{IsSound};
ghost use Rattle.bl_entry.specs.declared.entry.Entry.{Entry};
ghost use Rattle.bl_world.specs.Works.{work_of};
ghost use Rattle.bl_world.specs.Worlds.{IsChanges, IsWorldOf};
ghost use Rattle.bl_engine.specs.Engines.{IsAt};

use bl_journal::Journal;
use bl_outside::{Disk, Disks, List};
use bl_world::{JobCommit, Work, World};
use std::alloc::Global;
use std::marker::Model;

/// The one owner of a store. Contracts see its journal, its slots, its world, the number of its
/// entries, and whether it is ready.
#[derive(Drop)]
pub struct Engine<D: Disk> {
    pub(crate) alloc: Global,
    /// Texts of the graph are hashed with it.
    pub(crate) seed: u128,
    pub(crate) journal: Journal<D>,
    pub(crate) left: D,
    pub(crate) right: D,
    /// Of a closed engine it means nothing.
    pub(crate) world: World,
    pub(crate) seq: u64,
    pub(crate) ready: bool,
}

impl<D: Disk> Model for Engine<D> {
    ghost use Rattle.std.specs.Coded.{codes};
    ghost use Rattle.bl_graph.specs.Codes.{graph_code};
    ghost use Rattle.bl_engine.specs.Engines.{IsSureIfReady, View};

    ghost Value = { View D };

    ghost coded = { Prim.hlevel (codes, graph_code, D.code) };

    ghost view = { λ e. record {
      journal = e.journal;
      left = e.left;
      right = e.right;
      world = e.world;
      seq = e.seq;
      ready = e.ready;
    } };

    ghost invariant = { λ e. IsSureIfReady ⟦<D as Disk>⟧ (record {
      journal = e.journal;
      left = e.left;
      right = e.right;
      world = e.world;
      seq = e.seq;
      ready = e.ready;
    }) };
}

impl<D: Disk> Engine<D> {
    /// Whether it is ready. A closed engine is opened again by `ready`, and by each call that
    /// takes `&mut self`. A ready engine's world is that of entries, which over a sound disk are
    /// those that the journal has.
    pub fn is_ready(&self) -> bool
        ensures ready { result ≡ self.now.ready }
        ensures leads { result ≡ true → (entries : Items Entry)
            × IsWorldOf entries self.now.world }
        ensures at { result ≡ true → IsSound ⟦<D as Disk>⟧ self.now.journal.disk
            → (entries : Items Entry) × IsAt ⟦<D as Disk>⟧ self.now entries }
    {
        self.ready
    }

    /// The number of entries; of a closed engine the one that it had when it was last ready. Each
    /// takes more than one byte of the journal.
    pub fn seq(&self) -> u64
        ensures seq { result ≡ self.now.seq }
        ensures counted { self.now.ready ≡ true → result ≡ self.now.world.entries }
        ensures room { self.now.ready ≡ true → result < self.now.journal.place }
    {
        self.seq
    }

    /// What is to be done next. It takes no memory.
    pub fn next_work(&self) -> Work
        requires { self.now.ready ≡ true }
        ensures { result ≡ work_of self.now.world.kept.jobs }
    {
        self.world.next_work()
    }

    /// The commits of the change stream, from the first on.
    pub fn commits(&self) -> &List<JobCommit>
        ensures are { result.now ≡ self.now.world.commits }
        ensures changes { All (λ commit. IsChanges commit.changes) self.now.world.commits }
    {
        self.world.commits()
    }

    /// Hands back the disks.
    pub fn into_disks(self) -> Disks<D>
        ensures journal { result.journal ≡ self.journal.disk }
        ensures left { result.left ≡ self.left }
        ensures right { result.right ≡ self.right }
    {
        let Engine {
            alloc: _,
            seed: _,
            journal,
            left,
            right,
            world: _,
            seq: _,
            ready: _,
        } = self;
        Disks {
            journal: journal.into_disk(),
            left,
            right,
        }
    }
}
