// An engine is opened.
ghost use Rattle.std.specs.Prelude.{◌≡◌, ◌+◌, ◌<◌, true, false, Ok, IfOk, IfErr, OnOk, OnErr};
ghost use Rattle.std.specs.Result.{result_err};
ghost use Rattle.bl_engine.specs.Calls.{Looks};
ghost use Rattle.bl_engine.specs.Openings.{Opens, found_after, journal_after};

use crate::refusals::trouble_of;
use crate::replaying::replay;
use crate::{Engine, Trouble};
use bl_entry::no_encoding_begins_another;
use bl_journal::Journal;
use bl_outside::{Disk, Disks, Steps};
use bl_world::World;
use std::alloc::Global;
use std::marker::Brand;
use std::sync::ledger::{Blank, Ledger};

// Begins again at the first gate, and replays.
fn reopen<D: Disk, L: Ledger>(
    alloc: Global,
    seed: u128,
    journal: &mut Journal<D>,
    steps: &mut Steps<L>,
) -> Result<World, Trouble>
    ensures { Opens ⟦<D as Disk>⟧ journal.old.disk journal.new result }
{
    match journal.restart() {
        Err(fault) => return Err(trouble_of(fault)),
        Ok(()) => {}
    }
    replay(alloc, seed, journal, steps)
}

// The same with a counter of its own.
fn reopen_counted<D: Disk, L: Ledger>(
    alloc: Global,
    seed: u128,
    journal: &mut Journal<D>,
    blank: Blank,
) -> Result<World, Trouble>
    requires name { blank.name ≡ L.name }
    requires parts { blank.parts ≡ L.parts }
    requires some { 0 < blank.parts }
    ensures { Opens ⟦<D as Disk>⟧ journal.old.disk journal.new result }
{
    let mut steps = Steps::<L>::new(blank);
    reopen(alloc, seed, journal, &mut steps)
}

// The same, and nothing is told of the count.
fn reopen_uncounted<D: Disk>(
    alloc: Global,
    seed: u128,
    journal: &mut Journal<D>,
) -> Result<World, Trouble>
    ensures { Opens ⟦<D as Disk>⟧ journal.old.disk journal.new result }
{
    reopen_counted::<D, Brand>(alloc, seed, journal, Blank::new(1))
}

impl<D: Disk> Engine<D> {
    /// Opens a store. A refusal hands the disks back. Texts of the graph are hashed with the seed.
    /// Each entry is one step of the counter.
    pub fn open_counted<L: Ledger>(
        alloc: Global,
        seed: u128,
        disks: Disks<D>,
        steps: &mut Steps<L>,
    ) -> Result<Engine<D>, (Trouble, Disks<D>)>
        ensures opens { Opens ⟦<D as Disk>⟧ disks.journal (journal_after result)
            (found_after result) }
        ensures ready { IfOk result (λ engine. engine.ready ≡ true) }
        ensures counted { IfOk result (λ engine. engine.seq ≡ engine.world.entries) }
        ensures slots { IfOk result (λ engine. (engine.left ≡ disks.left)
            × (engine.right ≡ disks.right)) }
        ensures back { IfErr result (λ refused. (refused.1.left ≡ disks.left)
            × (refused.1.right ≡ disks.right)) }
        ensures steps { IfOk result (λ engine. steps.new ≡ steps.old + engine.seq) }
    {
        let Disks {
            journal,
            left,
            right,
        } = disks;
        let mut journal = match Journal::begin(alloc, journal) {
            Err((fault, journal)) => {
                return Err((
                    trouble_of(fault),
                    Disks {
                        journal,
                        left,
                        right,
                    },
                ));
            }
            Ok(journal) => journal,
        };
        match replay(alloc, seed, &mut journal, steps) {
            Err(trouble) => Err((
                trouble,
                Disks {
                    journal: journal.into_disk(),
                    left,
                    right,
                },
            )),
            Ok(world) => {
                let seq = world.entries();
                Ok(Engine {
                    alloc,
                    seed,
                    journal,
                    left,
                    right,
                    world,
                    seq,
                    ready: true,
                })
            }
        }
    }

    /// Opens a closed engine again.
    pub fn ready(&mut self) -> Result<(), Trouble>
        ensures ready { OnOk result (self.new.ready ≡ true) }
        ensures closed { OnErr result (self.new.ready ≡ false) }
        ensures always { self.old.ready ≡ true → result ≡ Ok tt }
        ensures looks { Looks ⟦<D as Disk>⟧ self.old self.new (result_err result) }
    {
        no_encoding_begins_another();
        if self.ready {
            return Ok(());
        }
        match reopen_uncounted(self.alloc, self.seed, &mut self.journal) {
            Err(trouble) => Err(trouble),
            Ok(world) => {
                self.seq = world.entries();
                self.world = world;
                self.ready = true;
                Ok(())
            }
        }
    }
}
