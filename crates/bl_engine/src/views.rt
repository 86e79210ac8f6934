// What is told of the world. Each of these calls opens a closed engine, and appends nothing.
ghost use Rattle.std.specs.Prelude.{◌≡◌, true, min, None, Some, IfOk, OnOk, IsErrOf};
ghost use Rattle.std.specs.Result.{result_err};
ghost use Rattle.std.specs.FinMap as map;
ghost use Rattle.bl_graph.specs.Sizes.{values_count};
ghost use Rattle.bl_queue.specs.Jobs.{job_with_id};
ghost use Rattle.bl_world.specs.Works.{listed, task_of};
ghost use Rattle.bl_engine.specs.Calls.{Looks};
ghost use Rattle.bl_engine.specs.Outcomes.{view_trouble};

use crate::{Engine, Trouble, ViewRefusal};
use bl_outside::{Disk, List};
use bl_queue::Job;
use bl_world::Task;

impl<D: Disk> Engine<D> {
    /// A copy of the job of this id.
    pub fn status(&mut self, id: u128) -> Result<Job, ViewRefusal>
        ensures job { IfOk result (λ job. job_with_id id self.new.world.kept.jobs ≡ Some job) }
        ensures unknown { IsErrOf result ViewRefusal.Unknown → (self.new.ready ≡ true)
            × (job_with_id id self.new.world.kept.jobs ≡ None) }
        ensures ready { OnOk result (self.new.ready ≡ true) }
        ensures looks { Looks ⟦<D as Disk>⟧ self.old self.new (view_trouble result) }
    {
        self.ready()?;
        match self.world.jobs().job_by_id(id) {
            None => Err(ViewRefusal::Unknown),
            Some(job) => match job.copy(self.alloc) {
                Ok(copy) => Ok(copy),
                Err(_) => Err(ViewRefusal::NoMemory),
            },
        }
    }

    /// The ids of so many jobs at most: those that wait, where they are asked for, and then the
    /// others, each the newest first.
    pub fn list(&mut self, limit: u32, queued: bool) -> Result<List<u128>, Trouble>
        ensures ids { IfOk result (λ ids. ids ≡ listed limit queued self.new.world.kept.jobs) }
        ensures ready { OnOk result (self.new.ready ≡ true) }
        ensures looks { Looks ⟦<D as Disk>⟧ self.old self.new (result_err result) }
    {
        self.ready()?;
        match self.world.list(limit, queued) {
            Ok(ids) => Ok(ids),
            Err(_) => Err(Trouble::NoMemory),
        }
    }

    /// How many vertices, edges and values the graph has.
    pub fn sizes(&mut self) -> Result<(u64, u64, u64), Trouble>
        ensures vertices { IfOk result (λ sizes. sizes.0 ≡ map.len self.new.world.graph.labels) }
        ensures edges { IfOk result (λ sizes. sizes.1 ≡ map.len self.new.world.graph.edges) }
        ensures values { IfOk result (λ sizes.
            sizes.2 ≡ min (values_count self.new.world.graph) u64.MAX) }
        ensures ready { OnOk result (self.new.ready ≡ true) }
        ensures looks { Looks ⟦<D as Disk>⟧ self.old self.new (result_err result) }
    {
        self.ready()?;
        Ok(self.world.graph().sizes())
    }

    /// What the loader is told of its next work.
    pub fn task(&mut self) -> Result<Task, Trouble>
        ensures task { IfOk result (λ task. task ≡ task_of self.new.world.kept.jobs) }
        ensures ready { OnOk result (self.new.ready ≡ true) }
        ensures looks { Looks ⟦<D as Disk>⟧ self.old self.new (result_err result) }
    {
        self.ready()?;
        match self.world.task() {
            Ok(task) => Ok(task),
            Err(_) => Err(Trouble::NoMemory),
        }
    }
}
