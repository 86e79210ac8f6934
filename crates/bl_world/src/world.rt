// What the core knows after the entries so far.
ghost use Rattle.std.specs.Prelude.{
  ◌≡◌,
  ◌+◌,
  ◌-◌,
  ◌<◌,
  ◌^◌,
  true,
  false,
  None,
  [],
  length,
  All,
  IfOk,
  IsErrOf,
  OnErr,
  OnOk,
};
ghost use Rattle.bl_entry.specs.Valid.{IsEntry};
ghost use Rattle.bl_files.specs.Plans.{HasFileCodes, HasNames};
ghost use Rattle.bl_queue.specs.Changes.{IsChanged, IsSubmitted, with_job};
ghost use Rattle.bl_queue.specs.Checks.{refusal};
ghost use Rattle.bl_queue.specs.Jobs.{number_in};
ghost use Rattle.bl_queue.specs.Rows.{MayTakeRows, fed_job};
ghost use Rattle.bl_queue.specs.Runs.{
  HasRoom,
  IsStarted,
  MayCancel,
  MayEndFeed,
  MayStart,
  cancelled_job,
  job_after_feed,
};
ghost use Rattle.bl_value.specs.Valid.{IsChange};
ghost use Rattle.bl_world.specs.Following.{IsOneMore};
ghost use Rattle.bl_world.specs.Works.{listed, task_of, work_of};
ghost use Rattle.bl_world.specs.Worlds.{
  Follows,
  IsBegun,
  IsChanges,
  Step,
  commit_of,
  empty_world,
  World as Known,
};

use crate::applying::begin_changes;
use crate::commits::push_commit;
use crate::fitting::{fits, moment_of};
use crate::listing::listed;
use crate::task::next_task;
use crate::working::next_work;
use crate::{FollowRefusal, JobCommit, Task, Work};
use bl_entry::Entry;
use bl_files::{FeedEnd, LoadRequest, Log, PlanResult};
use bl_graph::Graph;
use bl_outside::{Digest, List, NoMemory};
use bl_queue::Jobs;
use bl_value::Change;
use std::alloc::Global;
use std::marker::Model;

/// What the core knows after the entries so far.
#[derive(Drop)]
pub struct World {
    pub(crate) alloc: Global,
    pub(crate) entries: u64,
    pub(crate) moment: u64,
    pub(crate) jobs: Jobs,
    pub(crate) graph: Graph,
    pub(crate) commits: List<JobCommit>,
}

impl Model for World {
    ghost use Rattle.std.specs.Coded.{codes};
    ghost use Rattle.bl_graph.specs.Codes.{graph_code};
    ghost use Rattle.bl_world.specs.Worlds.{World as Known, IsProper};

    ghost Value = { Known };

    ghost coded = { Prim.hlevel (codes, graph_code) };

    ghost view = { λ w. record { entries = w.entries; moment = w.moment; kept = w.jobs; graph = w.graph; commits = w.commits } };

    ghost invariant = { λ w. IsProper (record { entries = w.entries; moment = w.moment; kept = w.jobs; graph = w.graph; commits = w.commits }) };
}

impl World {
    /// The world of no entry. It takes no memory. Texts of the graph are hashed with the seed.
    pub fn empty(alloc: Global, seed: u128) -> World
        ensures { result ≡ empty_world }
    {
        World {
            alloc,
            entries: 0,
            moment: 0,
            jobs: Jobs::new(alloc),
            graph: Graph::empty(alloc, seed),
            commits: List::new(alloc),
        }
    }

    /// The number of entries.
    pub fn entries(&self) -> u64
        ensures { result ≡ self.now.entries }
    {
        self.entries
    }

    /// The moment of the last entry, or 0.
    pub fn moment(&self) -> u64
        ensures { result ≡ self.now.moment }
    {
        self.moment
    }

    /// The jobs that are kept.
    pub fn jobs(&self) -> &Jobs
        ensures { result.now ≡ self.now.kept }
    {
        &self.jobs
    }

    pub fn graph(&self) -> &Graph
        ensures { result.now ≡ self.now.graph }
    {
        &self.graph
    }

    /// The commits of the change stream, from the first on.
    pub fn commits(&self) -> &List<JobCommit>
        ensures are { result.now ≡ self.now.commits }
        ensures changes { All (λ commit. IsChanges commit.changes) self.now.commits }
    {
        &self.commits
    }

    // ---- an entry follows

    /// Follows an entry, where it may follow. After a refusal the world isn't used any more.
    pub fn follow(&mut self, entry: Entry) -> Result<(), FollowRefusal>
        requires room { self.old.entries < 2 ^ 64 - 1 }
        requires valid { IsEntry entry }
        ensures step { OnOk result (Step self.old entry self.new) }
        ensures unfit { IsErrOf result FollowRefusal.Unfit → ¬ Follows self.old entry }
    {
        if !self.begin(&entry)? {
            return Err(FollowRefusal::Unfit);
        }
        self.take(entry)?;
        Ok(())
    }

    // Tests whether the entry may follow. Where it may, the graph has its changes then.
    fn begin(&mut self, entry: &Entry) -> Result<bool, NoMemory>
        requires { IsEntry entry.now }
        ensures begun { result ≡ Ok true → IsBegun self.old entry.now self.new }
        ensures unfit { result ≡ Ok false → ¬ Follows self.old entry.now }
    {
        if moment_of(entry) < self.moment {
            return Ok(false);
        }
        if !fits(&self.jobs, entry)? {
            return Ok(false);
        }
        begin_changes(&mut self.graph, entry)
    }

    /// Takes an entry that may follow, and whose changes the graph has already.
    pub fn take(&mut self, entry: Entry) -> Result<(), NoMemory>
        requires room { self.old.entries < 2 ^ 64 - 1 }
        requires valid { IsEntry entry }
        requires begun { (before : Known) × IsBegun before entry self.old }
        ensures ok { OnOk result ((before : Known) → IsBegun before entry self.old
            → Step before entry self.new) }
        ensures err { OnErr result (self.new ≡ self.old) }
    {
        match entry {
            Entry::Submit {
                moment,
                job: _,
                id,
                request,
            } => self.take_submit(moment, id, request),
            Entry::Cancel { moment, job } => {
                self.take_cancel(moment, job);
                Ok(())
            }
            Entry::Start { moment, job, plan } => self.take_start(moment, job, &plan),
            Entry::Batch {
                moment,
                job,
                feed,
                from: _,
                rows,
                digest,
                duplicates,
                logs,
                changes,
            } => self.take_batch(moment, job, feed, rows, digest, duplicates, &logs, changes),
            Entry::FeedEnd {
                moment,
                job,
                feed,
                end,
            } => {
                self.take_end(moment, job, feed, end);
                Ok(())
            }
        }
    }

    // One entry more.
    fn count(&mut self, moment: u64)
        requires { self.old.entries < 2 ^ 64 - 1 }
        ensures { self.new ≡ record self.old {
          entries = self.old.entries + 1;
          moment = moment;
        } }
    {
        self.entries += 1;
        self.moment = moment;
    }

    fn take_submit(&mut self, moment: u64, id: u128, request: LoadRequest) -> Result<(), NoMemory>
        requires room { self.old.entries < 2 ^ 64 - 1 }
        requires taken_on { refusal self.old.kept request ≡ None }
        requires id { number_in id ≡ self.old.kept.last + 1 }
        ensures more { OnOk result (IsOneMore moment [] self.old self.new) }
        ensures kept { OnOk result (IsSubmitted moment id request self.old.kept self.new.kept) }
        ensures err { OnErr result (self.new ≡ self.old) }
    {
        self.jobs.submit(moment, id, request)?;
        self.count(moment);
        Ok(())
    }

    fn take_cancel(&mut self, moment: u64, job: u32)
        requires room { self.old.entries < 2 ^ 64 - 1 }
        requires may { MayCancel self.old.kept.jobs job }
        ensures more { IsOneMore moment [] self.old self.new }
        ensures kept { IsChanged moment job (cancelled_job moment) self.old.kept self.new.kept }
    {
        self.jobs.cancel(moment, job);
        self.count(moment);
    }

    fn take_start(&mut self, moment: u64, job: u32, plan: &PlanResult) -> Result<(), NoMemory>
        requires room { self.old.entries < 2 ^ 64 - 1 }
        requires may { MayStart self.old.kept.jobs job }
        requires names { HasNames plan.now }
        requires codes { HasFileCodes plan.now }
        requires files { HasRoom self.old.kept.jobs job plan.now }
        ensures more { OnOk result (IsOneMore moment [] self.old self.new) }
        ensures kept { OnOk result (IsStarted moment job plan.now self.old.kept self.new.kept) }
        ensures err { OnErr result (self.new ≡ self.old) }
    {
        self.jobs.start(moment, job, plan)?;
        self.count(moment);
        Ok(())
    }

    // The changes are moved into their commit.
    fn take_batch(
        &mut self,
        moment: u64,
        job: u32,
        feed: u32,
        rows: u32,
        digest: Digest,
        duplicates: u32,
        logs: &List<Log>,
        changes: List<Change>,
    ) -> Result<(), NoMemory>
        requires room { self.old.entries < 2 ^ 64 - 1 }
        requires may { MayTakeRows self.old.kept.jobs job feed rows duplicates (length logs.now) }
        requires valid { All IsChange changes }
        ensures more { OnOk result
            (IsOneMore moment (commit_of job moment changes) self.old self.new) }
        ensures kept { OnOk result (self.new.kept ≡ record self.old.kept {
          jobs = with_job job (fed_job moment (feed - 1) rows digest duplicates logs.now)
              self.old.kept.jobs;
        }) }
        ensures err { OnErr result (self.new ≡ self.old) }
    {
        let before = self.commits.len();
        push_commit(&mut self.commits, job, moment, changes)?;
        match self
            .jobs
            .rows(moment, job, feed, rows, digest, duplicates, logs)
        {
            Ok(()) => {
                self.count(moment);
                Ok(())
            }
            Err(fault) => {
                self.commits.truncate(before);
                Err(fault)
            }
        }
    }

    fn take_end(&mut self, moment: u64, job: u32, feed: u32, end: FeedEnd)
        requires room { self.old.entries < 2 ^ 64 - 1 }
        requires may { MayEndFeed self.old.kept.jobs job feed }
        ensures more { IsOneMore moment [] self.old self.new }
        ensures kept { IsChanged moment job (job_after_feed moment (feed - 1) end)
            self.old.kept self.new.kept }
    {
        self.jobs.end_feed(moment, job, feed, end);
        self.count(moment);
    }

    // ---- what is to be done next

    /// What is to be done next. It takes no memory.
    pub fn next_work(&self) -> Work
        ensures { result ≡ work_of self.now.kept.jobs }
    {
        next_work(&self.jobs)
    }

    /// What the loader is told of it.
    pub fn task(&self) -> Result<Task, NoMemory>
        ensures { IfOk result (λ task. task ≡ task_of self.now.kept.jobs) }
    {
        next_task(self.alloc, &self.jobs)
    }

    /// The ids of the jobs that wait, where they are asked for, and then of the others, each the
    /// newest first, so many at most.
    pub fn list(&self, limit: u32, queued: bool) -> Result<List<u128>, NoMemory>
        ensures { IfOk result (λ ids. ids ≡ listed limit queued self.now.kept.jobs) }
    {
        listed(self.alloc, self.jobs.kept().as_slice(), limit, queued)
    }
}
