// What the loader has made of its work is taken.
ghost use Rattle.std.specs.Prelude.{◌≡◌, ◌≢◌, ◌≤◌, ◌+◌, ◌<◌, ◌^◌, true, length, MatchResult};
ghost use Rattle.bl_entry.specs.Valid.{IsPlan};
ghost use Rattle.bl_job.specs.Batched.{AreValidRows};
ghost use Rattle.bl_world.specs.Makings.{
  EndEntry,
  FitsPlan,
  IsOnFeed,
  IsUnstopped,
  PlanEntry,
  RowsEntry,
};
ghost use Rattle.bl_world.specs.Works.{work_of};
ghost use Rattle.bl_engine.specs.Appending.{append_outcome};
ghost use Rattle.bl_engine.specs.Attempts.{Attempts};
ghost use Rattle.bl_engine.specs.Findings.{
  EndedEntry,
  EndsFile,
  Finds,
  IsStale,
  PlannedEntry,
  PlansWork,
  TakenEntry,
  TakesRows,
  Tells,
  TurnFinds,
};
ghost use Rattle.bl_engine.specs.Outcomes.{Refused, turn_outcome};

use crate::appending::{Unappended, append_entry};
use crate::turned::turned_by;
use crate::{Engine, TurnRefusal, Turned};
use bl_files::{FeedEnd, PlanResult};
use bl_journal::AppendRefusal;
use bl_outside::{Clock, Disk, List};
use bl_value::DigestRow;
use bl_world::{RowsRefusal, Work};

impl<D: Disk> Engine<D> {
    /// Starts a job as it was planned. Where too many files would go on, it is planned to fail.
    pub fn commit_plan<K: Clock>(
        &mut self,
        clock: &mut K,
        work: Work,
        plan: PlanResult,
    ) -> Result<Turned, TurnRefusal>
        requires { PlansWork work plan }
        ensures finds { Finds ⟦<D as Disk>⟧ self.old self.new (turn_outcome result)
            (TurnFinds work result) }
        ensures attempts { Attempts ⟦<D as Disk>⟧
            (Tells (PlannedEntry work plan (K.last clock.new)) result)
            self.old self.new (turn_outcome result) }
    {
        let now = clock.now();
        self.ready()?;
        self.plan_at(now, work, plan)
    }

    /// Takes rows of the file that goes on: those before the first that stops the job, or the end
    /// of the file, where that is the first of them.
    pub fn commit_rows<K: Clock>(
        &mut self,
        clock: &mut K,
        work: Work,
        rows: List<DigestRow>,
    ) -> Result<Turned, TurnRefusal>
        requires { TakesRows work rows }
        ensures finds { Finds ⟦<D as Disk>⟧ self.old self.new (turn_outcome result)
            (TurnFinds work result) }
        ensures attempts { Attempts ⟦<D as Disk>⟧
            (Tells (TakenEntry work rows (K.last clock.new)) result)
            self.old self.new (turn_outcome result) }
    {
        let now = clock.now();
        self.ready()?;
        self.rows_at(now, work, &rows)
    }

    /// Ends the file that goes on.
    pub fn commit_end<K: Clock>(
        &mut self,
        clock: &mut K,
        work: Work,
        end: FeedEnd,
    ) -> Result<Turned, TurnRefusal>
        requires { EndsFile work end }
        ensures finds { Finds ⟦<D as Disk>⟧ self.old self.new (turn_outcome result)
            (TurnFinds work result) }
        ensures attempts { Attempts ⟦<D as Disk>⟧
            (Tells (EndedEntry work end (K.last clock.new)) result)
            self.old self.new (turn_outcome result) }
    {
        let now = clock.now();
        self.ready()?;
        self.end_at(now, work, end)
    }

    // The work is still the next one.
    fn check_work(&self, work: Work) -> Result<(), TurnRefusal>
        requires { self.now.ready ≡ true }
        ensures { MatchResult result (λ _. work_of self.now.world.kept.jobs ≡ work)
            (IsStale work self.now.world) }
    {
        let next = self.next_work();
        if next == work {
            Ok(())
        } else {
            Err(TurnRefusal::Stale(next))
        }
    }

    // The same of an engine that is ready.
    fn plan_at(&mut self, now: u64, work: Work, plan: PlanResult) -> Result<Turned, TurnRefusal>
        requires ready { self.old.ready ≡ true }
        requires plan { PlansWork work plan }
        ensures finds { TurnFinds work result self.old.world }
        ensures refused { turn_outcome result ≡ Refused → self.new ≡ self.old }
        ensures attempts { Attempts ⟦<D as Disk>⟧ (Tells (PlannedEntry work plan now) result)
            self.old self.new (turn_outcome result) }
    {
        self.check_work(work)?;
        match work {
            Work::Plan { job, .. } => Ok(self.start(now, job, plan)?),
            Work::Idle | Work::Continue { .. } => unreachable!(),
        }
    }

    fn start(&mut self, now: u64, job: u32, plan: PlanResult) -> Result<Turned, AppendRefusal>
        requires ready { self.old.ready ≡ true }
        requires valid { IsPlan plan }
        requires plan { FitsPlan (work_of self.old.world.kept.jobs) job plan }
        ensures { Attempts ⟦<D as Disk>⟧ (Tells (PlanEntry job plan now) result) self.old self.new
            (append_outcome result) }
    {
        let entry = match self.world.plan_entry(now, job, plan) {
            Err(_) => return Err(AppendRefusal::NoMemory),
            Ok(entry) => entry,
        };
        let told = turned_by(&entry);
        self.append(entry)?;
        Ok(told)
    }

    fn end_at(&mut self, now: u64, work: Work, end: FeedEnd) -> Result<Turned, TurnRefusal>
        requires ready { self.old.ready ≡ true }
        requires end { EndsFile work end }
        ensures finds { TurnFinds work result self.old.world }
        ensures refused { turn_outcome result ≡ Refused → self.new ≡ self.old }
        ensures attempts { Attempts ⟦<D as Disk>⟧ (Tells (EndedEntry work end now) result)
            self.old self.new (turn_outcome result) }
    {
        self.check_work(work)?;
        match work {
            Work::Continue { job, feed, .. } => Ok(self.end_feed(now, job, feed, end)?),
            Work::Idle | Work::Plan { .. } => unreachable!(),
        }
    }

    fn end_feed(
        &mut self,
        now: u64,
        job: u32,
        feed: u32,
        end: FeedEnd,
    ) -> Result<Turned, AppendRefusal>
        requires ready { self.old.ready ≡ true }
        requires next { IsOnFeed (work_of self.old.world.kept.jobs) job feed }
        requires end { IsUnstopped end }
        ensures { Attempts ⟦<D as Disk>⟧ (Tells (EndEntry job feed end now) result) self.old
            self.new (append_outcome result) }
    {
        let entry = self.world.end_entry(now, job, feed, end);
        let told = turned_by(&entry);
        self.append(entry)?;
        Ok(told)
    }

    fn rows_at(
        &mut self,
        now: u64,
        work: Work,
        rows: &List<DigestRow>,
    ) -> Result<Turned, TurnRefusal>
        requires ready { self.old.ready ≡ true }
        requires rows { TakesRows work rows.now }
        ensures finds { TurnFinds work result self.old.world }
        ensures refused { turn_outcome result ≡ Refused → self.new ≡ self.old }
        ensures attempts { Attempts ⟦<D as Disk>⟧ (Tells (TakenEntry work rows.now now) result)
            self.old self.new (turn_outcome result) }
    {
        self.check_work(work)?;
        match work {
            Work::Continue { job, feed, from } => Ok(self.take_rows(now, job, feed, from, rows)?),
            Work::Idle | Work::Plan { .. } => unreachable!(),
        }
    }

    // The graph is changed before the entry is appended, so the engine is closed until that is done.
    fn take_rows(
        &mut self,
        now: u64,
        job: u32,
        feed: u32,
        from: u64,
        rows: &List<DigestRow>,
    ) -> Result<Turned, AppendRefusal>
        requires ready { self.old.ready ≡ true }
        requires next { work_of self.old.world.kept.jobs ≡ Work.Continue job feed from }
        requires some { 1 ≤ length rows.now }
        requires few { length rows.now ≤ 1000 }
        requires room { from + length rows.now < 2 ^ 48 }
        requires valid { AreValidRows rows.now }
        ensures { Attempts ⟦<D as Disk>⟧ (Tells (RowsEntry job feed rows.now now) result) self.old
            self.new (append_outcome result) }
    {
        self.ready = false;
        let entry = match self.world.rows_entry(now, job, feed, from, rows) {
            Err(RowsRefusal::NoMemory) => return Err(AppendRefusal::NoMemory),
            // Its entry would be longer than the journal's longest one.
            Err(RowsRefusal::TooManyChanges) => return Err(AppendRefusal::Full),
            Ok(entry) => entry,
        };
        let told = turned_by(&entry);
        match append_entry(self.alloc, &mut self.journal, &mut self.world, entry) {
            Err(Unappended::Untried) => Err(AppendRefusal::NoMemory),
            Err(Unappended::Refused(refusal)) => Err(refusal),
            Ok(()) => {
                self.seq = self.world.entries();
                self.ready = true;
                Ok(told)
            }
        }
    }
}
