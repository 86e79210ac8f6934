// The entry that a call appends.
ghost use Rattle.std.specs.Prelude.{
  ◌≡◌,
  ◌+◌,
  ◌<◌,
  ◌≤◌,
  ◌^◌,
  true,
  None,
  length,
  IfOk,
  IsErrOf,
  IsSomeAnd,
};
ghost use Rattle.bl_entry.specs.Valid.{IsEntry, IsPlan, IsRequest};
ghost use Rattle.bl_job.specs.Batched.{AreValidRows};
ghost use Rattle.bl_queue.specs.Checks.{refusal};
ghost use Rattle.bl_queue.specs.Jobs.{is_unended, job_with_id};
ghost use Rattle.bl_world.specs.Makings.{
  CancelEntry,
  EndEntry,
  FitsPlan,
  HasLongEntry,
  IsOnFeed,
  IsUnstopped,
  PlanEntry,
  RowsEntry,
  SubmitEntry,
  next_moment,
};
ghost use Rattle.bl_world.specs.Works.{work_of};
ghost use Rattle.bl_world.specs.Worlds.{IsBegun};

use crate::load_ids::load_number;
use crate::recording::recorded;
use crate::taking_rows::{entry_of, take_rows};
use crate::{RowsRefusal, Work, World};
use bl_entry::Entry;
use bl_files::{FeedEnd, LoadRequest, PlanResult};
use bl_graph::valid_rows_are_proper;
use bl_outside::{List, NoMemory};
use bl_queue::Job;
use bl_value::DigestRow;

fn number_of(job: &Job) -> u32
    ensures { result ≡ job.now.number }
{
    job.number
}

impl World {
    // The moment of an entry that is made now.
    fn next_moment(&self, now: u64) -> u64
        ensures { result ≡ next_moment now self.now }
    {
        now.max(self.moment)
    }

    /// The entry of a load that is taken on. Its id is made of the salt.
    pub fn submit_entry(&self, now: u64, salt: u128, request: LoadRequest) -> Entry
        requires valid { IsRequest request }
        requires taken_on { refusal self.now.kept request ≡ None }
        ensures entry { SubmitEntry salt request now self.now result }
        ensures begun { IsBegun self.now result self.now }
        ensures valid { IsEntry result }
    {
        let job = self.jobs.last() + 1;
        Entry::Submit {
            moment: self.next_moment(now),
            job,
            id: load_number(salt, job),
            request,
        }
    }

    /// The entry of a cancel of the job of this id.
    pub fn cancel_entry(&self, now: u64, id: u128) -> Entry
        requires { IsSomeAnd (job_with_id id self.now.kept.jobs) (λ it. is_unended it ≡ true) }
        ensures entry { CancelEntry id now self.now result }
        ensures begun { IsBegun self.now result self.now }
        ensures valid { IsEntry result }
    {
        // The list is looked at for its clause that the jobs are as they always are.
        let _kept = self.jobs.kept();
        let moment = self.next_moment(now);
        match self.jobs.job_by_id(id) {
            Some(it) => Entry::Cancel {
                moment,
                job: number_of(it),
            },
            None => unreachable!(),
        }
    }

    /// The entry of the plan of the job at the front. Of too many files it has only their number.
    pub fn plan_entry(&self, now: u64, job: u32, plan: PlanResult) -> Result<Entry, NoMemory>
        requires valid { IsPlan plan }
        requires plan { FitsPlan (work_of self.now.kept.jobs) job plan }
        ensures entry { IfOk result (PlanEntry job plan now self.now) }
        ensures begun { IfOk result (λ entry. IsBegun self.now entry self.now) }
        ensures valid { IfOk result IsEntry }
    {
        // The list is looked at for its clause that the jobs are as they always are.
        let _kept = self.jobs.kept();
        let moment = self.next_moment(now);
        let plan = recorded(self.alloc, &self.jobs, job, plan)?;
        Ok(Entry::Start { moment, job, plan })
    }

    /// Takes rows of the file at work into the graph, and gives their entry, which may follow. After
    /// a refusal the graph has taken all of their changes or a front of them.
    pub fn rows_entry(
        &mut self,
        now: u64,
        job: u32,
        feed: u32,
        from: u64,
        rows: &List<DigestRow>,
    ) -> Result<Entry, RowsRefusal>
        requires next { work_of self.old.kept.jobs ≡ Work.Continue job feed from }
        requires some { 1 ≤ length rows.now }
        requires few { length rows.now ≤ 1000 }
        requires room { from + length rows.now < 2 ^ 48 }
        requires valid { AreValidRows rows.now }
        ensures begun { IfOk result (λ entry. IsBegun self.old entry self.new) }
        ensures entry { IfOk result (RowsEntry job feed rows.now now self.old) }
        ensures valid { IfOk result IsEntry }
        ensures many { IsErrOf result RowsRefusal.TooManyChanges
            → HasLongEntry job feed rows.now now self.old }
        ensures rest { self.new ≡ record self.old { graph = self.new.graph } }
    {
        valid_rows_are_proper();
        let moment = self.next_moment(now);
        let made = take_rows(self.alloc, &self.jobs, &mut self.graph, job, feed, rows)?;
        entry_of(self.alloc, moment, job, feed, from, rows.as_slice(), made)
    }

    /// The entry of the end of the file at work.
    pub fn end_entry(&self, now: u64, job: u32, feed: u32, end: FeedEnd) -> Entry
        requires next { IsOnFeed (work_of self.now.kept.jobs) job feed }
        requires end { IsUnstopped end }
        ensures entry { EndEntry job feed end now self.now result }
        ensures begun { IsBegun self.now result self.now }
        ensures valid { IsEntry result }
    {
        Entry::FeedEnd {
            moment: self.next_moment(now),
            job,
            feed,
            end,
        }
    }
}
