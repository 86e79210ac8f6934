// Loads are taken on and cancelled.
ghost use Rattle.std.specs.Prelude.{◌≡◌, true, IsErrOf};
ghost use Rattle.bl_entry.specs.Valid.{IsRequest};
ghost use Rattle.bl_world.specs.Makings.{CancelEntry, SubmitEntry};
ghost use Rattle.bl_engine.specs.Attempts.{Attempts};
ghost use Rattle.bl_engine.specs.Findings.{CancelFinds, Finds, SubmitFinds};
ghost use Rattle.bl_engine.specs.Outcomes.{Refused, cancel_outcome, submit_outcome};

use crate::{CancelRefusal, Engine, SubmitRefusal};
use bl_files::LoadRequest;
use bl_outside::{Clock, Disk};
use bl_world::load_number;

impl<D: Disk> Engine<D> {
    /// Takes a load on, and gives its id, which is made of the salt.
    pub fn submit<K: Clock>(
        &mut self,
        clock: &mut K,
        salt: u128,
        request: LoadRequest,
    ) -> Result<u128, SubmitRefusal>
        requires { IsRequest request }
        ensures finds { Finds ⟦<D as Disk>⟧ self.old self.new (submit_outcome result)
            (SubmitFinds salt request result) }
        ensures attempts { Attempts ⟦<D as Disk>⟧ (SubmitEntry salt request (K.last clock.new))
            self.old self.new (submit_outcome result) }
    {
        let now = clock.now();
        self.ready()?;
        self.submit_at(now, salt, request)
    }

    // The same of an engine that is ready.
    fn submit_at(
        &mut self,
        now: u64,
        salt: u128,
        request: LoadRequest,
    ) -> Result<u128, SubmitRefusal>
        requires ready { self.old.ready ≡ true }
        requires request { IsRequest request }
        ensures finds { SubmitFinds salt request result self.old.world }
        ensures refused { submit_outcome result ≡ Refused → self.new ≡ self.old }
        ensures attempts { Attempts ⟦<D as Disk>⟧ (SubmitEntry salt request now) self.old self.new
            (submit_outcome result) }
    {
        self.world.jobs().check(&request)?;
        let id = load_number(salt, self.world.jobs().last() + 1);
        let entry = self.world.submit_entry(now, salt, request);
        self.append(entry)?;
        Ok(id)
    }

    /// Cancels the load of this id.
    pub fn cancel<K: Clock>(&mut self, clock: &mut K, id: u128) -> Result<(), CancelRefusal>
        ensures finds { Finds ⟦<D as Disk>⟧ self.old self.new (cancel_outcome result)
            (CancelFinds id result) }
        ensures attempts { Attempts ⟦<D as Disk>⟧ (CancelEntry id (K.last clock.new)) self.old
            self.new (cancel_outcome result) }
    {
        let now = clock.now();
        self.ready()?;
        self.cancel_at(now, id)
    }

    // The same of an engine that is ready.
    fn cancel_at(&mut self, now: u64, id: u128) -> Result<(), CancelRefusal>
        requires { self.old.ready ≡ true }
        ensures finds { CancelFinds id result self.old.world }
        ensures refused { cancel_outcome result ≡ Refused → self.new ≡ self.old }
        ensures attempts { Attempts ⟦<D as Disk>⟧ (CancelEntry id now) self.old self.new
            (cancel_outcome result) }
    {
        match self.world.jobs().job_by_id(id) {
            None => return Err(CancelRefusal::Unknown),
            Some(job) => {
                if !job.is_unended() {
                    return Err(CancelRefusal::Ended(job.status));
                }
            }
        }
        let entry = self.world.cancel_entry(now, id);
        self.append(entry)?;
        Ok(())
    }
}
