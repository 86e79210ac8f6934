// Which calls of an object in memory fail.
ghost use Rattle.std.specs.Prelude.{◌≡◌, OnOk, IsErrOf};
ghost use Rattle.bl_outside.specs.Plans.{called, is_due, no_faults, plan_of};
ghost use Rattle.bl_outside.specs.Counts.{HasDeviceCause, one_more};
ghost use Rattle.bl_outside.specs.declared.refusals.Outside.TheVariants.{
  Failed as device_failed,
  NoMemory as out_of_memory,
};

use crate::{List, Outside};
use std::alloc::Global;
use std::marker::Model;

/// The calls of an object that are to fail, each by its number from 1.
#[derive(Debug, Drop)]
pub struct Faults {
    /// Calls that were made.
    calls: u64,
    /// These fail.
    fails: List<u64>,
    /// From this one on each fails. 0 for none.
    from: u64,
}

impl Model for Faults {
    ghost use Rattle.bl_outside.specs.Plans.{Plan, plan_code};

    ghost Value = { Plan };

    ghost coded = { plan_code };

    ghost view = { λ f. record { calls = f.calls; fails = f.fails; from = f.from } };
}

impl Faults {
    /// No call fails.
    pub fn none(alloc: Global) -> Faults
        ensures { result ≡ no_faults }
    {
        Faults {
            calls: 0,
            fails: List::new(alloc),
            from: 0,
        }
    }

    /// The listed calls fail, and each from one on where that isn't 0.
    pub fn of(fails: List<u64>, from: u64) -> Faults
        ensures { result ≡ plan_of fails from }
    {
        Faults {
            calls: 0,
            fails,
            from,
        }
    }

    /// Counts a call, and says whether it is to fail.
    pub fn next(&mut self) -> bool
        ensures called { self.new ≡ called self.old }
        ensures due { result ≡ is_due (called self.old) }
    {
        self.calls = self.calls.saturating_add(1);
        self.fails.as_slice().contains(&self.calls) || (self.from > 0 && self.calls >= self.from)
    }
}

/// Counts a failure.
pub fn counted<T>(faults: &mut u64, answer: Result<T, Outside>) -> Result<T, Outside>
    ensures same { result ≡ answer }
    ensures cause { HasDeviceCause faults.old faults.new result }
    ensures failed { IsErrOf result device_failed → faults.new ≡ one_more faults.old }
    ensures ok { OnOk result (faults.new ≡ faults.old) }
    ensures memory { IsErrOf result out_of_memory → faults.new ≡ faults.old }
{
    if let Err(Outside::Failed) = &answer {
        *faults = faults.saturating_add(1);
    }
    answer
}
