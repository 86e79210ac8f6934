// What was prepared is committed.
ghost use Rattle.std.specs.Prelude.{◌≡◌, ◌≢◌, IfOk};
ghost use Rattle.bl_engine.specs.Attempts.{Attempts};
ghost use Rattle.bl_engine.specs.Calls.{Looks};
ghost use Rattle.bl_engine.specs.Findings.{Finds, Tells, TurnFinds};
ghost use Rattle.bl_engine.specs.Outcomes.{Full, trouble_in, turn_outcome};
ghost use Rattle.bl_load.specs.Committing.{IsNothing, PreparedEntry};
ghost use Rattle.bl_load.specs.Prepares.{MayCommit};

use crate::prepared::Prepared;
use bl_engine::{Engine, TurnRefusal, Turned};
use bl_outside::{Clock, Disk};
use bl_world::Work;

// Nothing is to be done, or something is by now.
fn commit_nothing<D: Disk>(engine: &mut Engine<D>) -> Result<Turned, TurnRefusal>
    ensures finds { Finds ⟦<D as Disk>⟧ engine.old engine.new (turn_outcome result)
        (TurnFinds Work.Idle result) }
    ensures looks { Looks ⟦<D as Disk>⟧ engine.old engine.new (trouble_in (turn_outcome result)) }
    ensures idle { IfOk result (λ turned. turned ≡ Turned.Idle) }
    ensures room { turn_outcome result ≢ Full }
{
    engine.ready()?;
    match engine.next_work() {
        Work::Idle => Ok(Turned::Idle),
        next => Err(TurnRefusal::Stale(next)),
    }
}

/// Commits what was prepared for the work, where that is still what is to be done next. `Nothing`
/// appends nothing.
pub fn commit<D: Disk, K: Clock>(
    engine: &mut Engine<D>,
    clock: &mut K,
    work: Work,
    prepared: Prepared,
) -> Result<Turned, TurnRefusal>
    requires { MayCommit work prepared }
    ensures finds { Finds ⟦<D as Disk>⟧ engine.old engine.new (turn_outcome result)
        (TurnFinds work result) }
    ensures attempts { ¬ (IsNothing prepared) → Attempts ⟦<D as Disk>⟧
        (Tells (PreparedEntry work prepared (K.last clock.new)) result)
        engine.old engine.new (turn_outcome result) }
    ensures looks { IsNothing prepared → Looks ⟦<D as Disk>⟧ engine.old engine.new
        (trouble_in (turn_outcome result)) }
    ensures idle { IsNothing prepared → IfOk result (λ turned. turned ≡ Turned.Idle) }
    ensures room { IsNothing prepared → turn_outcome result ≢ Full }
{
    match prepared {
        Prepared::Nothing => commit_nothing(engine),
        Prepared::Plan(plan) => engine.commit_plan(clock, work, plan),
        Prepared::Rows(rows) => engine.commit_rows(clock, work, rows),
        Prepared::End(end) => engine.commit_end(clock, work, end),
    }
}
