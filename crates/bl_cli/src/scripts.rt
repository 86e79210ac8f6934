// Requests that are answered over an engine.
ghost use Rattle.std.specs.Prelude.{◌≡◌};
ghost use Rattle.bl_cli.specs.Ends.{IsOfScript};
ghost use Rattle.bl_cli.specs.ScriptRuns.{
  LeavesEngine,
  ScriptsOver,
  drained_status,
  end_status,
  input_of,
  script_status,
  session_status,
};

use crate::load_fault::LoadFault;
use crate::status::Status;
use bl_engine::Engine;
use bl_load::TurnFault;
use bl_outside::{Clock, Disk, Folder, Sink, Source};
use bl_script::{ScriptEnd, run_script};
use bl_session::SessionFault;
use bl_workers::OpenGate;
use std::alloc::Global;
use std::thread::Threads;

// The status by the first turn that was refused.
fn drained_status(refused: Option<TurnFault>) -> Status
    ensures { result ≡ drained_status refused }
{
    match refused {
        None => Status::Ok,
        Some(fault) => LoadFault::from(fault).status(),
    }
}

fn end_status(end: ScriptEnd) -> Status
    ensures { result ≡ end_status end }
{
    match end {
        ScriptEnd::Drained(refused) => drained_status(refused),
        ScriptEnd::Torn => Status::TornInput,
        ScriptEnd::TooLong => Status::InputTooLong,
    }
}

fn session_status(fault: SessionFault) -> Status
    ensures { result ≡ session_status fault }
{
    match fault {
        SessionFault::ReadFault => Status::ReadFault,
        SessionFault::WriteFault => Status::WriteFault,
        SessionFault::NoMemory => Status::NoMemory,
    }
}

// How a script ends.
fn script_status(came: Result<ScriptEnd, SessionFault>) -> Status
    ensures { result ≡ script_status came }
{
    match came {
        Ok(end) => end_status(end),
        Err(fault) => session_status(fault),
    }
}

/// Answers the requests of the input over an engine, with up to so many turns behind each, and hands
/// the engine back.
pub fn script_over<R: Threads + Sync, F: Folder, D: Disk, K: Clock, S: Source, O: Sink>(
    rt: &R,
    alloc: Global,
    turns: u64,
    engine: Engine<D>,
    folder: &mut F,
    clock: &mut K,
    salt: u128,
    input: &mut S,
    out: &mut O,
) -> (Status, Engine<D>)
    ensures scripts { ScriptsOver ⟦<D as Disk>⟧ (F.files folder.old) salt turns
        (input_of (S.left input.old) (S.faults input.old) (S.faults input.new)
        (F.faults folder.old)) engine result.1 (O.written out.old) (O.written out.new) result.0 }
    ensures leaves { LeavesEngine ⟦<D as Disk>⟧ (F.files folder.old)
        (input_of (S.left input.old) (S.faults input.old) (S.faults input.new)
        (F.faults folder.old)) engine result.1 (O.faults out.old) (O.faults out.new) result.0 }
    ensures ends { IsOfScript result.0 }
    ensures files { F.files folder.new ≡ F.files folder.old }
{
    let (came, engine) = run_script(
        rt, alloc, engine, folder, clock, salt, &OpenGate, turns, input, out,
    );
    (script_status(came), engine)
}
