// A whole script.
ghost use Rattle.std.specs.Prelude.{◌≡◌, ◌≤◌, Some, IsErrOf};
ghost use Rattle.bl_outside.specs.Counts.{Rose};
ghost use Rattle.bl_outside.specs.Folders.{Files};
ghost use Rattle.bl_http.specs.Buffers.{empty_buffer};
ghost use Rattle.bl_load.specs.OpenFiles.{IsFresh};
ghost use Rattle.bl_script.specs.Scripts.{RunsScript};

use crate::desk::ScriptDesk;
use crate::rounds::play_rounds;
use crate::script_end::ScriptEnd;
use bl_engine::{Engine, left_files_are_never_bad};
use bl_http::Buffer;
use bl_load::{Held, drain};
use bl_outside::{Clock, Disk, Folder, Sink, Source};
use bl_session::{SessionFault, Step};
use bl_workers::Gate;
use std::alloc::Global;
use std::thread::Threads;

// Plays a script at a desk, over a buffer that is empty.
fn play<R: Threads + Sync, F: Folder, D: Disk, K: Clock, G: Gate, S: Source, O: Sink>(
    rt: &R,
    alloc: Global,
    desk: &mut ScriptDesk<'_, D, K>,
    folder: &mut F,
    held: &mut Held,
    gate: &G,
    most: u64,
    input: &mut S,
    out: &mut O,
    buffer: &mut Buffer,
) -> Result<ScriptEnd, SessionFault>
    requires fresh { (files : Files) → F.files folder.old ≡ Some files → IsFresh files held.old }
    requires empty { buffer.old ≡ empty_buffer }
    ensures runs { RunsScript ⟦<D as Disk>⟧ desk.old.salt most (F.files folder.old)
        (F.faults folder.old) (S.left input.old) desk.old.engine desk.new.engine
        (O.written out.old) (O.written out.new) result }
    ensures files { F.files folder.new ≡ F.files folder.old }
    ensures later { F.faults folder.old ≤ F.faults folder.new }
    ensures reads_on { S.faults input.old ≤ S.faults input.new }
    ensures writes_on { O.faults out.old ≤ O.faults out.new }
    ensures read_fault { IsErrOf result SessionFault.ReadFault
        → Rose (S.faults input.old) (S.faults input.new) }
    ensures write_fault { IsErrOf result SessionFault.WriteFault
        → Rose (O.faults out.old) (O.faults out.new) }
{
    left_files_are_never_bad();
    let (step, first) = play_rounds(
        rt, alloc, desk, folder, held, gate, most, input, out, buffer,
    )?;
    match step {
        Step::Torn => Ok(ScriptEnd::Torn),
        Step::TooLong => Ok(ScriptEnd::TooLong),
        Step::Answered | Step::Closed | Step::Ended => {
            let drained = drain(rt, alloc, &mut desk.engine, folder, desk.clock, held, gate);
            Ok(ScriptEnd::Drained(first.or(drained.err())))
        }
    }
}

/// Answers the requests of an input one after another, each reply written before more input is
/// waited for, with up to `most` turns of the loader behind each; behind the end of the input, or a
/// reply that closes, it makes turns until one finds no work or is refused. A turn that is refused
/// ends those of its round, and the script goes on. The engine is handed back.
pub fn run_script<R: Threads + Sync, F: Folder, D: Disk, K: Clock, G: Gate, S: Source, O: Sink>(
    rt: &R,
    alloc: Global,
    engine: Engine<D>,
    folder: &mut F,
    clock: &mut K,
    salt: u128,
    gate: &G,
    most: u64,
    input: &mut S,
    out: &mut O,
) -> (Result<ScriptEnd, SessionFault>, Engine<D>)
    ensures runs { RunsScript ⟦<D as Disk>⟧ salt most (F.files folder.old) (F.faults folder.old)
        (S.left input.old) engine result.1 (O.written out.old) (O.written out.new) result.0 }
    ensures files { F.files folder.new ≡ F.files folder.old }
    ensures later { F.faults folder.old ≤ F.faults folder.new }
    ensures reads_on { S.faults input.old ≤ S.faults input.new }
    ensures writes_on { O.faults out.old ≤ O.faults out.new }
    ensures read_fault { IsErrOf result.0 SessionFault.ReadFault
        → Rose (S.faults input.old) (S.faults input.new) }
    ensures write_fault { IsErrOf result.0 SessionFault.WriteFault
        → Rose (O.faults out.old) (O.faults out.new) }
{
    let mut desk = ScriptDesk {
        engine,
        clock,
        salt,
    };
    let mut held = Held::none();
    let mut buffer = Buffer::new(alloc);
    let came = play(
        rt,
        alloc,
        &mut desk,
        folder,
        &mut held,
        gate,
        most,
        input,
        out,
        &mut buffer,
    );
    let ScriptDesk { engine, .. } = desk;
    (came, engine)
}
