// Rounds of a script.
ghost use Rattle.std.specs.Prelude.{◌≡◌, ◌≤◌, ℕ, Ok, Some, IfOk, IsErrOf};
ghost use Rattle.bl_outside.specs.Counts.{Rose};
ghost use Rattle.bl_outside.specs.Folders.{Files};
ghost use Rattle.bl_http.specs.Buffers.{IsWithin};
ghost use Rattle.bl_load.specs.OpenFiles.{IsFresh};
ghost use Rattle.bl_script.specs.PlayedRounds.{AnswersNext, PlaysRound, PlaysRounds, UsesUp, place_of};

use crate::desk::ScriptDesk;
use crate::turns::make_turns;
use bl_http::Buffer;
use bl_load::{Held, TurnFault};
use bl_outside::{Clock, Disk, Folder, Sink, Source};
use bl_session::{SessionFault, Step, step_over};
use bl_workers::Gate;
use std::alloc::Global;
use std::thread::Threads;

// Reads what stands next, has it answered, and writes its reply.
fn answer_next<D: Disk, K: Clock, S: Source, O: Sink>(
    alloc: Global,
    desk: &mut ScriptDesk<'_, D, K>,
    input: &mut S,
    out: &mut O,
    buffer: &mut Buffer,
) -> Result<Step, SessionFault>
    ensures answers { (faults : ℕ) → AnswersNext ⟦<D as Disk>⟧ desk.old.salt
        (place_of desk.old.engine faults buffer.old (S.left input.old) (O.written out.old))
        (place_of desk.new.engine faults buffer.new (S.left input.new) (O.written out.new)) result }
    ensures uses { result ≡ Ok Step.Answered → UsesUp buffer.old buffer.new }
    ensures salt { desk.new.salt ≡ desk.old.salt }
    ensures within { IsWithin buffer.new }
    ensures reads_on { S.faults input.old ≤ S.faults input.new }
    ensures writes_on { O.faults out.old ≤ O.faults out.new }
    ensures read_fault { IsErrOf result SessionFault.ReadFault
        → Rose (S.faults input.old) (S.faults input.new) }
    ensures write_fault { IsErrOf result SessionFault.WriteFault
        → Rose (O.faults out.old) (O.faults out.new) }
{
    step_over(alloc, input, out, buffer, desk)
}

// Reads what stands next and answers it, and makes turns behind a reply. Why the first of them was
// refused that was.
fn play_round<R: Threads + Sync, F: Folder, D: Disk, K: Clock, G: Gate, S: Source, O: Sink>(
    rt: &R,
    alloc: Global,
    desk: &mut ScriptDesk<'_, D, K>,
    folder: &mut F,
    held: &mut Held,
    gate: &G,
    most: u64,
    input: &mut S,
    out: &mut O,
    buffer: &mut Buffer,
) -> Result<(Step, Option<TurnFault>), SessionFault>
    requires fresh { (files : Files) → F.files folder.old ≡ Some files → IsFresh files held.old }
    ensures plays { PlaysRound ⟦<D as Disk>⟧ desk.old.salt most (F.files folder.old)
        (place_of desk.old.engine (F.faults folder.old) buffer.old (S.left input.old)
        (O.written out.old))
        (place_of desk.new.engine (F.faults folder.new) buffer.new (S.left input.new)
        (O.written out.new))
        result }
    ensures uses { IfOk result (λ came. came.0 ≡ Step.Answered → UsesUp buffer.old buffer.new) }
    ensures salt { desk.new.salt ≡ desk.old.salt }
    ensures within { IsWithin buffer.new }
    ensures fresh { (files : Files) → F.files folder.new ≡ Some files → IsFresh files held.new }
    ensures files { F.files folder.new ≡ F.files folder.old }
    ensures later { F.faults folder.old ≤ F.faults folder.new }
    ensures reads_on { S.faults input.old ≤ S.faults input.new }
    ensures writes_on { O.faults out.old ≤ O.faults out.new }
    ensures read_fault { IsErrOf result SessionFault.ReadFault
        → Rose (S.faults input.old) (S.faults input.new) }
    ensures write_fault { IsErrOf result SessionFault.WriteFault
        → Rose (O.faults out.old) (O.faults out.new) }
{
    let step = answer_next(alloc, desk, input, out, buffer)?;
    match step {
        Step::Answered | Step::Closed => {
            let refused = make_turns(
                rt,
                alloc,
                &mut desk.engine,
                folder,
                desk.clock,
                held,
                gate,
                most,
            );
            Ok((step, refused))
        }
        Step::Ended | Step::Torn | Step::TooLong => Ok((step, None)),
    }
}

/// Answers what stands in the input, with turns behind each reply, until a reply closes, no request
/// stands next, or one isn't answered. Why the first of all turns was refused that was.
pub fn play_rounds<R: Threads + Sync, F: Folder, D: Disk, K: Clock, G: Gate, S: Source, O: Sink>(
    rt: &R,
    alloc: Global,
    desk: &mut ScriptDesk<'_, D, K>,
    folder: &mut F,
    held: &mut Held,
    gate: &G,
    most: u64,
    input: &mut S,
    out: &mut O,
    buffer: &mut Buffer,
) -> Result<(Step, Option<TurnFault>), SessionFault>
    requires fresh { (files : Files) → F.files folder.old ≡ Some files → IsFresh files held.old }
    requires within { IsWithin buffer.old }
    ensures plays { PlaysRounds ⟦<D as Disk>⟧ desk.old.salt most (F.files folder.old)
        (place_of desk.old.engine (F.faults folder.old) buffer.old (S.left input.old)
        (O.written out.old))
        (place_of desk.new.engine (F.faults folder.new) buffer.new (S.left input.new)
        (O.written out.new))
        result }
    ensures fresh { (files : Files) → F.files folder.new ≡ Some files → IsFresh files held.new }
    ensures files { F.files folder.new ≡ F.files folder.old }
    ensures later { F.faults folder.old ≤ F.faults folder.new }
    ensures reads_on { S.faults input.old ≤ S.faults input.new }
    ensures writes_on { O.faults out.old ≤ O.faults out.new }
    ensures read_fault { IsErrOf result SessionFault.ReadFault
        → Rose (S.faults input.old) (S.faults input.new) }
    ensures write_fault { IsErrOf result SessionFault.WriteFault
        → Rose (O.faults out.old) (O.faults out.new) }
{
    let mut first: Option<TurnFault> = None;
    loop {
        let (step, refused) = play_round(
            rt, alloc, desk, folder, held, gate, most, input, out, buffer,
        )?;
        first = first.or(refused);
        match step {
            Step::Answered => {}
            Step::Closed | Step::Ended | Step::Torn | Step::TooLong => return Ok((step, first)),
        }
    }
}
