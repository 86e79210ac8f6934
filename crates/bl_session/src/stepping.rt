// Steps of a session.
ghost use Rattle.std.specs.Prelude.{◌≡◌, ◌≤◌, IsErrOf};
ghost use Rattle.bl_outside.specs.Counts.{Rose};
ghost use Rattle.bl_http.specs.Buffers.{IsWithin};
ghost use Rattle.bl_session.specs.Steps.{ActsOn, Refuses, Replies, StepIs};

use crate::desk::Desk;
use crate::problem::Problem;
use crate::replying::problem_text;
use crate::step::{SessionFault, Step};
use bl_http::{Asked, Buffer, HeadRefusal, Request, read_request};
use bl_outside::{Sink, Source};
use std::alloc::Global;

/// Answers a request that was read, and writes the reply.
pub fn reply_to<O: Sink, P: Desk>(
    alloc: Global,
    desk: &mut P,
    request: &Request,
    sink: &mut O,
) -> Result<Step, SessionFault>
    ensures replies { Replies P.answers request.now desk.old desk.new (O.written sink.old)
        (O.written sink.new) result }
    ensures later { O.faults sink.old ≤ O.faults sink.new }
    ensures fault { IsErrOf result SessionFault.WriteFault
        → Rose (O.faults sink.old) (O.faults sink.new) }
{
    let reply = desk.answer(alloc, request);
    match sink.put(reply.as_slice()) {
        Ok(()) => Ok(Step::of(reply.ends())),
        Err(_) => Err(SessionFault::WriteFault),
    }
}

/// Writes the reply to a head that is refused. The connection ends with it.
pub fn refuse_head<O: Sink>(
    alloc: Global,
    refusal: HeadRefusal,
    sink: &mut O,
) -> Result<(), SessionFault>
    ensures refuses { Refuses refusal (O.written sink.old) (O.written sink.new) result }
    ensures later { O.faults sink.old ≤ O.faults sink.new }
    ensures fault { IsErrOf result SessionFault.WriteFault
        → Rose (O.faults sink.old) (O.faults sink.new) }
{
    let Ok(text) = problem_text(alloc, Problem::Head(refusal), true) else {
        return Err(SessionFault::NoMemory);
    };
    match sink.put(text.as_slice()) {
        Ok(()) => Ok(()),
        Err(_) => Err(SessionFault::WriteFault),
    }
}

// Acts on what was read.
fn act_on<O: Sink, P: Desk>(
    alloc: Global,
    asked: Asked,
    desk: &mut P,
    sink: &mut O,
) -> Result<Step, SessionFault>
    ensures acts { ActsOn P.answers asked desk.old desk.new (O.written sink.old)
        (O.written sink.new) result }
    ensures later { O.faults sink.old ≤ O.faults sink.new }
    ensures fault { IsErrOf result SessionFault.WriteFault
        → Rose (O.faults sink.old) (O.faults sink.new) }
    ensures read { ¬ (IsErrOf result SessionFault.ReadFault) }
{
    match asked {
        Asked::Got(request) => reply_to(alloc, desk, &request, sink),
        Asked::Refused(refusal) => match refuse_head(alloc, refusal, sink) {
            Ok(()) => Ok(Step::Closed),
            Err(fault) => Err(fault),
        },
        Asked::End => Ok(Step::Ended),
        Asked::Torn => Ok(Step::Torn),
        Asked::TooLong => Ok(Step::TooLong),
    }
}

/// One step of a session: a request is read from the source, answered by the desk, and the reply
/// is written to the sink.
pub fn step_over<S: Source, O: Sink, P: Desk>(
    alloc: Global,
    source: &mut S,
    sink: &mut O,
    buffer: &mut Buffer,
    desk: &mut P,
) -> Result<Step, SessionFault>
    ensures step { StepIs P.answers (S.left source.old) (S.left source.new) buffer.old buffer.new
        desk.old desk.new (O.written sink.old) (O.written sink.new) result }
    ensures within { IsWithin buffer.new }
    ensures reads_on { S.faults source.old ≤ S.faults source.new }
    ensures writes_on { O.faults sink.old ≤ O.faults sink.new }
    ensures read_fault { IsErrOf result SessionFault.ReadFault
        → Rose (S.faults source.old) (S.faults source.new) }
    ensures write_fault { IsErrOf result SessionFault.WriteFault
        → Rose (O.faults sink.old) (O.faults sink.new) }
{
    let asked = read_request(alloc, source, buffer)?;
    act_on(alloc, asked, desk, sink)
}
