// A sink in memory.
ghost use Rattle.std.specs.Prelude.{◌≡◌, true, IsErr, Some};
ghost use Rattle.bl_outside.specs.Counts.{HasCause};
ghost use Rattle.bl_outside.specs.MemoryStreams.{empty_sink};
ghost use Rattle.bl_outside.specs.Plans.{IsPutByPlan};
ghost use Rattle.bl_outside.specs.Streams.{Puts};

use crate::{Failed, Faults, Sink, Text};
use std::alloc::Global;
use std::marker::Model;

/// What was written. A call that is to fail writes the first half of its piece.
#[derive(Drop)]
pub struct MemorySink {
    bytes: Text,
    plan: Faults,
    faults: u64,
}

impl Model for MemorySink {
    ghost use Rattle.bl_outside.specs.MemoryStreams.{SinkRecord};

    ghost Value = { SinkRecord };

    ghost view = { λ s. record { written = s.bytes; faults = s.faults; plan = s.plan } };
}

impl MemorySink {
    pub fn new(alloc: Global, plan: Faults) -> MemorySink
        ensures { result ≡ empty_sink plan }
    {
        MemorySink {
            bytes: Text::new(alloc),
            plan,
            faults: 0,
        }
    }

    pub fn bytes(&self) -> &Text
        ensures { result.now ≡ self.now.written }
    {
        &self.bytes
    }
}

// Writes the piece, or a front of it.
fn put_on(bytes: &mut Text, piece: &[u8], fails: bool) -> Result<(), Failed>
    ensures puts { Puts (Some bytes.old) (Some bytes.new) piece.now result }
    ensures failing { fails ≡ true → IsErr result }
{
    if fails {
        let _ = bytes.extend(&piece[..piece.len() / 2]);
        return Err(Failed);
    }
    match bytes.extend(piece) {
        Ok(()) => Ok(()),
        Err(_) => Err(Failed),
    }
}

impl Sink for MemorySink {
    ghost written = { λ s. Some s.written };

    ghost faults = { λ s. s.faults };

    ghost put_to = { λ s t. Unit {0} };

    fn put(&mut self, piece: &[u8]) -> Result<(), Failed>
        ensures bytes { Puts (Some self.old.written) (Some self.new.written) piece.now result }
        ensures cause { HasCause self.old.faults self.new.faults result }
        ensures plan { IsPutByPlan self.old.plan self.new.plan self.old.faults self.new.faults
            result }
    {
        let fails = self.plan.next();
        let answer = put_on(&mut self.bytes, piece, fails);
        if answer.is_err() {
            self.faults = self.faults.saturating_add(1);
        }
        answer
    }
}
