// A source in memory.
ghost use Rattle.std.specs.Prelude.{◌≡◌, ◌≤◌, ◌<◌, ◌+◌, ◌^◌, length, drop, IfOk, Ok, Some};
ghost use Rattle.bl_outside.specs.Counts.{HasCause};
ghost use Rattle.bl_outside.specs.MemoryStreams.{source_of};
ghost use Rattle.bl_outside.specs.Plans.{IsPutByPlan};
ghost use Rattle.bl_outside.specs.Streams.{Takes};

use crate::{Failed, Faults, Source, Text};
use std::marker::Model;

/// Bytes in memory, given in pieces of at most a size.
#[derive(Drop)]
pub struct MemorySource {
    bytes: Text,
    at: usize,
    piece: usize,
    plan: Faults,
    faults: u64,
}

impl Model for MemorySource {
    ghost use Rattle.std.specs.Prelude.{◌≤◌, length, drop};
    ghost use Rattle.bl_outside.specs.MemoryStreams.{SourceRecord};
    ghost use Rattle.bl_outside.specs.Plans.{plan_code};

    ghost Value = { SourceRecord };

    ghost view = { λ s. record { left = drop s.at s.bytes; faults = s.faults; plan = s.plan } };

    ghost invariant = { λ s. s.at ≤ length s.bytes };
}

impl MemorySource {
    pub fn new(bytes: Text, piece: usize, plan: Faults) -> MemorySource
        ensures { result ≡ source_of bytes plan }
    {
        MemorySource {
            bytes,
            at: 0,
            piece,
            plan,
            faults: 0,
        }
    }
}

impl Source for MemorySource {
    ghost left = { λ s. Some s.left };

    ghost faults = { λ s. s.faults };

    ghost taken = { λ s t. Unit {0} };

    fn take(&mut self, room: &mut [u8]) -> Result<usize, Failed>
        requires { 0 < length room.old }
        ensures bound { IfOk result (λ n. n ≤ length room.old) }
        ensures bytes { Takes (Some self.old.left) (Some self.new.left) result room.new }
        ensures cause { HasCause self.old.faults self.new.faults result }
        ensures plan { IsPutByPlan self.old.plan self.new.plan self.old.faults self.new.faults
            result }
    {
        if self.plan.next() {
            self.faults = self.faults.saturating_add(1);
            return Err(Failed);
        }
        let most = move_part(&self.bytes, self.at, self.piece, room);
        self.at += most;
        Ok(most)
    }
}

// Moves the next bytes, a piece at the most, to the front of the room. Their number.
fn move_part(bytes: &Text, at: usize, piece: usize, room: &mut [u8]) -> usize
    requires some { 0 < length room.old }
    requires within { at ≤ length bytes.now }
    ensures bound { (result ≤ length room.old) × (at + result ≤ length bytes.now) }
    ensures place { at + result < 2 ^ 64 }
    ensures taken { Takes (Some (drop at bytes.now)) (Some (drop (at + result) bytes.now))
        (Ok result) room.new }
{
    let most = room.len().min(piece.max(1)).min(bytes.len() - at);
    room[..most].copy_from_slice(&bytes.as_slice()[at..at + most]);
    most
}
