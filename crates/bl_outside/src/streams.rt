// Sources, sinks and clocks.
ghost use Rattle.std.specs.Prelude.{◌≡◌, ◌<◌, ◌≤◌, List, ℕ, length, IfOk, IfSome};
ghost use Rattle.std.specs.declared.option.Option.{Option};
ghost use Rattle.bl_outside.specs.Counts.{HasCause, one_more};
ghost use Rattle.bl_outside.specs.Streams.{Takes, Puts};

use crate::Failed;

/// Bytes that come in.
pub trait Source {
    /// The bytes that are left, where they are told.
    ghost left: { Self → Option (List ℕ) };

    /// How often it has failed.
    ghost faults: { Self → ℕ };

    /// One call of `take` may lead from the first to the second.
    ghost taken: { Self → Self → Type 0 };

    /// Moves the next bytes to the front of the room. 0 is the end of the input.
    fn take(&mut self, room: &mut [u8]) -> Result<usize, Failed>
        requires { 0 < length room.old }
        ensures bound { IfOk result (λ n. n ≤ length room.old) }
        ensures bytes { Takes (left self.old) (left self.new) result room.new }
        ensures cause { HasCause (faults self.old) (faults self.new) result }
        ensures step { taken self.old self.new };
}

/// Bytes that go out.
pub trait Sink {
    /// The bytes that were written, where they are told.
    ghost written: { Self → Option (List ℕ) };

    /// How often it has failed.
    ghost faults: { Self → ℕ };

    /// One call of `put` may lead from the first to the second.
    ghost put_to: { Self → Self → Type 0 };

    /// Writes the whole piece, or at `Failed` a front of it.
    fn put(&mut self, piece: &[u8]) -> Result<(), Failed>
        ensures bytes { Puts (written self.old) (written self.new) piece.now result }
        ensures cause { HasCause (faults self.old) (faults self.new) result }
        ensures step { put_to self.old self.new };
}

/// Milliseconds from 1970 UTC.
pub trait Clock {
    /// The value that it gave last.
    ghost last: { Self → ℕ };

    /// How often it was read.
    ghost readings: { Self → ℕ };

    /// The one value that it always gives, where it tells one.
    ghost fixed: { Self → Option ℕ };

    fn now(&mut self) -> u64
        ensures value { result ≡ last self.new }
        ensures counted { readings self.new ≡ one_more (readings self.old) }
        ensures fixed { fixed self.new ≡ fixed self.old }
        ensures always { IfSome (fixed self.old) (λ value. result ≡ value) };
}
