// A connection.
ghost use Rattle.std.specs.Prelude.{◌≡◌};

use crate::{Sink, Source};

/// Both directions of a connection.
pub trait Link: Source + Sink {
    /// `take` changes neither what was written nor the count as a sink.
    ghost take_keeps: { (old new : Self) → Self.taken old new
        → (Self.written new ≡ Self.written old) × (Self.Sink.faults new ≡ Self.Sink.faults old) };

    /// `put` changes neither the bytes that are left nor the count as a source.
    ghost put_keeps: { (old new : Self) → Self.put_to old new
        → (Self.left new ≡ Self.left old) × (Self.Source.faults new ≡ Self.Source.faults old) };
}
