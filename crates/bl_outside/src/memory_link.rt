// A connection in memory.
ghost use Rattle.std.specs.Prelude.{◌≡◌, Some};
ghost use Rattle.std.proofs.Common.{ap};

use crate::{Failed, Link, MemorySink, MemorySource, Sink, Source, Text};
use std::marker::Model;

/// Both directions in memory, each with its own plan of faults.
#[derive(Drop)]
pub struct MemoryLink {
    input: MemorySource,
    output: MemorySink,
}

impl Model for MemoryLink {
    ghost use Rattle.bl_outside.specs.MemoryListeners.{LinkRecord};

    ghost Value = { LinkRecord };

    ghost view = { λ link. record { input = link.input; output = link.output } };
}

impl MemoryLink {
    pub fn new(input: MemorySource, output: MemorySink) -> MemoryLink
        ensures { result ≡ record { input = input; output = output } }
    {
        MemoryLink { input, output }
    }

    /// What was written to it.
    pub fn written(&self) -> &Text
        ensures { result.now ≡ self.now.output.written }
    {
        self.output.bytes()
    }
}

impl Source for MemoryLink {
    ghost left = { λ link. Some link.input.left };

    ghost faults = { λ link. link.input.faults };

    ghost taken = { λ old new. new.output ≡ old.output };

    fn take(&mut self, room: &mut [u8]) -> Result<usize, Failed> {
        self.input.take(room)
    }
}

impl Sink for MemoryLink {
    ghost written = { λ link. Some link.output.written };

    ghost faults = { λ link. link.output.faults };

    ghost put_to = { λ old new. new.input ≡ old.input };

    fn put(&mut self, piece: &[u8]) -> Result<(), Failed> {
        self.output.put(piece)
    }
}

impl Link for MemoryLink {
    ghost take_keeps = { λ old new same.
        (ap (λ sink. Some sink.written) same, ap (λ sink. sink.faults) same) };

    ghost put_keeps = { λ old new same.
        (ap (λ source. Some source.left) same, ap (λ source. source.faults) same) };
}
