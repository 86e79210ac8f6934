// Who answers the requests of a script.
use bl_engine::Engine;
use bl_http::Request;
use bl_outside::{Clock, Disk};
use bl_session::{Desk, Reply, answer};
use std::alloc::Global;

/// The desk over an engine that is its own, with the clock of its entries and the salt of its load
/// ids.
#[derive(Drop)]
pub struct ScriptDesk<'a, D: Disk, K: Clock> {
    pub engine: Engine<D>,
    pub clock: &'a mut K,
    pub salt: u128,
}

impl<'a, D: Disk, K: Clock> Desk for ScriptDesk<'a, D, K> {
    ghost use Rattle.std.specs.Prelude.{◌≡◌};
    ghost use Rattle.bl_session.specs.Answers.{Answered};

    ghost answers = { λ old request reply new. (new.salt ≡ old.salt)
        × Answered ⟦<D as Disk>⟧ old.salt (K.last new.clock.now) request old.engine new.engine
        reply };

    fn answer(&mut self, alloc: Global, request: &Request) -> Reply {
        answer(alloc, &mut self.engine, self.clock, self.salt, request)
    }
}
