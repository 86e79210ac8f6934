// Who answers requests.
ghost use Rattle.std.specs.Prelude.{◌≡◌};
ghost use Rattle.bl_http.specs.declared.request.Request.{Request as Asking};
ghost use Rattle.bl_session.specs.declared.reply.Reply.{Reply as Replying};

use crate::answering::answer;
use crate::reply::Reply;
use bl_engine::Engine;
use bl_http::Request;
use bl_outside::{Clock, Disk};
use std::alloc::Global;

/// Answers requests, one after the other.
pub trait Desk {
    /// What an answer does: the desk before, the request, the reply, and the desk after.
    ghost answers: { Self → Asking → Replying → Self → Type 0 };

    fn answer(&mut self, alloc: Global, request: &Request) -> Reply
        ensures { answers self.old request.now result self.new };
}

/// The desk over an engine, with the clock of its entries and the salt of its load ids.
#[derive(Drop)]
pub struct EngineDesk<'a, D: Disk, K: Clock> {
    pub engine: &'a mut Engine<D>,
    pub clock: &'a mut K,
    pub salt: u128,
}

impl<'a, D: Disk, K: Clock> Desk for EngineDesk<'a, D, K> {
    ghost use Rattle.bl_session.specs.Answers.{Answered};

    ghost answers = { λ old request reply new. (new.salt ≡ old.salt)
        × (new.engine.ghost_name ≡ old.engine.ghost_name)
        × (new.clock.ghost_name ≡ old.clock.ghost_name)
        × Answered ⟦<D as Disk>⟧ old.salt (K.last new.clock.now) request old.engine.now
        new.engine.now reply };

    fn answer(&mut self, alloc: Global, request: &Request) -> Reply {
        answer(alloc, self.engine, self.clock, self.salt, request)
    }
}
