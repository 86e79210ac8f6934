// Why a text is no event.
ghost use Rattle.std.specs.Prelude.{◌≡◌};
ghost use Rattle.bl_change.specs.declared.refusal.EventRefusal.TheVariants.{
  NoMemory as out_of_memory,
};

use bl_outside::NoMemory;
use thiserror::Error;

/// Why there is no event.
#[derive(Clone, Copy, Debug, PartialEq, Eq, Error)]
pub enum EventRefusal {
    /// The text is not UTF-8, or no JSON of at most 127 levels.
    #[error("not JSON")]
    NotJson,
    /// It is JSON, but the text of no event in its ranges.
    #[error("not the text of an event")]
    NotAnEvent,
    #[error("out of memory")]
    NoMemory,
}

impl From<NoMemory> for EventRefusal {
    ghost from_gives = { λ _ e. e ≡ out_of_memory };

    fn from(_: NoMemory) -> EventRefusal {
        EventRefusal::NoMemory
    }
}
