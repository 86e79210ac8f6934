// Why a body asks for no load.
ghost use Rattle.std.specs.Prelude.{◌≡◌};
ghost use Rattle.bl_feed.specs.declared.body_refusal.BodyRefusal.TheVariants.{
  NoMemory as out_of_memory,
};

use bl_outside::NoMemory;
use thiserror::Error;

/// Why a body is no request for a load.
#[derive(Clone, Copy, Debug, PartialEq, Eq, Error)]
pub enum BodyRefusal {
    /// The body is not UTF-8, no JSON of at most 127 levels, or no object.
    #[error("not a JSON object")]
    NotAnObject,
    /// A member is missing that is needed, or has another form. It is named by its number, from 1,
    /// in the order source, format, mode, failOnError, parallelism,
    /// updateSingleCardinalityProperties, queueRequest, dependencies.
    #[error("member {0}")]
    Member(u8),
    #[error("out of memory")]
    NoMemory,
}

impl From<NoMemory> for BodyRefusal {
    ghost from_gives = { λ _ e. e ≡ out_of_memory };

    fn from(_: NoMemory) -> BodyRefusal {
        BodyRefusal::NoMemory
    }
}
