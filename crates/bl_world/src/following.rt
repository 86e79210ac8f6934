// Why an entry isn't followed.
ghost use Rattle.std.specs.Prelude.{◌≡◌};
ghost use Rattle.bl_world.specs.declared.following.FollowRefusal.TheVariants.{
  NoMemory as out_of_memory,
};

use bl_outside::NoMemory;
use thiserror::Error;

/// Why an entry isn't followed.
#[derive(Clone, Copy, Debug, PartialEq, Eq, Error)]
pub enum FollowRefusal {
    #[error("the entry may not follow")]
    Unfit,
    #[error("out of memory")]
    NoMemory,
}

impl From<NoMemory> for FollowRefusal {
    ghost from_gives = { λ _ e. e ≡ out_of_memory };

    fn from(_: NoMemory) -> FollowRefusal {
        FollowRefusal::NoMemory
    }
}
