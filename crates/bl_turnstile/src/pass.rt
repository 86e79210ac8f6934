// A caller's token.
ghost use Rattle.std.specs.Prelude.{◌≡◌, [], ◌∷◌};
ghost use Rattle.bl_turnstile.specs.Entries.{AreOwn};
ghost use Rattle.bl_turnstile.specs.Views.{idle, seen_in, mine_in};

use crate::standing::Standing;
use atomic_table::{Badge, Seat};

/// A caller's token: the entries that it has seen, and the numbers of those that are its own.
///
/// It takes no bytes. The numbers differ, and each names an entry that it has seen.
#[derive(Drop)]
pub struct Pass {
    badge: Badge<Standing>,
    ghost idle: { badge.views ≡ idle (seen_in badge.views) (mine_in badge.views) ∷ [] },
    ghost own: { AreOwn (mine_in badge.views) (seen_in badge.views) },
}

impl Pass {
    ghost use Rattle.bl_turnstile.specs.Passes.{seen, mine, turnstile_of};

    // Its seat at the table.
    pub(crate) fn into_seat<T>(self) -> Seat<Option<T>, Standing>
        ensures place { result.table_id ≡ turnstile_of self }
        ensures idle { result.me ≡ (idle (seen self) (mine self), []) }
    {
        let Pass { badge } = self;
        badge.into_seat()
    }

    // A seat that waits for nothing and holds nothing.
    pub(crate) fn of_seat<T>(seat: Seat<Option<T>, Standing>) -> Pass
        requires idle { seat.me ≡ (idle seat.me.0.seen seat.me.0.mine, []) }
        requires own { AreOwn seat.me.0.mine seat.me.0.seen }
        ensures place { turnstile_of result ≡ seat.table_id }
        ensures seen { seen result ≡ seat.me.0.seen }
        ensures mine { mine result ≡ seat.me.0.mine }
    {
        Pass {
            badge: seat.into_badge(),
        }
    }
}
