// The value, while its holder is inside.
ghost use Rattle.std.specs.Prelude.{◌≡◌, None, ◌∷◌, []};
ghost use Rattle.bl_turnstile.specs.Views.{having};

use crate::standing::Standing;
use atomic_table::Seat;

// A seat with which the value is out.
#[derive(Drop)]
pub(crate) struct Entered<T> {
    pub(crate) seat: Seat<Option<T>, Standing>,
    ghost inside: { seat.me
        ≡ (having seat.me.0.ticket seat.me.0.seen seat.me.0.mine, (0, None) ∷ []) },
}

/// The value and the pass of the one caller that is inside. Only `leave` ends it.
pub struct Inside<T> {
    pub(crate) value: T,
    pub(crate) pass: Entered<T>,
}

impl<T> Inside<T> {
    ghost use types.Logic.{sem};
    ghost use Rattle.bl_turnstile.specs.Passes.{value_inside};
    ghost use Rattle.bl_turnstile.specs.Lending.{LendsValue};

    /// The value. What is written there is the value afterwards, and the pass stays.
    pub fn value(&mut self) -> &mut T
        ensures* writes_back { sem 𝓛 (LendsValue T.row self.entry result) }
        ensures value { result.now ≡ value_inside self.old }
    {
        &mut self.value
    }
}
