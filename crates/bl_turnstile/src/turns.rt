// The rule of a turnstile, and what each kind of its steps tells.
ghost use Rattle.std.specs.Prelude.{[]};
ghost use Rattle.bl_turnstile.specs.Views.{idle, same_view, newcomer, joined};
ghost use Rattle.bl_turnstile.specs.Rule.{IsTurn};
ghost use Rattle.bl_turnstile.specs.Plays.{Draws, Looks, Takes, Announces, Puts, Raises, Settles};

use crate::Told;
use crate::standing::Standing;
use atomic_table::{Join, Play, Split, TableRule};

/// The rule: word 0 is the number that is served, word 1 the next ticket, slot 0 has the value.
pub struct Turns;

impl<T: Told> TableRule<Option<T>, Standing, ()> for Turns {
    ghost holds = { λ _. IsTurn (λ value. T.stands value 1) };

    ghost first = { λ _. idle T.first [] };
}

/// Draws a ticket.
pub struct Draw;

impl<T: Told> Play<Option<T>, Standing> for Draw {
    ghost then = { Draws (λ value. T.stands value 1) };
}

/// Loads the number that is served.
pub struct Look;

impl<T: Told> Play<Option<T>, Standing> for Look {
    ghost then = { Looks (λ value. T.stands value 1) };
}

/// Takes the value out of its slot.
pub struct Take;

impl<T: Told> Play<Option<T>, Standing> for Take {
    ghost then = { Takes (λ value. T.stands value 1) };
}

/// Announces the entries for which the value now stands.
pub struct Announce;

impl<T: Told> Play<Option<T>, Standing> for Announce {
    ghost then = { Announces (λ value. T.stands value 1) };
}

/// Puts the value back into its slot.
pub struct Put;

impl<T: Told> Play<Option<T>, Standing> for Put {
    ghost then = { Puts (λ value. T.stands value 1) };
}

/// Lets the next ticket be served.
pub struct Raise;

impl<T: Told> Play<Option<T>, Standing> for Raise {
    ghost then = { Raises (λ value. T.stands value 1) };
}

/// After a join: tells that what both had seen are fronts of one list.
pub struct Settle;

impl<T: Told> Play<Option<T>, Standing> for Settle {
    ghost then = { Settles (λ value. T.stands value 1) };
}

/// The first keeps what it knows, the second has seen the same and has no entries of its own.
pub struct SplitViews;

impl Split<Standing> for SplitViews {
    ghost left = { same_view };

    ghost right = { newcomer };
}

/// The first takes in what the second knows.
pub struct JoinViews;

impl Join<Standing> for JoinViews {
    ghost both = { joined };

    ghost spent = { idle [] [] };
}
