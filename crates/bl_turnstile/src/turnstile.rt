// The turnstile.
ghost use Rattle.std.specs.Prelude.{◌≡◌, ◌+◌, ◌∷◌, ◌++◌, [], ℕ, List, IfOk, IfErr, Some};
ghost use Rattle.bl_turnstile.specs.Entries.{IsPrefix, AreOwn, added};
ghost use Rattle.bl_turnstile.specs.Views.{idle, waiting, inside as served};

use crate::inside::{Entered, Inside};
use crate::standing::Standing;
use crate::turns::{Announce, Draw, JoinViews, Look, Put, Raise, Settle, SplitViews, Take, Turns};
use crate::{Pass, Told};
use atomic_table::{Refused, Seat, Table};
use bl_outside::NoMemory;
use std::alloc::{AllocFailed, Global};
use std::sync::Wait;
use std::thread;

/// One value that many threads use in turns.
pub struct Turnstile<T: Told> {
    table: Table<Option<T>, Standing, (), Turns, Global>,
    ghost sized: { (table.shared.table_id.words ≡ 2) × (table.shared.table_id.slots ≡ 1) },
}

impl<T: Told> Turnstile<T> {
    ghost use Rattle.bl_turnstile.specs.Passes.{
      seen,
      mine,
      turnstile_of,
      value_inside,
      seen_inside,
      mine_inside,
      IsPassOf,
      IsInside,
    };

    /// A turnstile with this value, and the first pass. A refusal hands the value back.
    pub fn new(alloc: Global, value: T) -> Result<(Turnstile<T>, Pass), (NoMemory, T)>
        requires { T.stands value 1 T.first }
        ensures place { IfOk result (λ made. IsPassOf made.0 made.1) }
        ensures seen { IfOk result (λ made. seen made.1 ≡ T.first) }
        ensures mine { IfOk result (λ made. mine made.1 ≡ []) }
        ensures refused { IfErr result (λ left. left.1 ≡ value) }
    {
        let mut slots = Vec::new(alloc);
        if let Err(AllocFailed { value: refused }) = slots.push(Some(value)) {
            slots.destroy_empty();
            return Err((NoMemory, wanted(refused)));
        }
        match Table::new(alloc, &[0, 0], slots, &()) {
            Ok((table, seat)) => Ok((Turnstile { table }, Pass::of_seat(seat))),
            Err(Refused { mut slots }) => match slots.pop() {
                Some(refused) => {
                    slots.destroy_empty();
                    Err((NoMemory, wanted(refused)))
                }
                None => unreachable!(),
            },
        }
    }

    /// Waits for its turn. The value then stands for entries that begin with those that the pass
    /// has seen.
    pub fn enter<R: Wait>(&self, rt: &R, pass: Pass) -> Inside<T>
        requires { IsPassOf self.now pass }
        ensures place { IsInside self.now result }
        ensures stands { T.stands (value_inside result) 1 (seen_inside result) }
        ensures later { IsPrefix (seen pass) (seen_inside result) }
        ensures mine { mine_inside result ≡ mine pass }
    {
        let mut seat = self.wait(rt, pass);
        self.table.shared.load::<Take>(&mut seat, 0);
        match self.table.shared.exchange(&mut seat, 0, None) {
            Some(value) => Inside {
                value,
                pass: Entered { seat },
            },
            None => unreachable!(),
        }
    }

    /// Puts the value back, and lets the next ticket be served. The pass has then seen the entries
    /// for which the value stands, and those that were added are its own.
    pub fn leave(&self, inside: Inside<T>) -> Pass
        requires place { IsInside self.now inside }
        requires stands { (entries : List (List ℕ))
            × T.stands (value_inside inside) 1 entries × IsPrefix (seen_inside inside) entries }
        ensures place { IsPassOf self.now result }
        ensures stands { T.stands (value_inside inside) 1 (seen result) }
        ensures later { IsPrefix (seen_inside inside) (seen result) }
        ensures mine { mine result
            ≡ mine_inside inside ++ added (seen_inside inside) (seen result) }
        // Its own numbers differ, and each names an entry that it has seen.
        ensures own { AreOwn (mine result) (seen result) }
    {
        let Inside {
            value,
            pass: Entered { mut seat },
        } = inside;
        match self.table.shared.exchange(&mut seat, 0, Some(value)) {
            None => {}
            Some(_) => unreachable!(),
        }
        self.table.shared.load::<Announce>(&mut seat, 0);
        self.table.shared.load::<Put>(&mut seat, 0);
        self.table.shared.fetch_add::<Raise>(&mut seat, 0, 1);
        Pass::of_seat(seat)
    }

    /// Two passes that have seen the same. The second has no entries of its own.
    ///
    /// A pass takes no bytes, so this always answers `Ok`.
    pub fn split(&self, pass: Pass) -> Result<(Pass, Pass), (NoMemory, Pass)>
        requires { IsPassOf self.now pass }
        ensures place { IfOk result (λ both. IsPassOf self.now both.0 × IsPassOf self.now both.1) }
        ensures first { IfOk result (λ both.
            (seen both.0 ≡ seen pass) × (mine both.0 ≡ mine pass)) }
        ensures second { IfOk result (λ both. (seen both.1 ≡ seen pass) × (mine both.1 ≡ [])) }
        ensures refused { IfErr result (λ left. left.1 ≡ pass) }
    {
        let mut seat: Seat<Option<T>, Standing> = pass.into_seat();
        let second = self.table.shared.split_seat::<SplitViews>(&mut seat);
        Ok((Pass::of_seat(seat), Pass::of_seat(second)))
    }

    /// One pass that has seen what both have, and has the entries of both as its own.
    pub fn join(&self, pass: Pass, other: Pass) -> Pass
        requires { IsPassOf self.now pass × IsPassOf self.now other }
        ensures place { IsPassOf self.now result }
        ensures first { IsPrefix (seen pass) (seen result) }
        ensures second { IsPrefix (seen other) (seen result) }
        ensures mine { mine result ≡ mine pass ++ mine other }
        ensures own { AreOwn (mine result) (seen result) }
    {
        let mut seat: Seat<Option<T>, Standing> = pass.into_seat();
        let second: Seat<Option<T>, Standing> = other.into_seat();
        self.table.shared.join_seat::<JoinViews>(&mut seat, second);
        self.table.shared.load::<Settle>(&mut seat, 0);
        Pass::of_seat(seat)
    }

    /// Waits for its turn, and keeps the value.
    pub fn close<R: Wait>(self, rt: &R, pass: Pass) -> T
        requires { IsPassOf self pass }
        ensures { (entries : List (List ℕ))
            × T.stands result 1 entries × IsPrefix (seen pass) entries }
    {
        let seat = self.wait(rt, pass);
        let Turnstile { table } = self;
        let mut closed = table.close_with(seat);
        let kept = closed.take(0);
        closed.free();
        wanted(kept)
    }

    // Draws a ticket, and waits until it is served.
    fn wait<R: Wait>(&self, rt: &R, pass: Pass) -> Seat<Option<T>, Standing>
        requires { IsPassOf self.now pass }
        ensures place { result.table_id ≡ self.now.table.shared.table_id }
        ensures inside { (n : ℕ) × (result.me ≡ (served n result.me.0.seen (mine pass), [])) }
        ensures later { IsPrefix (seen pass) result.me.0.seen }
    {
        let mut seat = pass.into_seat();
        let number = self.draw(rt, &mut seat);
        self.take_turn(rt, &mut seat, number);
        seat
    }

    // Draws a ticket. At the greatest number it waits for good.
    fn draw<R: Wait>(&self, rt: &R, seat: &mut Seat<Option<T>, Standing>) -> u64
        requires { (seat.old.table_id ≡ self.now.table.shared.table_id)
            × (seat.old.me ≡ (idle seat.old.me.0.seen seat.old.me.0.mine, [])) }
        ensures { (seat.new.table_id ≡ seat.old.table_id)
            × (seat.new.me ≡ (waiting result seat.old.me.0.seen seat.old.me.0.mine, [])) }
    {
        let mut number = 0;
        for _ in rt.forever() {
            if number < u64::MAX {
                let found = self
                    .table
                    .shared
                    .compare_exchange::<Draw>(seat, 1, number, number + 1);
                if found == number {
                    return number;
                }
                number = found;
            }
            thread::yield_now();
        }
        unreachable!()
    }

    // Waits until the ticket is served.
    fn take_turn<R: Wait>(&self, rt: &R, seat: &mut Seat<Option<T>, Standing>, number: u64)
        requires { (seat.old.table_id ≡ self.now.table.shared.table_id)
            × (seat.old.me ≡ (waiting number seat.old.me.0.seen seat.old.me.0.mine, [])) }
        ensures { (seat.new.table_id ≡ seat.old.table_id)
            × ((entries : List (List ℕ)) × IsPrefix seat.old.me.0.seen entries
            × (seat.new.me ≡ (served number entries seat.old.me.0.mine, []))) }
    {
        for _ in rt.forever() {
            if self.table.shared.load::<Look>(seat, 0) == number {
                return;
            }
            thread::yield_now();
        }
    }
}

// What is known to be there.
fn wanted<T>(kept: Option<T>) -> T
    requires { (value : T) × (kept ≡ Some value) }
    ensures { kept ≡ Some result }
{
    match kept {
        Some(value) => value,
        None => unreachable!(),
    }
}
